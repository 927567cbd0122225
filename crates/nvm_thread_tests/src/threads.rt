//! What several threads do, module by module of what they share.
mod runs;
mod spaces;
mod units;
