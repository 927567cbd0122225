//! Tests with several threads, of `nvm_unit`, of `nvm_space`, and of `run` and `nvm_audit` by `nvm_engine`: what no clause can say of
//! threads is that they do something at the same time, and that one which waits goes on. And tests of `hand` of `nvm_text`, of which no clause
//! can say that it succeeds: by a writer that takes a few bytes at a time.
#![tactic(auto)]

#[cfg(test)]
mod handing;
#[cfg(test)]
mod holding;
#[cfg(test)]
mod threads;
