/// The version of the programs, which each prints for `--version`.
pub const VERSION: &str = "0.1.0";
