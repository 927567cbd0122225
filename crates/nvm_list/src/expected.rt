use thiserror::Error;

/// What was expected in a line at the first place where there is something else.
#[derive(Clone, Copy, Debug, PartialEq, Eq, Error)]
pub enum Expected {
    /// The first word names no operation, or an opcode that has a name of its own.
    #[error("expected write, read, compare, zeroes, uncorrectable, dataset, or op- and another opcode in two hexadecimal digits")]
    Name,
    /// The word after the name isn't a number that an LBA can be.
    #[error("expected an LBA from 0 to 18446744073709551615")]
    Lba,
    /// The word after the LBA isn't a number of blocks.
    #[error("expected a number of blocks from 1 to 65536")]
    Blocks,
    /// The word after the blocks is no data.
    #[error("expected data as runs, as in 511*41,1*42, or as two hexadecimal digits")]
    Data,
    /// The runs are data of another length.
    #[error("expected data of {wanted} bytes and not of {found}")]
    DataLength {
        /// How many bytes the blocks have.
        wanted: u64,
        /// How many bytes the runs have.
        found: u128,
    },
    /// The word after the name says no ranges.
    #[error("expected ranges, as in 7+2,0+1: LBAs from 0 to 18446744073709551615, and from 0 to 4294967295 blocks")]
    Ranges,
    /// There are more ranges than a command has.
    #[error("expected at most 256 ranges and not {found}")]
    RangeCount {
        /// How many ranges there are.
        found: u64,
    },
    /// A word after a command on blocks is no option of it.
    #[error("expected first, second, reserved, cid= or nsid=")]
    OptionName,
    /// A word after a command on ranges is no option of it.
    #[error("expected deallocate, first, second, reserved, cid= or nsid=")]
    RangeOptionName,
    /// An option is given twice, or two of `first`, `second` and `reserved` are in one line.
    #[error("expected each option at most once, and at most one of first, second and reserved")]
    OptionOnce,
    /// What is after `cid=` isn't a number that a command identifier can be.
    #[error("expected a number from 0 to 65535 behind cid=")]
    Cid,
    /// What is after `nsid=` isn't a number that a namespace identifier can be.
    #[error("expected a number from 0 to 4294967295 behind nsid=")]
    Nsid,
    /// The list has 65,536 commands before this one.
    #[error("expected no more than 65536 commands")]
    NoMoreCommands,
}
