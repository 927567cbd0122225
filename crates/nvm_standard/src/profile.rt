ghost use Rattle.std.specs.Prelude.{◌≡◌};
ghost use Rattle.nvm_standard.specs.Commands as commands;
ghost use Rattle.nvm_standard.specs.Rows as rows;

use nvm_trace::Deallocated;

/// What a device is held to.
#[derive(Clone, Copy, Debug, PartialEq, Eq)]
pub struct Profile {
    /// What Reads, and with some words Compares and other writing commands, are held to.
    pub held: Held,
    /// What a deallocated block may read as.
    pub deallocated: Deallocated,
}

/// What Reads are held to (docs/STANDARD.md, "Other words for Reads").
#[derive(Clone, Copy, Debug, PartialEq, Eq)]
pub enum Held {
    /// A Write or pair within its limits is before all of a Read or after all of it: what the standard promises.
    Atomic,
    /// So is a Write Zeroes or a Write Uncorrectable, and it is so beside Compares.
    AtomicAll,
    /// And a Read or a Compare finds all its blocks of a unit at one moment.
    Whole,
    /// Each block by itself, which hides a Write of which a Read finds half.
    ByBlocks,
}

impl Held {
    /// Whether a Read finds all its blocks of a unit at one moment.
    pub(crate) fn is_whole(self) -> bool
        ensures { result ≡ rows.is_whole self }
    {
        match self {
            Held::Whole => true,
            Held::Atomic | Held::AtomicAll | Held::ByBlocks => false,
        }
    }

    /// Whether Write Zeroes and Write Uncorrectable are entries.
    pub(crate) fn takes_all(self) -> bool
        ensures { result ≡ commands.takes_all self }
    {
        match self {
            Held::AtomicAll | Held::Whole => true,
            Held::Atomic | Held::ByBlocks => false,
        }
    }

    /// Whether entries are before all blocks of a Read or after all.
    pub(crate) fn ties_reads(self) -> bool
        ensures { result ≡ commands.ties_reads self }
    {
        match self {
            Held::Atomic | Held::AtomicAll => true,
            Held::Whole | Held::ByBlocks => false,
        }
    }

    /// Whether they are so of a Compare.
    pub(crate) fn ties_compares(self) -> bool
        ensures { result ≡ commands.ties_compares self }
    {
        match self {
            Held::AtomicAll => true,
            Held::Atomic | Held::Whole | Held::ByBlocks => false,
        }
    }
}
