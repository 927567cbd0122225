//! Theorems about the definitions, each the contract of a function that does nothing.
ghost use Rattle.nvm_text.specs.Runs.{RunsAreLongest};

/// `runs bytes` are the longest runs of equal bytes, and the only ones: written out they are the
/// bytes, none is empty, and no neighbours are of the same byte.
pub fn runs_are_longest()
    ensures { RunsAreLongest }
{}
