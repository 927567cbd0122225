//! Theorems about the definitions, each the contract of a function that does nothing.
ghost use Rattle.nvm_generate.specs.Stamp.{StampsTellWhose, TornStampsShow};

/// A stamp says whose it is: blocks with one stamp are one block of one command of one host.
pub fn stamps_tell_whose()
    ensures { StampsTellWhose }
{}

/// A block torn at one place shows: where a device kept the front of one stamp and the rest of another, no third stamp is there.
/// So in what a Read finds, unless it was torn in several places, a block with equal halves that aren't zeroes names its Write, and
/// one with unequal halves was written so by nobody.
pub fn torn_stamps_show()
    ensures { TornStampsShow }
{}
