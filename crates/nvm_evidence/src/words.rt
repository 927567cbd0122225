//! What a profile's choices are called, on the command line and in what is printed.
ghost use Rattle.std.specs.Prelude.{◌≡◌};
ghost use Rattle.nvm_evidence.specs.OrderedLine as spec;

use nvm_standard::{Deallocated, Held};

/// What Reads are held to.
pub fn held_word(held: Held) -> &'static str
    ensures { result.now ≡ spec.held_word held }
{
    match held {
        Held::Atomic => "atomic",
        Held::AtomicAll => "atomic-all",
        Held::Whole => "whole",
        Held::ByBlocks => "by-blocks",
    }
}

/// What a deallocated block may read as.
pub fn deallocated_word(deallocated: Deallocated) -> &'static str
    ensures { result.now ≡ spec.deallocated_word deallocated }
{
    match deallocated {
        Deallocated::Zeroes => "zeroes",
        Deallocated::Ones => "ones",
        Deallocated::Either => "either",
    }
}
