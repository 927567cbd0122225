ghost use Rattle.std.specs.Prelude.{◌≡◌, ◌↔◌, IsTrue};
ghost use Rattle.nvm_plan.specs.Profile as spec;
ghost use Rattle.nvm_plan.specs.Profile.{IsFusedPair};

use nvm_record::{Command, Fuse, Op};

/// Whether the opcode is of the profile: of the commands that are served.
pub(crate) fn is_in_profile(op: Op) -> bool
    ensures { result ≡ spec.is_in_profile op }
{
    match op {
        Op::Write
        | Op::Read
        | Op::WriteUncorrectable
        | Op::Compare
        | Op::WriteZeroes
        | Op::Dataset { .. } => true,
        Op::Other(_) => false,
    }
}

/// Whether two neighbours of one host are a fused pair: a first and a second, both of the profile.
pub(crate) fn is_fused_pair(first: &Command, second: &Command) -> bool
    ensures { IsTrue result ↔ IsFusedPair first.now second.now }
{
    matches!(first.fuse, Fuse::First)
        && matches!(second.fuse, Fuse::Second)
        && is_in_profile(first.op)
        && is_in_profile(second.op)
}
