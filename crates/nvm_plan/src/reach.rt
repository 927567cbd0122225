ghost use Rattle.std.specs.Prelude.{◌≡◌, [], Some, if◌then◌else◌};
ghost use Rattle.nvm_record.specs.PayloadRef.{lent_bytes};
ghost use Rattle.nvm_record.specs.Step.{Operation};
ghost use Rattle.nvm_geometry.specs.Namespace.{Namespace};
ghost use Rattle.nvm_plan.specs.Inside.Reach.{IsReachOf};
ghost use Rattle.nvm_plan.specs.Operation.{operation_of_body};

use crate::job::Body;
use nvm_record::{Command, Op, PayloadRef};

/// The LBAs with which a job's operation has to do.
#[derive(Clone, Copy, Debug)]
pub enum Reach<'a> {
    /// Those of a range.
    Range { first: u64, blocks: u32 },
    /// Those of the ranges that this data names: what is deallocated.
    Ranges(PayloadRef<'a>),
}

/// With which LBAs a job's operation has to do, where it stands for one.
pub fn reach_of<'a>(body: &'a Body) -> Reach<'a>
    ensures { (ns : Namespace) (op : Operation) → operation_of_body ns body.now ≡ Some op → IsReachOf ns result op }
{
    match body {
        Body::Single(command) => match command.op {
            Op::Dataset { deallocate } => Reach::Ranges(deallocated(command, deallocate)),
            _ => Reach::Range {
                first: command.slba,
                blocks: u32::from(command.nlb) + 1,
            },
        },
        Body::Pair(compare, _) => Reach::Range {
            first: compare.slba,
            blocks: u32::from(compare.nlb) + 1,
        },
    }
}

/// The data of a Dataset Management that names the ranges to deallocate: none of it without the bit.
pub fn deallocated<'a>(command: &'a Command, deallocate: bool) -> PayloadRef<'a>
    ensures { lent_bytes result ≡ (if deallocate then command.now.payload else []) }
{
    if deallocate {
        command.payload.lend()
    } else {
        command.payload.lend_part(0, 0)
    }
}
