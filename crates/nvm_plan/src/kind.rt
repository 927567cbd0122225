ghost use Rattle.std.specs.Prelude.{◌≡◌, Some};
ghost use Rattle.nvm_record.specs.Deeds as deeds;
ghost use Rattle.nvm_record.specs.Step.{Deed, Operation};
ghost use Rattle.nvm_geometry.specs.Namespace.{Namespace};
ghost use Rattle.nvm_plan.specs.Kinds as spec;
ghost use Rattle.nvm_plan.specs.Operation.{operation_of_body};
ghost use Rattle.nvm_plan.specs.Outcome as outcome;
ghost use Rattle.nvm_plan.specs.Reply as reply;

use crate::job::Body;
use crate::part::PartResult;
use nvm_record::{Op, Status, Statuses};

/// What the parts of a job do.
#[derive(Clone, Copy, Debug, PartialEq, Eq)]
pub enum Kind {
    /// They change blocks.
    Act,
    /// The one part compares, and then changes blocks.
    Pair,
    /// They change nothing.
    Look,
}

impl Kind {
    /// What the parts of a job of these commands do, where the job stands for an operation.
    pub fn of(body: &Body) -> Kind
        ensures { (ns : Namespace) (op : Operation) → operation_of_body ns body.now ≡ Some op → spec.kind_of op.deed ≡ result }
    {
        match body {
            Body::Single(command) => match command.op {
                Op::Read | Op::Compare => Kind::Look,
                _ => Kind::Act,
            },
            Body::Pair(_, _) => Kind::Pair,
        }
    }

    /// Whether a part of the kind can end so.
    pub fn can_have(self, ended: PartResult) -> bool
        ensures { (deed : Deed) → spec.kind_of deed ≡ self → result ≡ reply.can_have deed ended }
    {
        match ended {
            PartResult::Done | PartResult::Full => self != Kind::Look,
            PartResult::Failed => self == Kind::Pair,
            PartResult::Looked => self == Kind::Look,
            PartResult::NoMemory => true,
        }
    }

    /// The statuses of a job whose parts all succeeded.
    pub fn success(self) -> Statuses
        ensures { (deed : Deed) → spec.kind_of deed ≡ self → result ≡ deeds.success_of deed }
    {
        let success = Status::SUCCESSFUL_COMPLETION;
        self.statuses(Statuses::One(success), Statuses::Two(success, success))
    }

    /// The statuses of a job that ended since memory was refused to a part, or its unit's history was full. The comparison of a pair
    /// came before that, and held.
    pub fn stop(self) -> Statuses
        ensures { (deed : Deed) → spec.kind_of deed ≡ self → result ≡ reply.stop_of deed }
    {
        let error = Status::INTERNAL_ERROR;
        self.statuses(
            Statuses::One(error),
            Statuses::Two(Status::SUCCESSFUL_COMPLETION, error),
        )
    }

    /// The statuses of a job for which memory was refused before its first part.
    pub fn unstarted(self) -> Statuses
        ensures { (deed : Deed) → spec.kind_of deed ≡ self → result ≡ outcome.unstarted_of deed }
    {
        let error = Status::INTERNAL_ERROR;
        self.statuses(
            Statuses::One(error),
            Statuses::Two(error, Status::ABORTED_DUE_TO_FAILED_FUSED_COMMAND),
        )
    }

    /// These of a command by itself, or those of a pair.
    fn statuses(self, alone: Statuses, paired: Statuses) -> Statuses
        ensures { (deed : Deed) → spec.kind_of deed ≡ self → result ≡ deeds.for_deed deed alone paired }
    {
        match self {
            Kind::Act | Kind::Look => alone,
            Kind::Pair => paired,
        }
    }
}

/// Whether the job of these commands is a Read, where it stands for an operation.
pub fn is_read(body: &Body) -> bool
    ensures { (ns : Namespace) (op : Operation) → operation_of_body ns body.now ≡ Some op → result ≡ deeds.is_read op.deed }
{
    match body {
        Body::Single(command) => command.op == Op::Read,
        Body::Pair(_, _) => false,
    }
}
