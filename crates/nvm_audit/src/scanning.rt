ghost use Rattle.std.specs.Prelude.{◌≡◌, ℕ, List, ◌≤◌, IsTrue, MatchOption, length, []};
ghost use Rattle.std.specs.List.{AllByRecursion};
ghost use Rattle.nvm_record.specs.Lists.{IsAt};
ghost use Rattle.nvm_audit.specs.Inside.Audited.{view_of_shown, IsKnownUnit, IsJudged, IsFirstAmong, IsWalkedWhole};
ghost use Rattle.nvm_audit.specs.Inside.Scanned.{IsLeastOf, checks_of_part};
ghost use Rattle.nvm_audit.specs.RecordedPart.{RecordedPart};
ghost use Rattle.nvm_audit.specs.UnitChecks.{PassesInUnit, entry_checks, part_checks};

use crate::audit_fault::{AuditFault, Spot};
use crate::done_part::DonePart;
use crate::judging::Finding;
use crate::shown_unit::ShownUnit;
use nvm_record::laws::success_is_told_alike;

/// How many workers a run has at most.
const MOST_WORKERS: usize = 64;

/// What is wrong with a part of which this was found at its point, where `least` is the lowest point that its worker may
/// have now, if anything is.
fn part_fault(
    u: &ShownUnit<'_, '_>,
    part: &DonePart<'_>,
    finding: Finding,
    least: u32,
) -> Option<AuditFault>
    requires known { IsKnownUnit (view_of_shown u.now) }
    requires unit { part.now.part.unit ≡ u.now.unit }
    requires entries { AllByRecursion (PassesInUnit (view_of_shown u.now)) (entry_checks 0 u.now.history.now.items) }
    requires judged { part.now.part.point ≤ length u.now.history.now.items → IsJudged (view_of_shown u.now) part.now finding }
    ensures { (before : List RecordedPart) → IsLeastOf before part.now.worker least → MatchOption result
        (AllByRecursion (PassesInUnit (view_of_shown u.now)) (checks_of_part before part.now))
        (IsFirstAmong (view_of_shown u.now) (checks_of_part before part.now)) }
{
    success_is_told_alike();
    let done = part.done;
    let job = done.job;
    let spot = Spot {
        unit: u.unit,
        place: part.part.point,
    };
    if !part.has_its_point(u.history) {
        return Some(AuditFault::PointPast { job, spot });
    }
    if part.part.point < least {
        return Some(AuditFault::PointBack { job, spot });
    }
    match finding {
        Finding::Right => None,
        Finding::StatusWrong => Some(AuditFault::StatusWrong {
            job,
            spot: Some(spot),
        }),
        Finding::DataWrong => Some(AuditFault::DataWrong { job, spot }),
    }
}

/// What is wrong with the first part of the unit of which anything is, by worker and in the worker's order.
pub(crate) fn scan(u: &ShownUnit<'_, '_>, findings: &Vec<Finding>) -> Option<AuditFault>
    requires known { IsKnownUnit (view_of_shown u.now) }
    requires walked { IsWalkedWhole (view_of_shown u.now) findings.now.items }
    ensures { MatchOption result
        (AllByRecursion (PassesInUnit (view_of_shown u.now)) (part_checks [] u.now.parts.now.items))
        (IsFirstAmong (view_of_shown u.now) (part_checks [] u.now.parts.now.items)) }
{
    let mut least = [0u32; MOST_WORKERS];
    for k in 0..u.parts.len() {
        let part = &u.parts[k];
        let worker = part.worker as usize;
        match part_fault(u, part, findings[k], least[worker]) {
            Some(fault) => return Some(fault),
            None => {}
        }
        least[worker] = part.next_point();
    }
    None
}
