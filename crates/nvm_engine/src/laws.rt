//! What holds by the definitions alone. Each law is a call that does nothing and whose contract is the law.
ghost use Rattle.std.specs.Prelude.{ℕ, ◌≡◌, ◌≢◌, ◌⊎◌, ◌<◌, List, length, take};
ghost use Rattle.nvm_record.specs.Lists.{IsAt};
ghost use Rattle.nvm_record.specs.declared.status.Status.{Status};
ghost use Rattle.nvm_store.specs.Call.{Call};
ghost use Rattle.nvm_store.specs.HistoryEntry.{HistoryEntry};
ghost use Rattle.nvm_store.specs.PlacedRun.{HasItsAnswer, answers};
ghost use Rattle.nvm_store.specs.Point.{point};
ghost use Rattle.nvm_plan.specs.declared.part.PartResult.TheVariants.{Failed, Looked};
ghost use Rattle.nvm_audit.specs.LawfulRecord.{IsLawfulRecord};
ghost use Rattle.nvm_audit.specs.RecordedCalls.{IsCallOfPart};
ghost use Rattle.nvm_audit.specs.RecordedPart.{RecordedPart, parts_in_unit};
ghost use Rattle.nvm_audit.specs.RecordView.{RecordView};
ghost use Rattle.nvm_audit.specs.RecordedJob.{RecordedJob};
ghost use Rattle.nvm_space.specs.Ports.{PortState};
ghost use Rattle.nvm_space.specs.Shuffle.{AreLawfulHistories, IsShuffle, StandsAtItsPoint, entries_of_unit};
ghost use Rattle.nvm_space.specs.Spaces.{SpaceName};
ghost use Rattle.nvm_engine.specs.Claims.{ClaimState, IsClaims, opening_claims, Draws, IsReached, HaveEnded, AreDoneOnce};
ghost use Rattle.nvm_engine.specs.Gathered.{IsGathered};
ghost use Rattle.nvm_engine.specs.RecordLines.{IsTextOf};
ghost use Rattle.nvm_engine.specs.StatusNames.{status_name, unknown_status, HasName, HaveNames};

use crate::shown_parts::{done_reads_are_whole, parts_show_what_was_done};
use nvm_audit::laws::done_jobs_are_outcomes;
use nvm_geometry::laws::{few_units_are_regions, parts_keep_their_kind};
use nvm_plan::laws::{parts_of_jobs, shapes_by_plan};
use nvm_record::laws::success_is_told_alike;
use nvm_space::laws::calls_keep_their_answers;
use nvm_store::laws::act_succeeds_unless_failed_pair;
use nvm_unit::laws::{
    beginnings_of_beginnings_begin, changes_mark_their_points, changes_rest_on_their_points,
    entries_are_their_passes_own, looks_mark_their_points, looks_rest_on_their_points,
};

/// Nobody's numbers are claims, each draw leads from claims to claims, and so every list of draws does.
pub fn draws_keep_claims()
    ensures opening { (jobs workers : ℕ) → IsClaims jobs (opening_claims workers) }
    ensures draw { (jobs : ℕ) (s t : ClaimState) → IsClaims jobs s → Draws jobs s t → IsClaims jobs t }
    ensures reached { (jobs workers : ℕ) (s : ClaimState) → IsReached jobs workers s → IsClaims jobs s }
{}

/// Where each of one or more workers did those of its numbers that are jobs', and drew one that is none, each job is
/// done once, and nothing else is done.
pub fn each_job_is_done_once()
    ensures { (jobs : ℕ) (s : ClaimState) (dones : List (List ℕ))
        → IsClaims jobs s → 0 < length s.lists → HaveEnded jobs dones s.lists → AreDoneOnce jobs dones }
{}

/// A record that is gathered from what the workers did by their ports, and from the histories with which the units of their space
/// end, is lawful. The space is one that there can be, with a port for each worker, and the jobs fit its namespace.
pub fn gathered_records_are_lawful()
    ensures { (s : SpaceName) (ports : List PortState) (r : RecordView) → IsGathered s ports r → IsLawfulRecord r }
{
    changes_rest_on_their_points();
    looks_rest_on_their_points();
    changes_mark_their_points();
    looks_mark_their_points();
    beginnings_of_beginnings_begin();
    entries_are_their_passes_own();
    success_is_told_alike();
    act_succeeds_unless_failed_pair();
    parts_show_what_was_done();
    done_reads_are_whole();
    few_units_are_regions();
}

/// The histories of a lawful record are those of which the laws of `nvm_space` speak. So whoever reads a record has the order of all
/// units' entries without a space: each shuffle of them is a run of the step on the whole namespace.
pub fn lawful_records_have_lawful_histories()
    ensures { (r : RecordView) → IsLawfulRecord r → AreLawfulHistories r.namespace r.units }
{}

/// Each part of a lawful record that looked, or whose pair failed, is a call that is at its point after any entries of which
/// those of its unit are its history up to that point. So in each order of all units' entries that keeps the order of each unit it has
/// the answer that is recorded of it, at each place that has exactly the unit's entries of its point before it.
pub fn recorded_calls_stand_at_their_points()
    ensures stands { (r : RecordView) (unit k : ℕ) (history before : List HistoryEntry) (p : RecordedPart)
        → IsLawfulRecord r → IsAt r.units unit history → IsAt (parts_in_unit unit r.done) k p
        → (p.part.result ≡ Looked) ⊎ (p.part.result ≡ Failed)
        → entries_of_unit r.namespace unit before ≡ take p.part.point history
        → (call : Call) × IsCallOfPart r.namespace r.jobs p call × StandsAtItsPoint r.namespace r.units before call }
    ensures answer { (r : RecordView) (unit k n : ℕ) (history all : List HistoryEntry) (p : RecordedPart)
        → IsLawfulRecord r → IsShuffle r.namespace r.units all → IsAt r.units unit history
        → IsAt (parts_in_unit unit r.done) k p → (p.part.result ≡ Looked) ⊎ (p.part.result ≡ Failed)
        → entries_of_unit r.namespace unit (take n all) ≡ take p.part.point history
        → (call : Call) × IsCallOfPart r.namespace r.jobs p call
        × HasItsAnswer (answers call) (point r.namespace.block_size all n) }
{
    parts_keep_their_kind();
    parts_of_jobs();
    shapes_by_plan();
    calls_keep_their_answers();
}

/// A lawful record has one text, and no other: each of its jobs was done, and done once.
pub fn lawful_records_have_one_text()
    ensures some { (r : RecordView) → IsLawfulRecord r → (text : List ℕ) × IsTextOf r text }
    ensures alone { (r : RecordView) (text other : List ℕ) → IsLawfulRecord r → IsTextOf r text → IsTextOf r other
        → text ≡ other }
{}

/// No two statuses of the table have one name, and none of them is called unknown.
pub fn statuses_have_their_own_names()
    ensures apart { (s t : Status) → HasName s → HasName t → status_name s ≡ status_name t → s ≡ t }
    ensures known { (s : Status) → HasName s → status_name s ≢ unknown_status }
{}

/// Each status that a lawful record has of a done job is in the table, and so has a name.
pub fn recorded_statuses_have_names()
    ensures { (r : RecordView) (worker k : ℕ) (work : List RecordedJob) (d : RecordedJob) → IsLawfulRecord r
        → IsAt r.done worker work → IsAt work k d → HaveNames d.statuses }
{
    done_jobs_are_outcomes();
}
