ghost use Rattle.std.specs.Prelude.{◌≡◌, ◌⊎◌, ℕ, ◌≤◌, length, map, not, count_by, All, IfOk, IfErr, MatchOption, MatchResult};
ghost use Rattle.nvm_audit.specs.LawfulRecord.{IsLawfulRecord};
ghost use Rattle.nvm_audit.specs.RecordChecks.{IsFirstFault};
ghost use Rattle.nvm_audit.specs.Recordable.{most_jobs};
ghost use Rattle.nvm_audit.specs.declared.audit_fault.AuditFault.TheVariants.{NoMemory as NoMemoryOfAudit};
ghost use Rattle.nvm_trace.specs.declared.judging.Judging.{Judging as JudgingView};
ghost use Rattle.nvm_trace.specs.declared.witness_fault.WitnessFault.TheVariants.{NoMemory as NoMemoryFault};
ghost use Rattle.nvm_trace.specs.ExplainedBy.{HasItsReply, IsExplainedBy};
ghost use Rattle.nvm_trace.specs.FirstFault.{HasJobsOf, IsFirstWitnessFault};
ghost use Rattle.nvm_trace.specs.Inside.Table.{HasPlace};
ghost use Rattle.nvm_trace.specs.Numbers.{HasNumbers};
ghost use Rattle.nvm_trace.specs.Pieces.{piece, pieces};
ghost use Rattle.nvm_trace.specs.Saying as saying;
ghost use Rattle.nvm_trace.specs.Steps.{steps_of as steps_shown};
ghost use Rattle.nvm_trace.specs.Timely.{IsTimely, IsFirstLate};

use crate::explained::Explained;
use crate::judging::Judging;
use crate::matching::{first_unprepared, owners_of};
use crate::owner::Owner;
use crate::replies::first_differing;
use crate::saying::says_what_was_done;
use crate::step::Step;
use crate::stepping::steps_of;
use crate::table::empty_rows;
use crate::timing::first_late;
use crate::trace::Trace;
use crate::traced_job::TracedJob;
use crate::witness_fault::WitnessFault;
use nvm_audit::laws::one_check_is_the_first_fault;
use nvm_audit::{AuditFault, Record, Spot, Verdict, audit, audit_alone};
use nvm_geometry::Geometry;
use nvm_record::NoMemory;
use std::alloc::Global;
use std::thread::Threads;

/// The owner of each of the record's jobs, but for preparations, or what is first found wrong of the namespace and
/// the jobs.
fn matched<'a>(
    alloc: Global,
    judging: Judging,
    trace: &'a Trace,
    record: &Record,
) -> Result<Vec<Owner<'a>>, WitnessFault>
    ensures few { IfOk result (λ owners. length owners.items ≤ length «record».now.jobs) }
    ensures owners { IfOk result (λ owners. map (λ o. piece o.whole.now o.cut) owners.items ≡ pieces judging «trace».now) }
    ensures jobs { IfOk result (λ _. HasJobsOf judging «trace».now «record».now) }
    ensures fault { IfErr result
        (λ fault. IsFirstWitnessFault judging «trace».now «record».now fault ⊎ (fault ≡ NoMemoryFault)) }
{
    if record.geometry != trace.geometry {
        return Err(WitnessFault::NamespaceDiffers);
    }
    let owners = owners_of(
        alloc,
        judging,
        &trace.geometry,
        trace.reads,
        &trace.jobs,
        &record.jobs,
    )?;
    match first_unprepared(trace.start, owners.len(), &record.jobs) {
        Some(job) => Err(WitnessFault::NoPreparation { job }),
        None => Ok(owners),
    }
}

/// What is first found wrong of the replies, if anything is.
fn reply_fault(trace: &Trace, owners: &Vec<Owner<'_>>, record: &Record) -> Option<WitnessFault>
    ensures { (judging : JudgingView) → map (λ o. piece o.whole.now o.cut) owners.now.items ≡ pieces judging «trace».now
        → HasJobsOf judging «trace».now «record».now → IsLawfulRecord «record».now
        → MatchOption result ((number : ℕ) → HasItsReply judging «trace».now «record».now number)
        (IsFirstWitnessFault judging «trace».now «record».now) }
{
    match first_differing(&trace.geometry, owners, &record.done) {
        Some(job) => Some(WitnessFault::ReplyDiffers { job }),
        None => None,
    }
}

/// The place of the first of these steps that is late.
fn late_step(alloc: Global, record: &Record, steps: &Vec<Step>) -> Result<Option<usize>, NoMemory>
    requires { All (HasPlace «record».now.units) steps.now.items }
    ensures { IfOk result (λ found. MatchOption found (IsTimely steps.now.items) (IsFirstLate steps.now.items)) }
{
    let rows = empty_rows(alloc, &record.units)?;
    Ok(first_late(rows, steps))
}

/// How many replies don't say what was done.
fn excused(geometry: &Geometry, traced: &Vec<TracedJob>) -> u32
    requires { length traced.now.items ≤ most_jobs }
    ensures { result ≡ count_by (λ j. not (saying.says_what_was_done geometry.now j)) traced.now.items }
{
    let mut excused = 0;
    for job in traced {
        if !says_what_was_done(geometry, job) {
            excused += 1;
        }
    }
    excused
}

/// What is first found wrong of the times, or else the numbers.
fn time_fault(
    alloc: Global,
    trace: &Trace,
    owners: &Vec<Owner<'_>>,
    record: &Record,
) -> Result<Explained, WitnessFault>
    requires few { length owners.now.items ≤ length «record».now.jobs }
    requires lawful { IsLawfulRecord «record».now }
    ensures { (judging : JudgingView) → map (λ o. piece o.whole.now o.cut) owners.now.items ≡ pieces judging «trace».now
        → HasJobsOf judging «trace».now «record».now → ((number : ℕ) → HasItsReply judging «trace».now «record».now number)
        → MatchResult result
        (λ explained. IsExplainedBy judging «trace».now «record».now × HasNumbers judging «trace».now «record».now explained)
        (λ fault. IsFirstWitnessFault judging «trace».now «record».now fault ⊎ (fault ≡ NoMemoryFault)) }
{
    let steps = steps_of(alloc, owners, &record.done)?;
    match late_step(alloc, record, &steps)? {
        Some(place) => {
            let late = &steps[place];
            Err(WitnessFault::TimeBack {
                job: late.job,
                spot: Spot {
                    unit: late.unit,
                    place: late.point,
                },
            })
        }
        None => Ok(Explained {
            jobs: trace.jobs.len() as u32,
            units: record.units.len() as u16,
            steps: steps.len() as u64,
            excused: excused(&trace.geometry, &trace.jobs),
            preparations: (record.jobs.len() - owners.len()) as u32,
        }),
    }
}

/// What a witness answers of a record whose first jobs are the trace's pieces, once it was audited.
fn explained(
    alloc: Global,
    trace: &Trace,
    owners: &Vec<Owner<'_>>,
    record: &Record,
    audited: Result<Verdict, AuditFault>,
) -> Result<Explained, WitnessFault>
    requires few { length owners.now.items ≤ length «record».now.jobs }
    requires lawful { IfOk audited (λ _. IsLawfulRecord «record».now) }
    requires fault { IfErr audited (λ fault. IsFirstFault «record».now fault ⊎ (fault ≡ NoMemoryOfAudit)) }
    ensures { (judging : JudgingView) → map (λ o. piece o.whole.now o.cut) owners.now.items ≡ pieces judging «trace».now
        → HasJobsOf judging «trace».now «record».now → MatchResult result
        (λ explained. IsExplainedBy judging «trace».now «record».now × HasNumbers judging «trace».now «record».now explained)
        (λ fault. IsFirstWitnessFault judging «trace».now «record».now fault ⊎ (fault ≡ NoMemoryFault)) }
{
    match audited {
        Ok(_) => {}
        Err(AuditFault::NoMemory) => return Err(WitnessFault::NoMemory),
        Err(fault) => return Err(WitnessFault::Unlawful { fault }),
    }
    match reply_fault(trace, owners, record) {
        Some(fault) => Err(fault),
        None => time_fault(alloc, trace, owners, record),
    }
}

/// Whether the record explains the trace: the numbers of the two, or the first fault.
///
/// It finds the pieces of the trace's commands among the record's jobs, audits the record, and then looks at each done job and each
/// part once. All is linear in the record and the trace. After `NoMemory` nothing is known.
pub fn witness(
    rt: &(impl Threads + Sync),
    alloc: Global,
    judging: Judging,
    trace: &Trace,
    record: &Record,
) -> Result<Explained, WitnessFault>
    ensures explained { IfOk result (λ _. IsExplainedBy judging «trace».now «record».now) }
    ensures numbers { IfOk result (HasNumbers judging «trace».now «record».now) }
    ensures fault { IfErr result
        (λ fault. IsFirstWitnessFault judging «trace».now «record».now fault ⊎ (fault ≡ NoMemoryFault)) }
    ensures accepted { IsExplainedBy judging «trace».now «record».now → IfErr result (λ fault. fault ≡ NoMemoryFault) }
{
    one_check_is_the_first_fault();
    let owners = matched(alloc, judging, trace, record)?;
    let audited = audit(rt, alloc, record);
    explained(alloc, trace, &owners, record, audited)
}

/// What [`witness`] answers, found by this thread alone, without a wait: for where no thread may be started, as in a library that
/// C links.
pub fn witness_alone(
    alloc: Global,
    judging: Judging,
    trace: &Trace,
    record: &Record,
) -> Result<Explained, WitnessFault>
    ensures explained { IfOk result (λ _. IsExplainedBy judging «trace».now «record».now) }
    ensures numbers { IfOk result (HasNumbers judging «trace».now «record».now) }
    ensures fault { IfErr result
        (λ fault. IsFirstWitnessFault judging «trace».now «record».now fault ⊎ (fault ≡ NoMemoryFault)) }
    ensures accepted { IsExplainedBy judging «trace».now «record».now → IfErr result (λ fault. fault ≡ NoMemoryFault) }
{
    one_check_is_the_first_fault();
    let owners = matched(alloc, judging, trace, record)?;
    let audited = audit_alone(alloc, record);
    explained(alloc, trace, &owners, record, audited)
}
