//! `nvq certify`: an order of points that explains a trace, or a contradiction that nothing does.
ghost use Rattle.std.specs.Prelude.{◌≡◌, ◌⊎◌, IfOk, IfErr, Some, string_bytes};
ghost use Rattle.nvm_commands.specs.Asked.{profile_asked};
ghost use Rattle.nvm_commands.specs.Certified.{IsCertifiedFile, IsCertifyingFault, IsEvidenceFault, IsToldOf};
ghost use Rattle.nvm_commands.specs.Fault.{IsFaultOfTraceAt};
ghost use Rattle.nvm_commands.specs.Files.{IsReadFault};
ghost use Rattle.nvm_judge.specs.Contradicted.{IsContradictedBy};
ghost use Rattle.nvm_judge.specs.Explained.{IsExplainedBy};
ghost use Rattle.nvm_standard.specs.OrderView.{seen_order};
ghost use Rattle.nvm_standard.specs.Table.{first_wrong};
ghost use Rattle.nvm_standard.specs.declared.profile.Profile.{Profile};
ghost use Rattle.nvm_trace.specs.TraceView.{TraceView};

use crate::certifying_words::CertifyWords;
use crate::failure::{Failure, plain};
use crate::fault::Fault;
use crate::files::read_as_trace;
use crate::front::{Progress, STANDARD, Telling};
use crate::told::Told;
use crate::written_files::{check_place, write_bytes};
use nvm_evidence::{
    OrderNumbers, contradiction_brief, contradiction_object, contradiction_text, explained_object,
    explained_text, most_together, unknown_object, unknown_text, write_contradiction, write_order,
    wrong_object, wrong_text,
};
use nvm_judge::{Judgment, Search, Stop, judge};
use nvm_record::NoMemory;
use nvm_standard::{Contradiction, Order, Profile};
use nvm_trace::Trace;
use std::alloc::Global;
use std::mem::forget;
use std::rt::Files;
use std::slice::from_ref;

/// What was found out about a trace, held to a profile.
#[derive(Clone, Copy)]
pub enum Finding {
    /// An order explains it.
    Explained { profile: Profile },
    /// No order explains it.
    Contradicted { profile: Profile },
    /// No device may end the command of this number as it ended.
    Wrong { command: u32 },
    /// Neither an order nor a contradiction was found.
    Unknown,
}

/// That, how it is printed, and the exit status.
#[derive(Drop)]
pub struct CertifiedTrace {
    pub finding: Finding,
    /// The file of the order or the contradiction, where that was found.
    pub evidence: Option<Vec<u8>>,
    pub text: String,
    pub status: u8,
}

/// Certifies the trace at a path, and writes the evidence where it is to be kept, before anything is printed: no text tells of evidence that
/// couldn't be kept.
pub fn certify<R: AllocGlobal + Files + Input + Print + Eprint, S: Search>(
    rt: &R,
    search: &S,
    words: &CertifyWords,
    progress: &Progress<'_, R>,
) -> Result<Told, Failure>
    ensures fault { IfErr result (λ failure. IsCertifyingFault words.now failure.fault) }
{
    check_evidence(rt, words)?;
    let found = certified(rt, search, words, progress)?;
    kept(rt, words, &found, progress)?;
    Ok(Told::of(found.text, found.status))
}

/// Refuses a path for the evidence that is standard output's or the trace's, before anything is read.
fn check_evidence<R: Files + AllocGlobal>(rt: &R, words: &CertifyWords) -> Result<(), Failure>
    ensures { IfErr result (λ failure. IsEvidenceFault words.now.evidence failure.fault) }
{
    match &words.evidence {
        Some(path) if path.as_str() == STANDARD => Err(plain(Fault::EvidenceAmongLines)),
        Some(path) => check_place(rt, path.as_str(), from_ref(&words.trace), "it is the trace"),
        None => Ok(()),
    }
}

/// Writes the evidence where there is some and it is to be kept.
fn kept<R: AllocGlobal + Files + Print + Eprint>(
    rt: &R,
    words: &CertifyWords,
    told: &CertifiedTrace,
    progress: &Progress<'_, R>,
) -> Result<(), Failure>
    ensures { IfErr result (λ failure. IsEvidenceFault words.now.evidence failure.fault) }
{
    match (&words.evidence, &told.evidence) {
        (Some(path), Some(file)) => write_bytes(rt, path.as_str(), file, progress),
        _ => Ok(()),
    }
}

/// What is found out about the trace at a path.
fn certified<R: AllocGlobal + Files + Input + Eprint, S: Search>(
    rt: &R,
    search: &S,
    words: &CertifyWords,
    progress: &Progress<'_, R>,
) -> Result<CertifiedTrace, Failure>
    ensures certified { IfOk result (IsCertifiedFile words.now) }
    ensures fault { IfErr result (λ failure. IsReadFault (string_bytes words.now.trace) failure.fault
        ⊎ IsFaultOfTraceAt (string_bytes words.now.trace) failure.fault) }
{
    let trace = read_as_trace(rt, words.trace.as_str(), progress)?;
    let told = found(rt.alloc(), search, words, &trace)?;
    forget(trace);
    Ok(told)
}

/// What is found out about the trace.
fn found<S: Search>(
    alloc: Global,
    search: &S,
    words: &CertifyWords,
    trace: &Trace,
) -> Result<CertifiedTrace, NoMemory>
    ensures { IfOk result (IsToldOf (profile_asked words.now «trace».now) «trace».now) }
{
    let profile = words.profile(trace);
    match judge(alloc, search, trace, profile, words.effort)? {
        Judgment::Explained(order) => by_order(alloc, words.telling, trace, profile, &order),
        Judgment::Contradicted(contradiction) => {
            by_contradiction(alloc, words, trace, profile, &contradiction)
        }
        Judgment::Wrong { command } => by_reply(alloc, words.telling, trace, command),
        Judgment::Unknown(stop) => by_nothing(alloc, words.telling, profile, stop),
    }
}

/// That the order explains the trace.
fn by_order(
    alloc: Global,
    telling: Telling,
    trace: &Trace,
    profile: Profile,
    order: &Order<'_>,
) -> Result<CertifiedTrace, NoMemory>
    requires { IsExplainedBy «trace».now profile (seen_order order.now) }
    ensures { IfOk result (IsToldOf profile «trace».now) }
{
    let numbers = OrderNumbers {
        jobs: trace.jobs.len(),
        points: order.placed.len(),
        profile,
    };
    let together = most_together(alloc, trace)?;
    let text = match telling {
        Telling::Lines => explained_text(alloc, numbers, together)?,
        Telling::Object => explained_object(alloc, numbers, together)?,
    };
    let file = write_order(alloc, profile, order)?;
    Ok(CertifiedTrace {
        finding: Finding::Explained { profile },
        evidence: Some(file),
        text,
        status: 0,
    })
}

/// That by the contradiction no order explains the trace.
fn by_contradiction(
    alloc: Global,
    words: &CertifyWords,
    trace: &Trace,
    profile: Profile,
    contradiction: &Contradiction,
) -> Result<CertifiedTrace, NoMemory>
    requires { IsContradictedBy «trace».now profile contradiction.now }
    ensures { IfOk result (IsToldOf profile «trace».now) }
{
    let text = match words.telling {
        Telling::Lines if words.data => contradiction_text(alloc, trace, profile, contradiction)?,
        Telling::Lines => contradiction_brief(alloc, trace, profile, contradiction)?,
        Telling::Object => contradiction_object(alloc, trace, profile, contradiction)?,
    };
    let file = write_contradiction(alloc, profile, contradiction)?;
    Ok(CertifiedTrace {
        finding: Finding::Contradicted { profile },
        evidence: Some(file),
        text,
        status: 2,
    })
}

/// That the reply to the command of this number is wrong by itself.
fn by_reply(
    alloc: Global,
    telling: Telling,
    trace: &Trace,
    command: u32,
) -> Result<CertifiedTrace, NoMemory>
    requires { first_wrong «trace».now.jobs ≡ Some command }
    ensures { (asked : Profile) → IfOk result (IsToldOf asked «trace».now) }
{
    let text = match telling {
        Telling::Lines => wrong_text(alloc, trace, command)?,
        Telling::Object => wrong_object(alloc, command)?,
    };
    Ok(CertifiedTrace {
        finding: Finding::Wrong { command },
        evidence: None,
        text,
        status: 2,
    })
}

/// That neither an order nor a contradiction was found.
fn by_nothing(
    alloc: Global,
    telling: Telling,
    profile: Profile,
    stop: Stop,
) -> Result<CertifiedTrace, NoMemory>
    ensures { (asked : Profile) (t : TraceView) → IfOk result (IsToldOf asked t) }
{
    let text = match telling {
        Telling::Lines => unknown_text(alloc, profile, stop)?,
        Telling::Object => unknown_object(alloc, profile, stop)?,
    };
    Ok(CertifiedTrace {
        finding: Finding::Unknown,
        evidence: None,
        text,
        status: 3,
    })
}
