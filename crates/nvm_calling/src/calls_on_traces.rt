//! Calls on what hosts saw, and on the record of the same jobs.
use crate::{audit, contradiction, evidence, file, judge, run, trace};
use anyhow::{Result, bail};
use nvm_audit::Record;
use nvm_file::{read_record, upgrade};
use nvm_judge::Judgment;
use nvm_plan::Job;
use nvm_record::Payload;
use nvm_search::Searches;
use nvm_standard::{Deallocated, Held, Profile, points_of};
use nvm_store::Limit;
use nvm_trace::{Judging, Trace, witness_alone};
use nvm_trace_text::trace_of_text;
use std::sync::Wait;
use std::thread::Threads;

const STRICT: Judging = Judging::Strict;
/// What the standard promises.
const PROFILE: Profile = Profile {
    held: Held::Atomic,
    deallocated: Deallocated::Either,
};

/// The trace of the text, noted job by job, and the jobs.
pub fn noted(rt: &(impl AllocGlobal + Print), text: &str) -> Result<(Trace, Vec<Job>)> {
    let alloc = rt.alloc();
    let told = trace_of_text(alloc, text.as_bytes())?;
    let mut seen = Trace::new(
        alloc,
        told.geometry,
        told.first,
        told.start,
        told.reads,
        told.deallocated,
    );
    let mut jobs = Vec::new(alloc);
    for it in told.jobs {
        jobs.push(it.job.clone()?)?;
        println!(rt; "note: {:?}", trace::note(&mut seen, it))?;
    }
    Ok((seen, jobs))
}

/// Of the record of one worker who does the jobs in their order, which explains the trace.
pub fn recorded(
    rt: &(impl AllocGlobal + Print + Threads + Wait + Sync),
    limit: Limit,
    seen: &Trace,
    jobs: &[Job],
) -> Result<()> {
    let alloc = rt.alloc();
    let crowd = run::record_of(rt, alloc, seen.geometry, jobs, 65, limit);
    println!(rt; "record_of: {:?}", crowd.err())?;
    let Ok(Some(done)) = run::record_of(rt, alloc, seen.geometry, jobs, 1, limit) else {
        bail!("there was no memory");
    };
    println!(rt; "record_of: {} jobs", done.jobs.len())?;
    kept(rt, seen, &done)?;
    let said = judge::is_explained(alloc, &Searches, seen, PROFILE, 100);
    println!(rt; "is_explained: {said:?}")?;
    Ok(())
}

/// Of this record, beside the trace that it explains.
fn kept(
    rt: &(impl AllocGlobal + Print + Threads + Sync),
    seen: &Trace,
    done: &Record,
) -> Result<()> {
    let alloc = rt.alloc();
    println!(rt; "file_of: {} bytes", file::file_of(alloc, done)?.len())?;
    println!(rt; "is_lawful: {:?}", audit::is_lawful(rt, alloc, done))?;
    println!(rt;
        "is_certified: {:?}",
        trace::is_certified(rt, alloc, STRICT, seen, done)
    )?;
    println!(rt;
        "witness_alone: {:?}",
        witness_alone(alloc, STRICT, seen, done)
    )?;
    Ok(())
}

/// The file of a record of the first version without a job: by one worker, on 32 blocks of 512 bytes in four units, with 100 changes in each at
/// most.
const OLD: &[u8] =
    b"NVR1\x20\0\0\0\0\0\0\0\0\x02\0\0\x07\0\0\0\x07\0\x03\0\x63\0\x01\0\0\0\0\0\0\0\0\0\0\0\0\0\0\0\0\0\0\0\0\0\0\0\0\0";

/// No caller's: a record of the first version becomes one of the second.
pub fn upgraded(rt: &(impl AllocGlobal + Print)) -> Result<()> {
    let alloc = rt.alloc();
    let mut record = read_record(alloc, &Payload::copy_of(alloc, OLD)?)?;
    let told = upgrade(&mut record);
    println!(rt; "upgrade: {told:?}, version {:?}", record.version)?;
    Ok(())
}

/// Of the contradiction of what a device answered whose Read found 43h in place of 41h.
pub fn judged(rt: &(impl AllocGlobal + Print), text: &str) -> Result<()> {
    let alloc = rt.alloc();
    let text = text.replacen(alloc, "2048*41\n", "2048*43\n", 1)?;
    let seen = trace_of_text(alloc, text.as_bytes())?;
    let judgment = nvm_judge::judge(alloc, &Searches, &seen, PROFILE, 100)?;
    let Judgment::Contradicted(found) = &judgment else {
        bail!("there is no contradiction");
    };
    let points = points_of(alloc, &seen, PROFILE)?;
    let is_contradicted = contradiction::is_contradicted(alloc, &points, found);
    println!(rt; "is_contradicted: {is_contradicted:?}")?;
    sent(rt, &seen, &judgment)
}

/// Of what was found of the trace, as files.
fn sent(rt: &(impl AllocGlobal + Print), seen: &Trace, judgment: &Judgment<'_>) -> Result<()> {
    let alloc = rt.alloc();
    let Some(kept) = evidence::evidence_file_of(alloc, PROFILE, judgment)? else {
        bail!("there is no evidence");
    };
    println!(rt; "evidence_file_of: {} bytes", kept.len())?;
    let seen = file::trace_file_of(alloc, seen)?;
    println!(rt; "trace_file_of: {} bytes", seen.len())?;
    println!(rt;
        "refute_files: {:?}",
        evidence::refute_files(alloc, &seen, &kept)
    )?;
    Ok(())
}
