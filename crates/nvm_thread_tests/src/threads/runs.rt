//! Workers that do the jobs of a host's list, and audits of their records. LBAs 0 to 31 have blocks of 512 bytes, in 4 units of 8 LBAs each.
use crate::holding::{Failure, Holding, NO_MEMORY, comes_to};
use nvm_audit::{AuditFault, Record, Verdict, Watcher, audit_watched};
use nvm_engine::{Settings, Shown, Workers, audit_bytes, execute};
use nvm_file::write_record;
use nvm_list::assemble;
use nvm_record::{BlockSize, Payload};
use nvm_store::Limit;
use nvm_unit::{Gate, Open};
use std::alloc::Global;
use std::sync::Wait;
use std::sync::atomic::{AtomicU64, Ordering};
use std::test::Fail;
use std::thread::Threads;

/// What is shown of a run of the list by so many workers, which must end with this line. Where a growth was refused it may end with another.
fn shown<R: Threads + Wait + Sync, G: Gate + Sync>(
    rt: &R,
    alloc: Global,
    list: &[u8],
    workers: u16,
    gate: &G,
    line: &[u8],
) -> Result<Shown, Fail> {
    let settings = Settings {
        nsze: 32,
        block: 512,
        nabsn: 7,
        nabo: 0,
        nawun: 7,
        nacwu: 3,
        workers: Workers::new(workers).ok_or("there can't be so many workers")?,
        limit: Limit::new(100).ok_or("there is no such limit")?,
    };
    let Ok(file) = assemble(alloc, list, BlockSize::BYTES_512) else {
        return Err(Fail::new(NO_MEMORY));
    };
    let file = Payload::new(alloc, file)?;
    let Ok(shown) = execute(rt, alloc, &settings, &[file], gate) else {
        return Err(Fail::new(NO_MEMORY));
    };
    let mut text = Vec::new(alloc);
    shown.write_text(&mut text)?;
    if text.as_slice().ends_with(line) {
        Ok(shown)
    } else if text.as_slice().ends_with(b" refused 0\n") {
        Err(Fail::new("another line is shown"))
    } else {
        Err(Fail::new(NO_MEMORY))
    }
}

/// Two workers act at once: job 0 is held in unit 0 until the other worker has done job 3. The Read finds what was written, or zeroes if the other
/// worker reads before job 0 is done: the record is audited, so the data is that of its point.
#[test]
fn one_worker_does_the_rest_while_a_unit_is_held(rt: HostRuntime) -> Result<(), Fail> {
    let gate = Holding::until(3);
    let list = b"write 0 1 41\nwrite 8 1 42\nwrite 16 1 43\nwrite 24 1 44\nread 0 1\n";
    let line = b"lawful jobs 5 units 4 changes 4 refused 0\n";
    shown(&rt, rt.alloc(), list.as_slice(), 2, &gate, line.as_slice())?;
    // For want of memory for a thread, one worker does its work after another's.
    if gate.was_seen() {
        Ok(())
    } else {
        Err(Fail::new(NO_MEMORY))
    }
}

/// Notes what it is told of jobs 0 to 3: a decimal digit for each call, the last call's at the end.
#[derive(Drop)]
struct Noting {
    calls: AtomicU64,
}

impl Noting {
    fn note(&self, call: u64) {
        let calls = self.calls.load(Ordering::SeqCst);
        let noted = calls.wrapping_mul(10).wrapping_add(call);
        self.calls.store(noted, Ordering::SeqCst);
    }
}

impl Gate for Noting {
    /// Notes an odd digit: 1 is job 0's.
    fn before_put(&self, _unit: u16, job: u32) {
        self.note(u64::from(job) * 2 + 1);
    }

    /// Notes an even digit: 2 is job 0's.
    fn after_job(&self, job: u32) {
        self.note(u64::from(job) * 2 + 2);
    }
}

/// The gate is told that a job is done when it is, and not before.
#[test]
fn the_gate_is_told_of_a_job_once_it_is_done(rt: HostRuntime) -> Result<(), Fail> {
    let gate = Noting {
        calls: AtomicU64::new(0),
    };
    let list = b"write 0 1 41\nwrite 0 1 42\n";
    let line = b"lawful jobs 2 units 4 changes 2 refused 0\n";
    shown(&rt, rt.alloc(), list.as_slice(), 1, &gate, line.as_slice())?;
    assert_eq!(rt; gate.calls.load(Ordering::SeqCst), 1234);
    Ok(())
}

/// Keeps the thread that is first done with a unit until a second unit is audited.
#[derive(Drop)]
struct Meeting {
    audited: AtomicU64,
    /// 1 once the second unit was seen.
    seen: AtomicU64,
}

impl Watcher for Meeting {
    fn before_units(&self, _units: u16) {}

    fn after_unit(&self, _unit: u16) {
        if self.audited.fetch_add(1, Ordering::SeqCst) > 0 {
            return;
        }
        if comes_to(&self.audited, 2) {
            self.seen.store(1, Ordering::SeqCst);
        }
    }
}

/// An audit makes at least two threads, on one processor too, unless memory is refused for them. The file of the run is audited, too.
#[test]
fn two_units_are_audited_at_once(rt: HostRuntime) -> Result<(), Fail> {
    let alloc = rt.alloc();
    let line = b"lawful jobs 1 units 4 changes 1 refused 0\n";
    let run = shown(
        &rt,
        alloc,
        b"zeroes 0 1\n".as_slice(),
        1,
        &Open,
        line.as_slice(),
    )?;
    let watcher = Meeting {
        audited: AtomicU64::new(0),
        seen: AtomicU64::new(0),
    };
    let told = audit_watched(&rt, alloc, run.record(), &watcher);
    if told == Err(AuditFault::NoMemory) || watcher.seen.load(Ordering::SeqCst) == 0 {
        return Err(Fail::new(NO_MEMORY));
    }
    assert_eq!(rt;
        told,
        Ok(Verdict {
            jobs: 1,
            units: 4,
            changes: 1,
            refused: 0
        })
    );
    assert_eq!(rt; watcher.audited.load(Ordering::SeqCst), 4);
    assert_eq!(rt; status_of_file(&rt, alloc, run.record())?, 0);
    Ok(())
}

/// The status that an audit of the record's file ends in.
fn status_of_file<R: Threads + Sync>(
    rt: &R,
    alloc: Global,
    record: &Record,
) -> Result<u8, Failure> {
    let mut bytes = Vec::new(alloc);
    if write_record(&mut bytes, record).is_err() {
        return Err(NO_MEMORY);
    }
    let Ok(bytes) = Payload::new(alloc, bytes) else {
        return Err(NO_MEMORY);
    };
    match audit_bytes(rt, alloc, &bytes) {
        Ok(judged) => Ok(judged.status()),
        Err(_) => Err(NO_MEMORY),
    }
}
