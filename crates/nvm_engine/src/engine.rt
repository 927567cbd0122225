ghost use Rattle.std.specs.Prelude.{◌≡◌, ◌≤◌, ◌⊎◌, ℕ, All, IfOk, IfErr, OnOk, length, map};
ghost use Rattle.nvm_record.specs.Entry.{IsWhole};
ghost use Rattle.nvm_record.specs.HostFile.{IsHostFile};
ghost use Rattle.nvm_geometry.specs.Namespace.{Namespace};
ghost use Rattle.nvm_plan.specs.Fits.{FitsNamespace};
ghost use Rattle.nvm_plan.specs.Jobs.{IsJobList};
ghost use Rattle.nvm_audit.specs.Recordable.{most_jobs, HoldsBody};
ghost use Rattle.nvm_audit.specs.declared.version.Version.TheVariants.{Two};
ghost use Rattle.nvm_engine.specs.RunRecord.{IsRecordOfRun};
ghost use Rattle.nvm_engine.specs.declared.fault.Fault.TheVariants.{NoMemory};
ghost use Rattle.nvm_engine.specs.Fault.{IsFirstRunFault, IsGeometryFault, IsFileFault, IsFilesFault};
ghost use Rattle.nvm_engine.specs.Settings.{IsNamespace, advertised};
ghost use Rattle.nvm_engine.specs.Shown.{AreHostFiles, IsShown};

use crate::fault::Fault;
use crate::run_fault::RunFault;
use crate::running::run;
use crate::settings::Settings;
use crate::shown::Shown;
use nvm_audit::{Record, Unwatched, Watcher};
use nvm_geometry::Geometry;
use nvm_plan::job_laws::{jobs_are_of_their_hosts, jobs_fit, no_more_jobs_than_commands};
use nvm_plan::{Job, MOST_HOSTS, jobs};
use nvm_record::{BlockSize, Command, NoMemory, Payload, read_host};
use nvm_unit::Gate;
use std::alloc::{AllocError, Global};
use std::sync::Wait;
use std::thread::Threads;

/// Does the commands of the hosts' files, of which the first is host 1's, on a namespace of zero bytes by as many workers as
/// the settings say, and says what to show: the run's record, which is lawful, and its text with the verdict of an audit.
///
/// The gate is notified of the course of the jobs. A job that finds no memory ends with 0/06 and has its lines as any other; a pair
/// ends with 0/00 and 0/06.
///
/// The first fault is returned: more than 64 files, then one of the settings, then one of a file, or
/// `NoMemory` where a growth outside a command was refused. All workers have ended then, and nothing is shown.
pub fn execute<R: Threads + Wait + Sync, G: Gate + Sync>(
    rt: &R,
    alloc: Global,
    settings: &Settings,
    files: &[Payload],
    gate: &G,
) -> Result<Shown, Fault>
    // What is shown is the record of a run of the files' commands.
    ensures shown { IfOk result (IsShown settings.now files.now) }
    ensures fault { IfErr result (IsFirstRunFault settings.now files.now) }
{
    execute_watched(rt, alloc, settings, files, gate, &Unwatched)
}

/// What [`execute`] does. The watcher is notified how far the audit is.
pub fn execute_watched<R: Threads + Wait + Sync, G: Gate + Sync, W: Watcher + Sync>(
    rt: &R,
    alloc: Global,
    settings: &Settings,
    files: &[Payload],
    gate: &G,
    watcher: &W,
) -> Result<Shown, Fault>
    // What is shown is the record of a run of the files' commands.
    ensures shown { IfOk result (IsShown settings.now files.now) }
    ensures fault { IfErr result (IsFirstRunFault settings.now files.now) }
{
    if files.len() > usize::from(MOST_HOSTS) {
        return Err(Fault::TooManyHosts);
    }
    let geometry = geometry_of(settings)?;
    let hosts = hosts_of(alloc, geometry.block_size(), files)?;
    let jobs = jobs_of(alloc, hosts)?;
    let record = record_of(rt, alloc, geometry, settings, jobs, gate)?;
    let shown = Shown::of_record(rt, alloc, record, watcher)?;
    Ok(shown)
}

/// The geometry, where the settings describe a namespace.
fn geometry_of(settings: &Settings) -> Result<Geometry, Fault>
    ensures numbers { IfOk result (λ geometry. geometry ≡ advertised settings.now) }
    ensures namespace { OnOk result (IsNamespace settings.now) }
    ensures fault { IfErr result (IsGeometryFault settings.now) }
{
    let Settings {
        nsze,
        block,
        nabsn,
        nabo,
        nawun,
        nacwu,
        ..
    } = *settings;
    match Geometry::new(nsze, block, nabsn, nabo, nawun, nacwu) {
        Ok(geometry) => Ok(geometry),
        Err(fault) => Err(Fault::Geometry(fault)),
    }
}

/// The commands of each host's file, in the order of the files.
fn hosts_of(alloc: Global, size: BlockSize, files: &[Payload]) -> Result<Vec<Vec<Command>>, Fault>
    requires few { length files.now ≤ 64 }
    ensures commands { IfOk result (λ hosts. AreHostFiles size files.now
        (map (λ host. host.items) hosts.items)) }
    ensures whole { IfOk result (λ hosts. All (λ host. All (IsWhole size) host.items) hosts.items) }
    ensures count { IfOk result (λ hosts. length hosts.items ≡ length files.now) }
    ensures fault { IfErr result (λ fault. IsFilesFault size 1 files.now fault
        ⊎ (fault ≡ NoMemory)) }
{
    let mut hosts = Vec::with_capacity(alloc, files.len())?;
    for (place, file) in files.iter().enumerate() {
        hosts.push(commands_of(alloc, size, place as u16 + 1, file)?)?;
    }
    Ok(hosts)
}

/// The commands of a host's file.
fn commands_of(
    alloc: Global,
    size: BlockSize,
    host: u16,
    file: &Payload,
) -> Result<Vec<Command>, Fault>
    ensures commands { IfOk result (λ commands. IsHostFile size file.now commands.items) }
    ensures whole { IfOk result (λ commands. All (IsWhole size) commands.items) }
    ensures fault { IfErr result (λ fault. IsFileFault size host file.now fault ⊎ (fault ≡ NoMemory)) }
{
    match read_host(alloc, file, size) {
        Ok(commands) => Ok(commands),
        Err(fault) => Err(Fault::of_host(host, fault)),
    }
}

/// The jobs of the hosts' commands. At most 64 hosts of at most 65,536 commands have no more of them than a record holds.
fn jobs_of(alloc: Global, hosts: Vec<Vec<Command>>) -> Result<Vec<Job>, NoMemory>
    requires hosts { length hosts.items ≤ 64 }
    requires commands { All (λ host. length host.items ≤ 65536) hosts.items }
    ensures order { IfOk result (λ jobs. IsJobList (map (λ host. host.items) hosts.items) jobs.items) }
    ensures fit { IfOk result (λ jobs. (ns : Namespace) → All (λ host. All (IsWhole ns.block_size) host.items) hosts.items
        → All (FitsNamespace ns) jobs.items) }
    ensures known { IfOk result (λ jobs. (size : ℕ) → All (λ host. All (IsWhole size) host.items) hosts.items
        → All (λ job. HoldsBody Two job.body) jobs.items) }
    ensures few { IfOk result (λ jobs. length jobs.items ≤ most_jobs) }
{
    jobs_fit();
    jobs_are_of_their_hosts();
    no_more_jobs_than_commands();
    let jobs = jobs(alloc, hosts)?;
    Ok(jobs)
}

/// The record of a run of the jobs.
fn record_of<R: Threads + Wait + Sync, G: Gate + Sync>(
    rt: &R,
    alloc: Global,
    geometry: Geometry,
    settings: &Settings,
    jobs: Vec<Job>,
    gate: &G,
) -> Result<Record, NoMemory>
    requires few { length jobs.items ≤ most_jobs }
    requires fit { All (FitsNamespace geometry) jobs.items }
    requires known { All (λ job. HoldsBody Two job.body) jobs.items }
    ensures { IfOk result (IsRecordOfRun geometry settings.now.limit settings.now.workers jobs.items) }
{
    let workers = settings.workers.count();
    match run(rt, alloc, geometry, jobs, workers, settings.limit, gate) {
        Ok(record) => Ok(record),
        Err(failed) => match failed.fault {
            RunFault::NoMemory => Err(AllocError),
            RunFault::Workers => unreachable!("there are 1 to 64 workers"),
        },
    }
}
