//! `nvq run`: the commands of lists are done, and printed beside the lists.
ghost use Rattle.std.specs.Prelude.{◌≡◌, ℕ, List, IfOk, IfErr};
ghost use Rattle.nvm_engine.specs.Fault.{IsFirstRunFault};
ghost use Rattle.nvm_engine.specs.Shown.{IsShown};
ghost use Rattle.nvm_engine.specs.declared.fault.Fault.{Fault as FaultOfRun};
ghost use Rattle.nvm_commands.specs.Expecting.{IsStatusOfRun};
ghost use Rattle.nvm_commands.specs.Ran.{AreFilesOf, IsToldFault, fault_of_run};
ghost use Rattle.nvm_commands.specs.ToldRun.{IsToldRun};
ghost use Rattle.nvm_commands.specs.RunFaults.{IsSettingsOf};

use crate::checked::{Checked, checked_of, status_of};
use crate::failure::{Failure, of_run};
use crate::fault::Fault;
use crate::front::{FileFault, Output, Progress, STANDARD, Telling};
use crate::host_files::files_of;
use crate::read_list::{read_lists, texts_of};
use crate::run_paths::{check_record, names_fit};
use crate::running_words::RunWords;
use crate::told_run::ToldRun;
use crate::written_files::{keep, made};
use nvm_engine::{Fault as RunFault, Settings, Shown, Workers, execute_watched};
use nvm_record::Payload;
use std::alloc::AllocError;
use std::io::Write;
use std::mem::forget;
use std::rt::Files;
use std::sync::Wait;
use std::thread::{Threads, available_parallelism};

/// What is said where the lists have no command.
const IDLE: &str = "nvq: the lists have no command";

/// What is said where they have commands, and no expectation that could be checked.
const UNCHECKED: &str = "nvq: the lists have no expectation";

/// Does the commands of the lists, keeps the record where that is asked for, and writes the lines to standard output, or the objects
/// where these are asked for. After a fault before the first line nothing is written. The room of standard output is taken first, so
/// that no memory is wanted for the lines once the record is written.
///
/// The exit status is 0, or 2 if the expectations of the lists are checked and one isn't met.
pub fn run_lists<R: AllocGlobal + Files + Input + Print + Eprint + Threads + Wait + Sync>(
    rt: &R,
    words: &RunWords,
    progress: &Progress<'_, R>,
) -> Result<u8, Failure>
    ensures { IfOk result (IsStatusOfRun words.now.check) }
{
    names_fit(words)?;
    check_record(rt, words)?;
    let output = standard(rt)?;
    let lists = read_lists(rt, words.lists.as_slice(), progress)?;
    let mut texts = texts_of(rt.alloc(), lists.as_slice())?;
    let files = files_of(rt.alloc(), words.namespace.size, lists.as_slice())?;
    let settings = settings_of(rt, words);
    let told = told_of(rt, words.telling, &settings, files.as_slice(), progress)?;
    let checked = checked_of(rt.alloc(), words.check, &told.shown, lists.as_slice())?;
    if let Some(path) = &words.record {
        keep(rt, path.as_str(), told.shown.record(), progress)?;
    }
    progress.clear();
    let written = print(output, &told, &mut texts, &checked);
    made(rt.alloc(), STANDARD, written)?;
    tell_if_idle(rt, &told.shown, &checked);
    forget(told);
    Ok(status_of(&checked))
}

/// Says so on standard error where there was no job, and so no command in any list, or else no expectation to check. It is no fault.
fn tell_if_idle<R: Eprint>(rt: &R, shown: &Shown, checked: &Option<Checked>) {
    if shown.record().jobs.is_empty() {
        let _ = rt.eprintln(IDLE);
        return;
    }
    match checked {
        Some(checked) if checked.expectations == 0 => {
            let _ = rt.eprintln(UNCHECKED);
        }
        _ => {}
    }
}

/// Standard output, with its room.
fn standard<R: AllocGlobal + Files + Print + Eprint>(rt: &R) -> Result<Output<'_, R>, AllocError> {
    match Output::standard(rt) {
        Ok(output) => Ok(output),
        Err(_) => Err(AllocError),
    }
}

/// What the engine runs with. There are as many workers as processors where no number is given, and 4 where it isn't known how
/// many processors there are.
fn settings_of<R: Threads>(rt: &R, words: &RunWords) -> Settings
    ensures { IsSettingsOf words.now result }
{
    let it = &words.namespace;
    let workers = match words.workers {
        Some(workers) => workers,
        None => processors(rt),
    };
    Settings {
        nsze: it.nsze,
        block: it.size.bytes(),
        nabsn: it.nabsn,
        nabo: it.nabo,
        nawun: it.nawun,
        nacwu: it.nacwu,
        workers,
        limit: words.limit,
    }
}

/// As many workers as there are processors.
fn processors<R: Threads>(rt: &R) -> Workers {
    let count = match available_parallelism(rt) {
        Ok(count) => count.get().min(64) as u16,
        Err(_) => 4,
    };
    match Workers::new(count) {
        Some(workers) => workers,
        None => unreachable!("there are 1 to 64 workers"),
    }
}

/// Does the commands of the host files of lists, and makes the objects where these are asked for.
fn told_of<R: AllocGlobal + Eprint + Threads + Wait + Sync>(
    rt: &R,
    telling: Telling,
    settings: &Settings,
    files: &[Payload],
    progress: &Progress<'_, R>,
) -> Result<ToldRun, Failure>
    requires { (texts : List (List ℕ)) × AreFilesOf settings.now.block texts files.now }
    ensures told { IfOk result (IsToldRun telling settings.now files.now) }
    ensures fault { IfErr result (λ failure. (first : FaultOfRun) × IsFirstRunFault settings.now files.now first
        × (failure.fault ≡ fault_of_run first)) }
{
    let shown = shown_of(rt, settings, files, progress)?;
    Ok(ToldRun::of(rt, telling, shown, progress)?)
}

/// Does the commands of the host files of lists, and says what helps where that can't be.
fn shown_of<R: AllocGlobal + Eprint + Threads + Wait + Sync>(
    rt: &R,
    settings: &Settings,
    files: &[Payload],
    progress: &Progress<'_, R>,
) -> Result<Shown, Failure>
    requires { (texts : List (List ℕ)) × AreFilesOf settings.now.block texts files.now }
    ensures shown { IfOk result (IsShown settings.now files.now) }
    ensures fault { IfErr result (λ failure. (first : FaultOfRun) × IsFirstRunFault settings.now files.now first
        × (failure.fault ≡ fault_of_run first)) }
{
    let gate = progress.jobs();
    match execute_watched(rt, rt.alloc(), settings, files, &gate, progress) {
        Ok(shown) => Ok(shown),
        Err(fault) => Err(of_run(rt.alloc(), told(fault), files.len())),
    }
}

/// The fault of a run, as the program prints it. What is assembled is a host file, so no fault is one of a file.
fn told(fault: RunFault) -> Fault
    requires { IsToldFault fault }
    ensures { result ≡ fault_of_run fault }
{
    match fault {
        RunFault::Geometry(fault) => Fault::Geometry(fault),
        RunFault::TooManyHosts => Fault::TooManyHosts,
        RunFault::NoMemory => Fault::NoMemory,
        RunFault::Host { .. } | RunFault::Record(_) | RunFault::Trace(_) => {
            unreachable!("what is assembled is a host file")
        }
    }
}

/// Writes the lines, or the objects where these are asked for, and what is said of expectations.
fn print<R: Files + Print + Eprint>(
    mut output: Output<'_, R>,
    told: &ToldRun,
    lists: &mut [&[u8]],
    checked: &Option<Checked>,
) -> Result<(), FileFault> {
    match &told.objects {
        Some(objects) => output.write_all(objects.as_bytes())?,
        None => told.shown.write_long_text(&mut output, lists)?,
    }
    if let Some(checked) = checked {
        output.write_all(checked.text.as_bytes())?;
    }
    output.finish()
}
