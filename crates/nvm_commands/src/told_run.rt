//! What `nvq run` prints of a run. With `--json` that is the objects of its commands, and that of its record's verdict.
ghost use Rattle.std.specs.Prelude.{◌≡◌, IfOk, string_bytes};
ghost use Rattle.nvm_audit.specs.LawfulRecord.{IsLawfulRecord};
ghost use Rattle.nvm_commands.specs.ToldRun.{AreToldAs, IsObjectText};

use crate::front::{Progress, Telling};
use nvm_audit::Record;
use nvm_engine::{Shown, judge_watched};
use nvm_listing::{answers, answers_as_objects};
use nvm_record::NoMemory;
use std::thread::Threads;

/// What a run shows, and its objects, if it is printed as objects.
#[derive(Drop)]
pub struct ToldRun {
    pub shown: Shown,
    pub objects: Option<String>,
}

impl ToldRun {
    /// What is printed of a run. The objects are whole before anything is written.
    pub fn of<R: AllocGlobal + Eprint + Threads + Sync>(
        rt: &R,
        telling: Telling,
        shown: Shown,
        progress: &Progress<'_, R>,
    ) -> Result<ToldRun, NoMemory>
        requires { IsLawfulRecord shown }
        ensures same { IfOk result (λ told. told.shown ≡ shown) }
        ensures objects { IfOk result (λ told. AreToldAs telling shown told.objects) }
    {
        let objects = match telling {
            Telling::Lines => None,
            Telling::Object => Some(object_text(rt, shown.record(), progress)?),
        };
        Ok(ToldRun { shown, objects })
    }
}

/// The objects of the answers of a record's commands, and after them that of its verdict.
fn object_text<R: AllocGlobal + Eprint + Threads + Sync>(
    rt: &R,
    run: &Record,
    progress: &Progress<'_, R>,
) -> Result<String, NoMemory>
    requires { IsLawfulRecord run.now }
    ensures { IfOk result (λ text. IsObjectText run.now (string_bytes text)) }
{
    let answers = answers(rt.alloc(), run)?;
    let mut text = answers_as_objects(rt.alloc(), &answers)?;
    let judged = judge_watched(rt, rt.alloc(), run, progress)?;
    let verdict = judged.object(rt.alloc())?;
    text.push_str(verdict.as_str())?;
    Ok(text)
}
