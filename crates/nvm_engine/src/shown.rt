ghost use Rattle.std.specs.Prelude.{◌≡◌, ℕ, List, IfOk, OnErr, OnOk};
ghost use Rattle.std.specs.Io.KnownBytes.{Appends};
ghost use Rattle.nvm_text.specs.Handed.{TakesFront};
ghost use Rattle.nvm_audit.specs.LawfulRecord.{IsLawfulRecord};
ghost use Rattle.nvm_audit.specs.Recordable.{IsRecordable};
ghost use Rattle.nvm_engine.specs.Printed.{IsLongTextOf, IsPrintedOf};
ghost use Rattle.nvm_engine.specs.UnderLine.{lists_say};

use crate::form::Form;
use crate::judging::verdict_of;
use crate::record_text::write_record_text;
use nvm_audit::{DoneJobs, Record, Verdict, Watcher};
use nvm_record::NoMemory;
use std::alloc::Global;
use std::io;
use std::io::Write;
use std::marker::Model;
use std::thread::Threads;

/// What a run shows: its record, and the text of that with its verdict.
///
/// All that the text needs is here, so nothing but the writer can fail while it is written. The text itself isn't held, and
/// no bytes of the record's file.
///
/// Contracts see the record, which is lawful.
#[derive(Debug, Drop)]
pub struct Shown {
    run: Record,
    found: DoneJobs,
    verdict: Verdict,
}

impl Model for Shown {
    ghost use Rattle.nvm_audit.specs.LawfulRecord.{IsLawfulRecord};
    ghost use Rattle.nvm_audit.specs.RecordView.{RecordView};
    ghost use Rattle.nvm_audit.specs.Verdict.{IsVerdict};
    ghost use Rattle.nvm_audit.specs.DonePlaces.{AreDonePlaces};

    ghost Value = { RecordView };

    ghost view = { λ s. s.run };

    ghost invariant = { λ s. IsLawfulRecord s.run × AreDonePlaces s.run s.found × IsVerdict s.run s.verdict };
}

impl Shown {
    /// What is shown of a record. It is audited here.
    pub(crate) fn of_record<W: Watcher + Sync>(
        rt: &(impl Threads + Sync),
        alloc: Global,
        run: Record,
        watcher: &W,
    ) -> Result<Shown, NoMemory>
        requires { IsLawfulRecord run }
        ensures same { IfOk result (λ shown. shown ≡ run) }
        ensures held { IfOk result (λ shown. IsRecordable shown) }
    {
        let verdict = verdict_of(rt, alloc, &run, watcher)?;
        let found = DoneJobs::of(alloc, &run)?;
        Ok(Shown {
            run,
            found,
            verdict,
        })
    }

    /// The record, for its file.
    pub fn record(&self) -> &Record
        ensures { result.now ≡ self.now }
    {
        &self.run
    }

    /// Writes what goes to standard output: a line for each command, in the order of the jobs and not in that of the workers, and
    /// then the line of the verdict. It takes no memory of its own, and doesn't flush.
    ///
    /// Where the writer fails, its error is returned, and it has taken a front of the text.
    pub fn write_text<W: Write>(&self, writer: &mut W) -> io::Result<()>
        ensures whole { OnOk result ((text : List ℕ) × IsPrintedOf self.now text
            × Appends (W.contents writer.old) (W.contents writer.new) text) }
        ensures front { OnErr result ((text : List ℕ) × IsPrintedOf self.now text
            × TakesFront (W.contents writer.old) (W.contents writer.new) text) }
    {
        let mut none: [&[u8]; 0] = [];
        write_record_text(
            writer,
            Form::Short,
            &self.run,
            &self.found,
            &mut none,
            self.verdict,
        )
    }

    /// Writes what [`write_text`](Shown::write_text) does, and under the line of each command one that begins with two spaces:
    /// what the command's list says of it, and the name and the number of its status. `lists` are the command lists of the run,
    /// host 1's first, and are left after the lines that were printed. A command of which no list says anything has no words
    /// there.
    ///
    /// It takes no memory of its own, and doesn't flush. Where the writer fails, its error is returned, and it has taken a front
    /// of the text.
    pub fn write_long_text<W: Write>(&self, writer: &mut W, lists: &mut [&[u8]]) -> io::Result<()>
        ensures whole { OnOk result ((text : List ℕ) × IsLongTextOf (lists_say lists.old) self.now text
            × Appends (W.contents writer.old) (W.contents writer.new) text) }
        ensures front { OnErr result ((text : List ℕ) × IsLongTextOf (lists_say lists.old) self.now text
            × TakesFront (W.contents writer.old) (W.contents writer.new) text) }
    {
        write_record_text(
            writer,
            Form::Long,
            &self.run,
            &self.found,
            lists,
            self.verdict,
        )
    }
}
