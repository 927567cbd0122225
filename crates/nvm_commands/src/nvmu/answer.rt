ghost use Rattle.std.specs.Prelude.{◌≡◌, ℕ, List, OnOk};
ghost use Rattle.std.specs.Io.KnownBytes.{Appends};
ghost use Rattle.nvm_commands.specs.Nvmu.Answer.{IsTextOf, status_of};

use crate::front::Telling;
use nvm_engine::{Judged, Shown, Witnessed};
use nvm_evidence::{Ordered, Refuted};
use std::alloc::Global;
use std::io;
use std::io::Write;

/// What the program answers on standard output.
#[derive(Drop)]
pub enum Answer {
    /// What a run shows.
    Ran(Shown),
    /// How an audit ended, and how it is to be printed.
    Audited { telling: Telling, judged: Judged },
    /// What a record says of a trace.
    Witnessed(Witnessed),
    /// What an order says of a trace.
    Ordered(Ordered),
    /// What a contradiction says of a trace.
    Refuted(Refuted),
}

impl Answer {
    /// The exit status once it is written: 0, or 2 where a record isn't lawful, or a record or an order doesn't explain the
    /// trace, or a contradiction isn't one of it.
    pub fn status(&self) -> u8
        ensures { result ≡ status_of self.now }
    {
        match self {
            Answer::Ran(_) => 0,
            Answer::Audited { judged, .. } => judged.status(),
            Answer::Witnessed(witnessed) => witnessed.status(),
            Answer::Ordered(ordered) => ordered.status(),
            Answer::Refuted(refuted) => refuted.status(),
        }
    }

    /// Writes its text. The text of a run takes no memory.
    pub fn write<W: Write>(&self, alloc: Global, writer: &mut W) -> io::Result<()>
        ensures { OnOk result ((text : List ℕ) × IsTextOf self.now text
            × Appends (W.contents writer.old) (W.contents writer.new) text) }
    {
        match self {
            Answer::Ran(shown) => shown.write_text(writer),
            Answer::Audited {
                telling: Telling::Lines,
                judged,
            } => judged.write_line(writer),
            Answer::Audited {
                telling: Telling::Object,
                judged,
            } => writer.write_all(judged.object(alloc)?.as_bytes()),
            Answer::Witnessed(witnessed) => writer.write_all(witnessed.line(alloc)?.as_bytes()),
            Answer::Ordered(ordered) => writer.write_all(ordered.line(alloc)?.as_bytes()),
            Answer::Refuted(refuted) => writer.write_all(refuted.line(alloc)?.as_bytes()),
        }
    }
}
