ghost use Rattle.std.specs.Prelude.{◌≡◌, ◌≢◌, Ok, Err, IfOk, OnErr, OnOk, string_bytes};
ghost use Rattle.std.specs.Io.KnownBytes.{Appends};
ghost use Rattle.nvm_text.specs.Handed.{TakesFront};
ghost use Rattle.nvm_audit.specs.declared.audit_fault.AuditFault.TheVariants.{NoMemory as NoMemoryFault};
ghost use Rattle.nvm_engine.specs.VerdictLine.{answer_line, answer_status};
ghost use Rattle.nvm_engine.specs.VerdictObject.{answer_object};

use crate::verdict_line::{write_lawful, write_unlawful};
use crate::verdict_object::{lawful_object, unlawful_object};
use nvm_audit::{AuditFault, Verdict};
use nvm_record::NoMemory;
use std::alloc::{AllocError, Global};
use std::io;
use std::io::Write;
use std::marker::Model;

/// How the audit of a record ended: with the verdict of a lawful one, or with the first fault of another. Want of memory is
/// neither.
#[derive(Debug, Drop)]
pub struct Judged {
    answer: Result<Verdict, AuditFault>,
}

impl Model for Judged {
    ghost use Rattle.std.specs.Prelude.{Result};
    ghost use Rattle.nvm_audit.specs.declared.audit_fault.AuditFault.{AuditFault};
    ghost use Rattle.nvm_audit.specs.declared.verdict.Verdict.{Verdict};
    ghost use Rattle.nvm_engine.specs.Judged.{IsKnown};

    ghost Value = { Result Verdict AuditFault };

    ghost view = { λ j. j.answer };

    ghost invariant = { λ j. IsKnown j.answer };
}

impl Judged {
    /// Of a lawful record.
    pub(crate) fn lawful(verdict: Verdict) -> Judged
        ensures { result ≡ Ok verdict }
    {
        Judged {
            answer: Ok(verdict),
        }
    }

    /// Of a record with this first fault. Want of memory is none: it is returned.
    pub(crate) fn unlawful(fault: AuditFault) -> Result<Judged, NoMemory>
        ensures told { IfOk result (λ judged. judged ≡ Err fault) }
        ensures known { OnOk result (fault ≢ NoMemoryFault) }
    {
        match fault {
            AuditFault::NoMemory => Err(AllocError),
            _ => Ok(Judged { answer: Err(fault) }),
        }
    }

    /// Writes the line of the verdict or of the fault. Where the writer fails, its error is returned, and it has taken a front of
    /// the line.
    pub fn write_line<W: Write>(&self, writer: &mut W) -> io::Result<()>
        ensures whole { OnOk result (Appends (W.contents writer.old) (W.contents writer.new) (answer_line self.now)) }
        ensures front { OnErr result (TakesFront (W.contents writer.old) (W.contents writer.new) (answer_line self.now)) }
    {
        match &self.answer {
            Ok(verdict) => write_lawful(writer, *verdict),
            Err(fault) => write_unlawful(writer, *fault),
        }
    }

    /// The verdict or the fault as one object of JSON, on one line with its line feed.
    pub fn object(&self, alloc: Global) -> Result<String, NoMemory>
        ensures { IfOk result (λ object. string_bytes object ≡ answer_object self.now) }
    {
        match &self.answer {
            Ok(verdict) => lawful_object(alloc, *verdict),
            Err(fault) => unlawful_object(alloc, fault.name(), fault.job(), fault.spot()),
        }
    }

    /// The exit status: 0, or 2 where the record isn't lawful.
    pub fn status(&self) -> u8
        ensures { result ≡ answer_status self.now }
    {
        match &self.answer {
            Ok(_) => 0,
            Err(_) => 2,
        }
    }
}
