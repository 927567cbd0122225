ghost use Rattle.std.specs.Prelude.{◌≡◌, ◌≢◌, Ok, Err, IfOk, OnOk, string_bytes};
ghost use Rattle.nvm_trace.specs.declared.witness_fault.WitnessFault.TheVariants.{NoMemory as NoMemoryFault};
ghost use Rattle.nvm_trace_text.specs.WitnessLine.{witness_line};
ghost use Rattle.nvm_engine.specs.Witnessed.{witness_status};

use nvm_record::NoMemory;
use nvm_trace::{Explained, WitnessFault};
use nvm_trace_text::{ExplainedLine, UnexplainedLine};
use std::alloc::{AllocError, Global};
use std::marker::Model;

/// Whether a record explains a trace: the numbers of the two, or the first fault. Want of memory is neither.
#[derive(Debug, Drop)]
pub struct Witnessed {
    answer: Result<Explained, WitnessFault>,
}

impl Model for Witnessed {
    ghost use Rattle.std.specs.Prelude.{Result};
    ghost use Rattle.nvm_trace.specs.declared.explained.Explained.{Explained};
    ghost use Rattle.nvm_trace.specs.declared.witness_fault.WitnessFault.{WitnessFault};
    ghost use Rattle.nvm_engine.specs.Witnessed.{IsKnownAnswer};

    ghost Value = { Result Explained WitnessFault };

    ghost view = { λ w. w.answer };

    ghost invariant = { λ w. IsKnownAnswer w.answer };
}

impl Witnessed {
    /// Of a trace that the record explains.
    pub(crate) fn explained(explained: Explained) -> Witnessed
        ensures { result ≡ Ok explained }
    {
        Witnessed {
            answer: Ok(explained),
        }
    }

    /// Of a trace and a record with this first fault. Want of memory is none: it is returned.
    pub(crate) fn unexplained(fault: WitnessFault) -> Result<Witnessed, NoMemory>
        ensures told { IfOk result (λ witnessed. witnessed ≡ Err fault) }
        ensures known { OnOk result (fault ≢ NoMemoryFault) }
    {
        match fault {
            WitnessFault::NoMemory => Err(AllocError),
            _ => Ok(Witnessed { answer: Err(fault) }),
        }
    }

    /// The line of the numbers or of the fault, with its line feed.
    pub fn line(&self, alloc: Global) -> Result<String, NoMemory>
        ensures { IfOk result (λ line. string_bytes line ≡ witness_line self.now) }
    {
        match &self.answer {
            Ok(explained) => format!(in alloc; "{}", ExplainedLine(*explained)),
            Err(fault) => format!(in alloc; "{}", UnexplainedLine(*fault)),
        }
    }

    /// The exit status: 0, or 2 where the record doesn't explain the trace.
    pub fn status(&self) -> u8
        ensures { result ≡ witness_status self.now }
    {
        match &self.answer {
            Ok(_) => 0,
            Err(_) => 2,
        }
    }
}
