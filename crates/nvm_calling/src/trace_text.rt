ghost use Rattle.std.specs.Prelude.{◌≡◌, IfOk, string_bytes};
ghost use Rattle.nvm_trace.specs.TraceView.{TraceView};
ghost use Rattle.nvm_trace_text.specs.Listing.{text_of};
ghost use Rattle.nvm_trace_text.specs.Texts.{IsTextOf};

use nvm_trace_text::{TextFault, text_of_trace, trace_of_text};
use std::alloc::Global;

/// A script's trace in one spelling, without comments, so that two texts can be compared byte by byte.
pub fn in_one_spelling(alloc: Global, text: &[u8]) -> Result<String, TextFault>
    ensures { IfOk result (λ spelled. (t : TraceView) × IsTextOf text.now t × (string_bytes spelled ≡ text_of t)) }
{
    let trace = trace_of_text(alloc, text)?;
    match text_of_trace(alloc, &trace) {
        Ok(spelled) => Ok(spelled),
        Err(_) => Err(TextFault::NoMemory),
    }
}
