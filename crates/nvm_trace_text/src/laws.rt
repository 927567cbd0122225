//! Theorems about the definitions, each the contract of a function that does nothing.
ghost use Rattle.nvm_trace_text.specs.OneThing.{TextsSayOneTrace, TextsOfTracesHaveNoFault};
ghost use Rattle.nvm_trace_text.specs.ReadBack.{TextsAreReadBack, TextsEndBeforeLast};

use nvm_record::laws::ranges_are_read_back;
use nvm_text::laws::runs_are_longest;

/// A text says no two traces, and where it says one it has no fault. So [`trace_of_text`](crate::trace_of_text) answers a fault only
/// of a text that says no trace.
pub fn texts_say_one_thing()
    ensures one { TextsSayOneTrace }
    ensures no_fault { TextsOfTracesHaveNoFault }
{}

/// The text that [`text_of_trace`](crate::text_of_trace) writes of a trace that can be made says that very trace, where no job ended at
/// time 2^64 - 1.
pub fn texts_are_read_back()
    ensures { TextsAreReadBack }
{
    runs_are_longest();
    ranges_are_read_back();
}

/// No text says a trace in which a job ended at time 2^64 - 1. So what was read and is written again is read as the same trace.
pub fn texts_end_before_last()
    ensures { TextsEndBeforeLast }
{}
