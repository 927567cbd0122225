//! Evidence as files, to be kept and to be checked elsewhere: an order of points that explains a trace, or a contradiction, which shows that
//! none does.
//!
//! [`write_order`] and [`write_contradiction`] write a file, and [`read_evidence`] reads one from its front. [`witness_order`] says whether
//! an order explains a trace, and [`witness_order_bytes`] does so for two files; [`refute_contradiction`] says whether a contradiction is
//! taken of a trace, and [`refute_contradiction_bytes`] does so for two files. [`order_story`] shows what was done in the order, and
//! [`contradiction_story`] what the contradiction says. The lines and objects of a verdict are here, too.
#![tactic(auto)]

mod between;
mod blocks;
mod brief;
mod command_object;
mod contradicted;
mod contradiction_listing;
mod contradiction_reading;
mod contradiction_writing;
mod evidence;
mod evidence_fault;
mod fact_line;
mod fact_object;
mod fact_reading;
mod field_writing;
mod fields;
mod front;
mod named;
mod order_listing;
mod order_reading;
mod order_writing;
mod ordered;
mod point_name;
mod precedence;
mod reading;
mod refute_fault;
mod refuted;
mod refuting;
mod sentence;
mod sources;
mod together;
mod trace_reading;
mod verdict;
mod witness_fault;
mod witnessing;
mod words;

pub use brief::contradiction_brief;
pub use contradicted::{contradiction_object, contradiction_text};
pub use contradiction_listing::contradiction_story;
pub use contradiction_reading::read_contradiction;
pub use contradiction_writing::write_contradiction;
pub use evidence::{Evidence, HeldContradiction, HeldOrder};
pub use evidence_fault::EvidenceFault;
pub use front::is_evidence;
pub use order_listing::order_story;
pub use order_reading::read_order;
pub use order_writing::write_order;
pub use ordered::{OrderNumbers, Ordered};
pub use reading::read_evidence;
pub use refute_fault::RefuteBytesFault;
pub use refuted::Refuted;
pub use refuting::{refute_contradiction, refute_contradiction_bytes};
pub use together::most_together;
pub use verdict::{
    explained_object, explained_text, unknown_object, unknown_text, wrong_object, wrong_text,
};
pub use witness_fault::OrderWitnessFault;
pub use witnessing::{witness_order, witness_order_bytes};
