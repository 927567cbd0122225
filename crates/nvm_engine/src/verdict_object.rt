//! The object of JSON that says how an audit ended.
ghost use Rattle.std.specs.Prelude.{◌≡◌, IfOk, string_bytes};
ghost use Rattle.nvm_engine.specs.VerdictObject as spec;

use nvm_audit::{Spot, Verdict};
use nvm_record::NoMemory;
use std::alloc::Global;

/// The object of a lawful record.
#[tactic(auto, unfolding(crate::specs::VerdictObject::lawful_object))]
pub(crate) fn lawful_object(alloc: Global, verdict: Verdict) -> Result<String, NoMemory>
    ensures { IfOk result (λ object. string_bytes object ≡ spec.lawful_object verdict) }
{
    let Verdict {
        jobs,
        units,
        changes,
        refused,
    } = verdict;
    format!(in alloc;
        "{{\"verdict\":\"lawful\",\"jobs\":{jobs},\"units\":{units},\"changes\":{changes},\"refused\":{refused}}}\n"
    )
}

/// The object of the fault of this name.
#[tactic(auto, unfolding(crate::specs::VerdictObject::unlawful_object))]
pub(crate) fn unlawful_object(
    alloc: Global,
    name: &str,
    job: Option<u32>,
    spot: Option<Spot>,
) -> Result<String, NoMemory>
    ensures { IfOk result (λ object. string_bytes object ≡ spec.unlawful_object name.now job spot) }
{
    let Some(job) = job else {
        return format!(in alloc;
            "{{\"verdict\":\"unlawful\",\"fault\":\"{name}\",\"job\":null,\"unit\":null,\"place\":null}}\n"
        );
    };
    match spot {
        Some(Spot { unit, place }) => format!(in alloc;
            "{{\"verdict\":\"unlawful\",\"fault\":\"{name}\",\"job\":{job},\"unit\":{unit},\"place\":{place}}}\n"
        ),
        None => format!(in alloc;
            "{{\"verdict\":\"unlawful\",\"fault\":\"{name}\",\"job\":{job},\"unit\":null,\"place\":null}}\n"
        ),
    }
}
