//! What a record has at a number: a job, and the entries of a unit.
ghost use Rattle.std.specs.Prelude.{◌≡◌, ◌<◌, IfSome, slice_get};
ghost use Rattle.std.specs.Option.{option_map};
ghost use Rattle.nvm_geometry.specs.Boundaries.{units_of};
ghost use Rattle.nvm_plan.specs.Fits.{FitsNamespace};
ghost use Rattle.nvm_explain.specs.UnitAt.{AreCoveredIn};

use nvm_audit::Record;
use nvm_geometry::laws::each_unit_has_one_place;
use nvm_plan::Job;
use nvm_store::Entry;

/// The job of this number, if there is one.
pub(crate) fn job_of<'a>(run: &'a Record, number: u32) -> Option<&'a Job>
    ensures is { option_map (λ job. job.now) result ≡ slice_get run.now.jobs number }
    ensures fits { IfSome result (λ job. FitsNamespace run.now.namespace job.now) }
{
    run.jobs.get(number as usize)
}

/// The entries of the unit of this number, if there is one. Each lies in the unit.
pub(crate) fn entries_of<'a>(run: &'a Record, unit: u16) -> Option<&'a [Entry]>
    ensures is { option_map (λ entries. entries.now) result ≡ slice_get run.now.units unit }
    ensures known { IfSome result (λ _. unit < units_of run.now.namespace) }
    ensures covered { IfSome result (λ entries. AreCoveredIn run.now.namespace unit entries.now) }
{
    each_unit_has_one_place();
    match run.units.get(unit as usize) {
        Some(history) => Some(history.as_slice()),
        None => None,
    }
}
