//! How a port does a job: a step of its pass of the region for each unit in which the job has a part, one after the other, up to
//! the first that doesn't succeed.
ghost use Rattle.std.specs.Prelude.{◌≡◌, ◌≤◌, ℕ, List, MatchOption, is_some, true};
ghost use Rattle.nvm_geometry.specs.Boundaries.{units_of};
ghost use Rattle.nvm_geometry.specs.Faults.{most_units};
ghost use Rattle.nvm_geometry.specs.Large.{regions_of};
ghost use Rattle.nvm_plan.specs.Fits.{FitsNamespace};
ghost use Rattle.nvm_plan.specs.LentPart.{part_operation_of};
ghost use Rattle.nvm_store.specs.Place.{IsCovered};
ghost use Rattle.nvm_unit.specs.Ends.{views_of};
ghost use Rattle.nvm_unit.specs.Passes.{IsPassOf, IsProperPass};
ghost use Rattle.nvm_unit.specs.Replies.{Waits};
ghost use Rattle.nvm_unit.specs.declared.views.PassView.{PassView};
ghost use Rattle.nvm_space.specs.Inside.Parts.{AreUnitsOf, part_done, reply_told};
ghost use Rattle.nvm_space.specs.Inside.Recorded.{AreRecordedOf};
ghost use Rattle.nvm_space.specs.Ports.{ArePassesOfAll, IsPortOf};
ghost use Rattle.nvm_space.specs.Progress.{IsProgress};
ghost use Rattle.nvm_space.specs.Trace.{DoesJob, DoesPart};
ghost use Rattle.nvm_space.specs.UnderWay.{IsUnderWay};

use crate::job_done::JobDone;
use crate::port::Port;
use crate::replies::{PartReply, reply_of_change, reply_of_look};
use crate::space::{Recorded, Space};
use crate::under_way::{JobUnderWay, Progress, begin};
use nvm_geometry::{LargeGeometry, Regions, laws};
use nvm_plan::laws::parts_of_jobs;
use nvm_plan::{Job, LentPart};
use nvm_store::laws::acts_and_looks;
use nvm_unit::laws::waiting_is_no_step;
use nvm_unit::{Gate, Kept, Pass, Unit};
use std::alloc::Global;
use std::sync::Wait;

impl<K: Kept> Space<K> {
    /// Does a job by the port's passes, or refuses it, and says what is reported to its host. `number` is the job's number,
    /// which the entries bear that it makes. Each part is one step of its region; the parts are done in the order
    /// of the units, up to the first that doesn't succeed.
    ///
    /// A job that is refused, or has no parts, takes no memory. One of several parts asks for the memory of its list of parts
    /// before its first part, where parts are listed, and a Read over several units for that of its data; where it is refused,
    /// nothing is done. It waits for the regions.
    pub fn run_job<R: Wait, G: Gate>(
        &self,
        rt: &R,
        alloc: Global,
        port: &mut Port<K>,
        number: u32,
        job: &Job,
        gate: &G,
    ) -> JobDone
        requires of { IsPortOf self.now port.old }
        requires fits { FitsNamespace self.now.namespace job.now }
        ensures of { IsPortOf self.now port.new }
        ensures number { port.new.number ≡ port.old.number }
        ensures does { DoesJob self.now.namespace self.now.lists number job.now (views_of port.old.passes) (views_of port.new.passes)
            result }
    {
        let recorded = self.recorded();
        do_job(
            rt,
            alloc,
            &self.geometry,
            self.regions,
            &self.units,
            recorded,
            &mut port.passes,
            number,
            job,
            gate,
        )
    }

    /// Begins a job that is to be done without waiting. It is pending with no part done yet, and
    /// [`poll_job`](Space::poll_job) resumes it. It is done at once if a check refuses it, or if it has no parts. The memory is
    /// that of [`run_job`](Space::run_job) before its first part: where it is refused, the answer is `Done` with 0/06 and no
    /// parts. It touches no region.
    pub fn begin_job(&self, alloc: Global, number: u32, job: &Job) -> Progress
        ensures { (views : List PassView) → IsProgress self.now.namespace self.now.lists number job.now views views result }
    {
        begin(alloc, &self.geometry, self.recorded(), number, job)
    }

    /// Resumes a job that was begun, part by part, up to the first whose region it doesn't get, since another port has it or
    /// was quicker: then the job is pending. It is polled again with the same job and the same port. Between its first poll
    /// and its end the port makes no other call, not even a `refresh`. No part is done twice. When the job is done, its parts and
    /// completions are such as [`run_job`](Space::run_job) may give. `Gate::before_put` is called once for each change that takes its
    /// region. It waits for nothing.
    pub fn poll_job<G: Gate>(
        &self,
        alloc: Global,
        port: &mut Port<K>,
        job: &Job,
        under_way: JobUnderWay,
        gate: &G,
    ) -> Progress
        requires of { IsPortOf self.now port.old }
        requires fits { FitsNamespace self.now.namespace job.now }
        requires under_way { (start : List PassView)
            × IsUnderWay self.now.namespace self.now.lists job.now under_way start (views_of port.old.passes) }
        ensures of { IsPortOf self.now port.new }
        ensures number { port.new.number ≡ port.old.number }
        ensures goes { (start : List PassView)
            → IsUnderWay self.now.namespace self.now.lists job.now under_way start (views_of port.old.passes)
            → IsProgress self.now.namespace self.now.lists under_way.number job.now start (views_of port.new.passes) result }
    {
        let lists = self.recorded().is_some();
        poll_job(
            alloc,
            &self.geometry,
            self.regions,
            &self.units,
            lists,
            &mut port.passes,
            job,
            under_way,
            gate,
        )
    }
}

/// Does a job, or refuses it, and says what is reported to its host. `number` is its number.
fn do_job<R: Wait, G: Gate, K: Kept>(
    rt: &R,
    alloc: Global,
    geometry: &LargeGeometry,
    regions: Regions,
    units: &[Unit<K>],
    recorded: Option<Recorded>,
    passes: &mut Vec<Pass<K>>,
    number: u32,
    job: &Job,
    gate: &G,
) -> JobDone
    requires units { AreUnitsOf geometry.now (is_some recorded) units.now }
    requires regions { regions ≡ regions_of geometry.now }
    requires recorded { AreRecordedOf geometry.now recorded }
    requires passes { (n : ℕ) × ArePassesOfAll units.now n passes.old.items }
    requires fits { FitsNamespace geometry.now job.now }
    ensures passes { (n : ℕ) → ArePassesOfAll units.now n passes.old.items
        → ArePassesOfAll units.now n passes.new.items }
    ensures does { DoesJob geometry.now (is_some recorded) number job.now (views_of passes.old.items) (views_of passes.new.items) result }
{
    parts_of_jobs();
    laws::regions_have_whole_units();
    laws::few_units_are_regions();

    // For the proof alone: the numbers are those of a namespace.
    let _nsze = geometry.nsze();
    let lists = recorded.is_some();
    let mut progress = begin(alloc, geometry, recorded, number, job);
    loop {
        match progress {
            Progress::Done(done) => return done,
            Progress::Pending(under_way) => {
                let part = under_way.next_part(geometry, job);
                let region = regions.region_of(under_way.lba());
                let place = usize::from(region);
                let reply = do_part(
                    rt,
                    alloc,
                    &units[place],
                    &mut passes[place],
                    number,
                    part,
                    gate,
                );
                progress = under_way.replied(geometry, lists, region, job, reply);
            }
        }
    }
}

/// Goes on with a job, part by part, up to the first whose region is held.
fn poll_job<G: Gate, K: Kept>(
    alloc: Global,
    geometry: &LargeGeometry,
    regions: Regions,
    units: &[Unit<K>],
    lists: bool,
    passes: &mut Vec<Pass<K>>,
    job: &Job,
    under_way: JobUnderWay,
    gate: &G,
) -> Progress
    requires units { AreUnitsOf geometry.now lists units.now }
    requires regions { regions ≡ regions_of geometry.now }
    requires few { lists ≡ true → units_of geometry.now ≤ most_units }
    requires passes { (n : ℕ) × ArePassesOfAll units.now n passes.old.items }
    requires fits { FitsNamespace geometry.now job.now }
    requires under_way { (start : List PassView)
        × IsUnderWay geometry.now lists job.now under_way start (views_of passes.old.items) }
    ensures passes { (n : ℕ) → ArePassesOfAll units.now n passes.old.items
        → ArePassesOfAll units.now n passes.new.items }
    ensures goes { (start : List PassView)
        → IsUnderWay geometry.now lists job.now under_way start (views_of passes.old.items)
        → IsProgress geometry.now lists under_way.number job.now start (views_of passes.new.items) result }
{
    parts_of_jobs();
    waiting_is_no_step();
    laws::regions_have_whole_units();
    laws::few_units_are_regions();

    // For the proof alone: the numbers are those of a namespace.
    let _nsze = geometry.nsze();
    let number = under_way.number;
    let mut progress = Progress::Pending(under_way);
    loop {
        match progress {
            Progress::Done(done) => return Progress::Done(done),
            Progress::Pending(under_way) => {
                let part = under_way.next_part(geometry, job);
                let region = regions.region_of(under_way.lba());
                let place = usize::from(region);
                let polled = poll_part(
                    alloc,
                    &units[place],
                    &mut passes[place],
                    number,
                    part,
                    gate,
                );
                let Some(reply) = polled else {
                    return Progress::Pending(under_way);
                };
                progress = under_way.replied(geometry, lists, region, job, reply);
            }
        }
    }
}

/// Does the part of a job in a unit.
fn do_part<R: Wait, G: Gate, K: Kept>(
    rt: &R,
    alloc: Global,
    unit: &Unit<K>,
    pass: &mut Pass<K>,
    number: u32,
    part: LentPart<'_>,
    gate: &G,
) -> PartReply
    requires of { IsPassOf unit.now pass.old }
    requires covered { IsCovered unit.now.bounds.place (part_operation_of part) }
    ensures of { IsPassOf unit.now pass.new }
    ensures number { pass.new.view.number ≡ pass.old.view.number }
    ensures proper { IsProperPass pass.new.view }
    ensures within { result.point ≤ unit.now.bounds.limit }
    ensures does { (place : ℕ) → DoesPart (part_done number (part_operation_of part.entry) (reply_told place result)) pass.old.view
        pass.new.view }
{
    acts_and_looks();
    match part {
        LentPart::Act(act) => {
            reply_of_change(act, unit.change(rt, alloc, pass, number, act, gate))
        }
        LentPart::Look(look) => reply_of_look(look, unit.observe(rt, alloc, pass, look)),
    }
}

/// Does the part of a job in a unit, unless the unit is held: then it is `None`.
#[inline(always)]
fn poll_part<G: Gate, K: Kept>(
    alloc: Global,
    unit: &Unit<K>,
    pass: &mut Pass<K>,
    number: u32,
    part: LentPart<'_>,
    gate: &G,
) -> Option<PartReply>
    requires of { IsPassOf unit.now pass.old }
    requires covered { IsCovered unit.now.bounds.place (part_operation_of part) }
    ensures of { IsPassOf unit.now pass.new }
    ensures number { pass.new.view.number ≡ pass.old.view.number }
    ensures proper { IsProperPass pass.new.view }
    ensures does { MatchOption result (Waits pass.old.view pass.new.view) (λ reply. (reply.point ≤ unit.now.bounds.limit)
        × ((place : ℕ) → DoesPart (part_done number (part_operation_of part.entry) (reply_told place reply)) pass.old.view pass.new.view)) }
{
    acts_and_looks();
    match part {
        LentPart::Act(act) => {
            let changed = unit.poll_change(alloc, pass, number, act, gate)?;
            Some(reply_of_change(act, changed))
        }
        LentPart::Look(look) => {
            let answer = unit.poll_observe(alloc, pass, look, gate)?;
            Some(reply_of_look(look, answer))
        }
    }
}
