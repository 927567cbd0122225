ghost use Rattle.std.specs.Prelude.{◌≡◌, ◌<◌, ◌++◌, [], ◌∷◌, All, replicate, IfOk, IfErr, IfSome, IsNone};
ghost use Rattle.nvm_engine.specs.Claims.{IsClaims, HasCome, HasEnded};
ghost use Rattle.nvm_engine.specs.Counters.{IsWorkerCount, new_claim, lists_of, AreAllClaimsOf};
ghost use Rattle.nvm_engine.specs.RunFaults.{IsRunFault};

use crate::bounds::Bounds;
use crate::claim::Claim;
use crate::run_fault::RunFault;
use crate::seats::{deal, gather};
use crate::steps;
use crate::steps::Desk;
use std::alloc::Global;
use std::marker::Model;

/// The most workers of a counter.
pub const MOST_WORKERS: u16 = 64;

/// By it workers draw the numbers of jobs, each number once. To draw one is a single atomic step.
///
/// Contracts see which counter it is, the number of jobs and the number of workers.
#[derive(Drop)]
pub struct Counter {
    pub(crate) desk: Desk,
    pub(crate) bounds: Bounds,
}

impl Model for Counter {
    ghost use Rattle.std.specs.Prelude.{◌≡◌, ◌<◌};
    ghost use Rattle.nvm_engine.specs.Counters.{CounterName};

    ghost Value = { CounterName };

    ghost view = { λ c. record {
      table = c.desk.table.shared.table_id;
      jobs = c.bounds.jobs;
      workers = c.bounds.workers;
    } };

    ghost invariant = { λ c. (c.desk.table.shared.key ≡ c.bounds) × (0 < c.bounds.workers) };
}

impl Counter {
    /// A counter for `jobs` jobs, which are numbered from 0, and a claim for each worker, of 1 to
    /// [`MOST_WORKERS`]. `Workers` says that there can't be that many workers; a refusal of memory leaves nothing.
    pub fn new(alloc: Global, jobs: u32, workers: u16) -> Result<(Counter, Vec<Claim>), RunFault>
        ensures taken { IfOk result (λ c. IsWorkerCount workers) }
        ensures refused { IfErr result (IsRunFault workers) }
        ensures jobs { IfOk result (λ c. c.0.jobs ≡ jobs) }
        ensures workers { IfOk result (λ c. c.0.workers ≡ workers) }
        ensures claims { IfOk result (λ c. c.1.items ≡ replicate workers (new_claim c.0.table)) }
    {
        if workers == 0 || workers > MOST_WORKERS {
            return Err(RunFault::Workers);
        }
        let bounds = Bounds { jobs, workers };
        let (desk, token) = steps::open(alloc, bounds)?;
        let claims = deal(alloc, &desk, token, workers)?;
        Ok((Counter { desk, bounds }, claims))
    }

    /// Draws the next number. Gives it where it is a job's; else no job is left for this worker, which then
    /// draws no more. It takes no memory, and waits for nothing.
    pub fn draw(&self, claim: &mut Claim) -> Option<u32>
        requires of { claim.old.table ≡ self.now.table }
        requires goes_on { All (λ x. x < self.now.jobs) claim.old.drawn }
        ensures of { claim.new.table ≡ claim.old.table }
        ensures job { IfSome result (λ n. (n < self.now.jobs) × (claim.new.drawn ≡ claim.old.drawn ++ n ∷ [])) }
        ensures rises { IfSome result (λ n. All (λ x. x < n) claim.old.drawn) }
        ensures goes_on { IfSome result (λ n. All (λ x. x < self.now.jobs) claim.new.drawn) }
        ensures ended { IsNone result → HasEnded self.now.jobs claim.old.drawn claim.new.drawn }
    {
        let number = steps::draw(&self.desk, &mut claim.token);
        if number < u64::from(self.bounds.jobs) {
            Some(number as u32)
        } else {
            None
        }
    }

    /// How many numbers were drawn, once no worker draws any more. The claims are those that
    /// [`Counter::new`] gave with it, in any order. It takes no memory, and waits for nothing.
    pub fn close(self, claims: Vec<Claim>) -> u64
        requires { AreAllClaimsOf self claims.items }
        ensures claims { IsClaims self.jobs (record { word = result; lists = lists_of claims.items }) }
        ensures draws { HasCome self.jobs self.workers result (lists_of claims.items) }
    {
        let Counter { desk, bounds: _ } = self;
        let token = gather(&desk, claims);
        steps::close(desk, token)
    }
}
