ghost use Rattle.std.specs.Prelude.{◌↔◌, IsTrue};
ghost use Rattle.nvm_plan.specs.Fits.{FitsNamespace};

use crate::job::{Body, Job};
use crate::profile::is_fused_pair;
use nvm_geometry::LargeGeometry;

/// Hosts are numbered from 1 to this.
pub const MOST_HOSTS: u16 = 64;

/// Whether the job can be done and recorded on a namespace of this geometry: its host is 1 to 64,
/// each command has exactly the data that it calls for in the geometry's blocks and holds no opcode as
/// `Other` that has a name, and a pair is a first and a second of the profile. A Dataset Management as an
/// unknown opcode without data is taken too, since it was one once: [`plan`](crate::plan) refuses it. It takes no
/// memory.
pub fn fits(geometry: &LargeGeometry, job: &Job) -> bool
    ensures { IsTrue result ↔ FitsNamespace geometry.now job.now }
{
    if job.host == 0 || job.host > MOST_HOSTS {
        return false;
    }
    let size = geometry.block_size();
    match &job.body {
        Body::Single(command) => command.is_whole(size) || command.is_unknown_dataset(),
        Body::Pair(first, second) => {
            first.is_whole(size) && second.is_whole(size) && is_fused_pair(first, second)
        }
    }
}
