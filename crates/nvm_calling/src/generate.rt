ghost use Rattle.std.specs.Prelude.{◌≡◌, IfOk, length};
ghost use Rattle.std.specs.List.{All};
ghost use Rattle.nvm_plan.specs.Jobs.{commands_of};

use nvm_generate::{Load, Mix, jobs_of_load};
use nvm_geometry::Geometry;
use nvm_plan::Body;
use nvm_record::NoMemory;
use std::alloc::Global;

/// So many commands of a host, for a device that has no fused commands.
pub fn load_without_pairs(
    alloc: Global,
    geometry: Geometry,
    seed: u64,
    commands: u16,
    host: u8,
) -> Result<Vec<Body>, NoMemory>
    ensures { IfOk result (λ jobs. All (λ job. length (commands_of job) ≡ 1) jobs.items) }
{
    let mix = Mix {
        write: 45,
        read: 45,
        compare: 5,
        pair: 0,
        zeroes: 3,
        uncorrectable: 0,
        deallocate: 2,
    };
    let load = Load {
        seed,
        commands,
        geometry,
        mix,
    };
    jobs_of_load(alloc, &load, host)
}
