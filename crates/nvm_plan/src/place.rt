ghost use Rattle.std.specs.Prelude.{◌<◌};
ghost use Rattle.nvm_geometry.specs.Boundaries.{units_of};
ghost use Rattle.nvm_plan.specs.UnitPlace.{IsUnitPlace};

use nvm_geometry::Geometry;
use nvm_store::Place;

/// Where a unit lies, in blocks of the namespace's size. It takes no memory and a constant number of steps.
pub fn unit_place(geometry: &Geometry, unit: u16) -> Place
    requires { unit < units_of geometry.now }
    ensures { IsUnitPlace geometry.now unit result }
{
    let (first, blocks) = geometry.unit_range(unit);
    Place {
        first,
        blocks,
        size: geometry.block_size(),
    }
}
