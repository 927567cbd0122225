ghost use Rattle.std.specs.Prelude.{◌≡◌, ◌+◌, ◌<◌, ◌≤◌};
ghost use Rattle.nvm_geometry.specs.Limits.{IsWithinPairLimit};
ghost use Rattle.nvm_generate.specs.Inside.Range.{IsRangeOf};

use crate::dice::Dice;
use nvm_geometry::Geometry;

/// The blocks that a command is on, at least one.
#[derive(Clone, Copy)]
pub struct Range {
    pub first: u64,
    /// Zeroes-based.
    pub nlb: u8,
}

impl Range {
    /// Three in four times a whole unit, or as much of one as a command may have, and else any blocks, over boundaries too.
    pub fn any(dice: &mut Dice, geometry: Geometry) -> Range
        ensures { IsRangeOf geometry result.first result.nlb }
    {
        let nsze = geometry.nsze() as u32;
        let lba = u64::from(dice.below(nsze));
        if dice.below(4) == 0 {
            let nlb = dice.below(u32::from(most(geometry, lba, u32::MAX)) + 1) as u8;
            Range { first: lba, nlb }
        } else {
            let (first, blocks) = geometry.unit_range(geometry.unit_of(lba));
            let nlb = most(geometry, first, blocks);
            Range { first, nlb }
        }
    }

    /// As much of its front as a fused pair may have: all, or up to the pair's limit, or one block where there is a boundary in that.
    pub fn of_pair(self, geometry: Geometry) -> Range
        requires { IsRangeOf geometry self.first self.nlb }
        ensures front { result.first ≡ self.first }
        ensures shorter { result.nlb ≤ self.nlb }
        ensures range { IsRangeOf geometry result.first result.nlb }
        ensures limit { IsWithinPairLimit geometry result.first (result.nlb + 1) }
    {
        let nlb = u16::from(self.nlb).min(geometry.nacwu()) as u8;
        if geometry
            .large()
            .within_pair_limit(self.first, u32::from(nlb) + 1)
        {
            Range {
                first: self.first,
                nlb,
            }
        } else {
            Range {
                first: self.first,
                nlb: 0,
            }
        }
    }
}

/// The most blocks, zeroes-based, that a command from `first` on may have: no more than `blocks`, than the namespace has left, than
/// NAWUN + 1, or than 256.
fn most(geometry: Geometry, first: u64, blocks: u32) -> u8
    requires some { 0 < blocks }
    requires inside { first < geometry.nsze }
    ensures range { IsRangeOf geometry first result }
    ensures few { result < blocks }
{
    let left = geometry.nsze() - first - 1;
    let here = u64::from(blocks) - 1;
    let limit = u64::from(geometry.nawun());
    left.min(here).min(limit).min(255) as u8
}
