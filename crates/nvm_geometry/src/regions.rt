ghost use Rattle.std.specs.Prelude.{◌≡◌, ◌+◌, ◌^◌, ◌<◌, ◌≤◌};
ghost use Rattle.nvm_record.specs.BlockSize.{IsBlockSize};
ghost use Rattle.nvm_geometry.specs.Boundaries.{unit_number, units_of};
ghost use Rattle.nvm_geometry.specs.Faults.{most_units};
ghost use Rattle.nvm_geometry.specs.Place.{IsPlaceOf};

use crate::boundaries::{count_at, lba_of_count};
use nvm_record::BlockSize;
use std::marker::Model;

/// The regions of a large namespace, each of whole units and numbered from 0: what [`LargeGeometry::regions`](crate::LargeGeometry::regions)
/// gives. Contracts see them as a namespace whose units they are. No call takes memory.
#[derive(Clone, Copy, Debug, PartialEq, Eq)]
pub struct Regions {
    pub(crate) nsze: u64,
    pub(crate) block_size: BlockSize,
    /// The distance from one to the next in LBAs, zeroes-based. 0 is only one region.
    pub(crate) nabsn: u64,
    /// The LBA from which they are counted.
    pub(crate) nabo: u64,
    pub(crate) nawun: u16,
    pub(crate) nacwu: u16,
}

impl Model for Regions {
    ghost use Rattle.nvm_geometry.specs.Large.{AreRegions};
    ghost use Rattle.nvm_geometry.specs.Namespace.{Namespace, namespace_of};

    ghost Value = { Namespace };

    ghost view = { λ r. namespace_of r.nsze r.block_size r.nabsn r.nabo r.nawun r.nacwu };

    ghost invariant = { λ r. AreRegions (namespace_of r.nsze r.block_size r.nabsn r.nabo r.nawun r.nacwu) };

    ghost inverse = { λ ns. record {
      nsze = ns.nsze;
      block_size = ns.block_size;
      nabsn = ns.nabsn;
      nabo = ns.nabo;
      nawun = ns.nawun;
      nacwu = ns.nacwu;
    } };
}

impl Regions {
    /// How many there are: 1 to 4,096.
    pub fn count(self) -> u16
        ensures value { result ≡ units_of self }
        ensures valid { result ≤ most_units }
    {
        (count_at(self.nabsn, self.nabo, self.nsze - 1) + 1) as u16
    }

    /// How many bytes of data a block has.
    pub fn block_size(self) -> BlockSize
        ensures value { result ≡ self.block_size }
        ensures valid { IsBlockSize result }
    {
        self.block_size
    }

    /// The number of the region in which an LBA below NSZE lies. It takes a constant number of steps.
    #[inline(always)]
    pub fn region_of(self, lba: u64) -> u16
        requires { lba < self.nsze }
        ensures value { result ≡ unit_number self lba }
        ensures valid { result < units_of self }
    {
        count_at(self.nabsn, self.nabo, lba) as u16
    }

    /// The first LBA of a region, and how many blocks it has. It takes a constant number of steps.
    pub fn range(self, region: u16) -> (u64, u32)
        requires { region < units_of self }
        ensures place { IsPlaceOf self region result.0 result.1 }
        ensures low { result.0 + result.1 ≤ 2 ^ 40 }
    {
        if self.nabsn == 0 {
            return (0, self.nsze as u32);
        }
        let region = u64::from(region);
        let first = lba_of_count(self.nabsn, self.nabo, region);
        let next = lba_of_count(self.nabsn, self.nabo, region + 1);
        (first, (next.min(self.nsze) - first) as u32)
    }
}
