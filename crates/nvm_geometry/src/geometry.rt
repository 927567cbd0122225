ghost use Rattle.std.specs.Prelude.{◌≡◌, ◌⊎◌, ◌↔◌, ◌+◌, ◌-◌, ◌<◌, ◌≤◌, IsTrue, IfOk, IfErr};
ghost use Rattle.std.specs.Bool.{OnFalse};
ghost use Rattle.nvm_record.specs.BlockSize.{IsBlockSize};
ghost use Rattle.nvm_geometry.specs.Namespace.{namespace_of};
ghost use Rattle.nvm_geometry.specs.Boundaries.{unit_number, units_of, Crosses};
ghost use Rattle.nvm_geometry.specs.Limits.{IsWithinWriteLimit};
ghost use Rattle.nvm_geometry.specs.Faults.{HasNoFault, IsFirstGeometryFault, IsValid, most_units};
ghost use Rattle.nvm_geometry.specs.Place.{IsPlaceOf};
ghost use Rattle.nvm_geometry.specs.declared.geometry_fault.GeometryFault.{GeometryFault as Fault};

use crate::boundaries::{unit_at, unit_start};
use crate::geometry_fault::GeometryFault;
use crate::large_geometry::LargeGeometry;
use nvm_record::BlockSize;
use std::marker::Model;

/// The most LBAs of a namespace.
pub const MOST_BLOCKS: u64 = 65_536;

/// The most units of a namespace.
pub const MOST_UNITS: u64 = 4096;

/// What a namespace advertises of its size and of its atomic units (NVM Command Set Specification,
/// "Identify Namespace Data Structure" and "Atomic Operation").
///
/// LBAs are numbered from 0 up to NSZE, units from 0 up to [`units`](Geometry::units). No call takes
/// memory.
#[derive(Clone, Copy, Debug, PartialEq, Eq)]
pub struct Geometry {
    large: LargeGeometry,
}

impl Model for Geometry {
    ghost use Rattle.nvm_geometry.specs.Namespace.{Namespace};
    ghost use Rattle.nvm_geometry.specs.Faults.{IsValid};

    ghost Value = { Namespace };

    ghost view = { λ g. g.large };

    ghost invariant = { λ g. IsValid g.large };

    ghost inverse = { λ ns. record { large = ns } };
}

impl Geometry {
    /// The geometry of these numbers, or the first fault that applies to them, in the order of
    /// [`GeometryFault`].
    ///
    /// `nsze` counts LBAs, `block_size` a block's bytes, and `nabo` LBAs; `nabsn`, `nawun` and `nacwu`
    /// count blocks and are zeroes-based. Where `nabsn` is 0 there is no boundary.
    pub fn new(
        nsze: u64,
        block_size: u32,
        nabsn: u16,
        nabo: u16,
        nawun: u16,
        nacwu: u16,
    ) -> Result<Geometry, GeometryFault>
        ensures taken { IfOk result (λ g. g ≡ namespace_of nsze block_size nabsn nabo nawun nacwu) }
        ensures sound { IfOk result (λ g. HasNoFault g) }
        ensures refused { IfErr result (IsFirstGeometryFault (namespace_of nsze block_size nabsn nabo nawun nacwu)) }

        // Where no fault applies the numbers are taken, and else the first that does is answered.
        ensures each_sound { HasNoFault (namespace_of nsze block_size nabsn nabo nawun nacwu)
            → result ≡ Ok (namespace_of nsze block_size nabsn nabo nawun nacwu) }
        ensures each_fault { (f : Fault) → IsFirstGeometryFault (namespace_of nsze block_size nabsn nabo nawun nacwu) f
            → result ≡ Err f }
    {
        if nsze == 0 || nsze > MOST_BLOCKS {
            return Err(GeometryFault::Size);
        }
        let Some(block_size) = BlockSize::new(block_size) else {
            return Err(GeometryFault::BlockSize);
        };
        if nabsn == 0 && nabo != 0 {
            return Err(GeometryFault::OffsetWithoutBoundary);
        }
        if nabsn != 0 && nabo > nabsn {
            return Err(GeometryFault::OffsetAboveBoundary);
        }
        if nabsn != 0 && nawun > nabsn {
            return Err(GeometryFault::WriteUnitAboveBoundary);
        }
        if nabsn != 0 && nacwu > nabsn {
            return Err(GeometryFault::PairUnitAboveBoundary);
        }
        if unit_at(nabsn, nabo, nsze - 1) + 1 > MOST_UNITS {
            return Err(GeometryFault::TooManyUnits);
        }
        let large = LargeGeometry {
            nsze,
            block_size,
            nabsn,
            nabo,
            nawun,
            nacwu,
        };
        Ok(Geometry { large })
    }

    /// NSZE, the number of LBAs: 1 to 65,536.
    pub fn nsze(self) -> u64
        ensures value { result ≡ self.nsze }
        ensures valid { IsValid self }
    {
        self.large.nsze()
    }

    /// How many bytes of data a block has.
    pub fn block_size(self) -> BlockSize
        ensures value { result ≡ self.block_size }
        ensures valid { IsBlockSize result }
    {
        self.large.block_size()
    }

    /// NABSN, the number of blocks from one boundary to the next, zeroes-based. 0 is no boundary.
    pub fn nabsn(self) -> u16
        ensures { result ≡ self.nabsn }
    {
        self.large.nabsn()
    }

    /// NABO, the LBA from which boundaries are counted: at most NABSN.
    pub fn nabo(self) -> u16
        ensures { result ≡ self.nabo }
    {
        self.large.nabo()
    }

    /// NAWUN, the most blocks that a write within the limits has, zeroes-based.
    pub fn nawun(self) -> u16
        ensures { result ≡ self.nawun }
    {
        self.large.nawun()
    }

    /// NACWU, the most blocks that a fused Compare and Write within the limits has, zeroes-based.
    pub fn nacwu(self) -> u16
        ensures { result ≡ self.nacwu }
    {
        self.large.nacwu()
    }

    /// How many units there are: 1 to 4,096.
    pub fn units(self) -> u16
        ensures value { result ≡ units_of self }
        ensures valid { result ≤ most_units }
    {
        self.unit_of(self.nsze() - 1) + 1
    }

    /// The number of the unit in which an LBA below NSZE lies. It takes a constant number of steps.
    pub fn unit_of(self, lba: u64) -> u16
        requires { lba < self.nsze }
        ensures value { result ≡ unit_number self lba }
        ensures valid { result < units_of self }
    {
        unit_at(self.nabsn(), self.nabo(), lba) as u16
    }

    /// The first LBA of a unit, and how many blocks it has. The last unit may be cut short by NSZE, and
    /// the first by NABO. It takes a constant number of steps.
    pub fn unit_range(self, unit: u16) -> (u64, u32)
        requires { unit < units_of self }
        ensures { IsPlaceOf self unit result.0 result.1 }
    {
        if self.nabsn() == 0 {
            return self.large.unit_range(0);
        }
        let first = unit_start(self.nabsn(), self.nabo(), u64::from(unit));
        self.large.unit_range(first)
    }

    /// Whether a write of the range is within the advertised limits: inside one unit, and of at most
    /// NAWUN + 1 blocks.
    pub fn within_write_limit(self, slba: u64, blocks: u32) -> bool
        requires some { 0 < blocks }
        requires in_range { slba + blocks ≤ self.nsze }
        ensures within { IsTrue result ↔ IsWithinWriteLimit self slba blocks }
        ensures beyond { OnFalse result ((self.nawun + 1 < blocks) ⊎ Crosses self slba blocks) }
    {
        blocks <= u32::from(self.nawun()) + 1 && self.large.lies_in_unit(slba, blocks)
    }

    /// Whether the range lies below NSZE, for any first LBA and any number of blocks, 0 too.
    pub fn in_range(self, slba: u64, blocks: u32) -> bool
        ensures { IsTrue result ↔ (slba + blocks ≤ self.nsze) }
    {
        self.large.in_range(slba, blocks)
    }

    /// The same geometry, as one of any size.
    #[inline(always)]
    pub fn large(self) -> LargeGeometry
        ensures { result ≡ self }
    {
        self.large
    }
}
