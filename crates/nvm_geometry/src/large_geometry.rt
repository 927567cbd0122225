ghost use Rattle.std.specs.Prelude.{◌≡◌, ◌⊎◌, ◌↔◌, ℕ, ◌+◌, ◌-◌, ◌<◌, ◌≤◌, IsTrue, IfNone, IfSome};
ghost use Rattle.std.specs.Bool.{OnFalse, OnTrue};
ghost use Rattle.nvm_record.specs.BlockSize.{IsBlockSize};
ghost use Rattle.nvm_record.specs.Ranges.{ranges_of};
ghost use Rattle.nvm_geometry.specs.Boundaries.{Crosses, unit_number};
ghost use Rattle.nvm_geometry.specs.Deallocation.{EndInNamespace};
ghost use Rattle.nvm_geometry.specs.Large.{IsLarge, regions_of};
ghost use Rattle.nvm_geometry.specs.Limits.{LiesInUnit, IsWithinPairLimit};
ghost use Rattle.nvm_geometry.specs.Namespace.{namespace_of};
ghost use Rattle.nvm_geometry.specs.Parts.{blocks_in, piece_in};
ghost use Rattle.nvm_geometry.specs.Place.{IsPlaceOf};

use crate::boundaries::{unit_at, unit_start};
use crate::geometry::MOST_UNITS;
use crate::regions::Regions;
use nvm_record::{BlockSize, LbaRange, range_count};
use std::marker::Model;

/// The most LBAs of a large namespace: 2^40.
pub const MOST_LARGE_BLOCKS: u64 = 1_099_511_627_776;

/// The most LBAs of a large namespace without a boundary, which is one unit: 2^32 - 1.
pub const MOST_UNIT_BLOCKS: u64 = 4_294_967_295;

/// What a namespace advertises of its size and of its atomic units, as [`Geometry`](crate::Geometry) has it, of up to 2^40 LBAs and as many
/// units as these make.
///
/// No call takes memory.
#[derive(Clone, Copy, Debug, PartialEq, Eq)]
pub struct LargeGeometry {
    pub(crate) nsze: u64,
    pub(crate) block_size: BlockSize,
    pub(crate) nabsn: u16,
    pub(crate) nabo: u16,
    pub(crate) nawun: u16,
    pub(crate) nacwu: u16,
}

impl Model for LargeGeometry {
    ghost use Rattle.nvm_geometry.specs.Large.{IsLarge};
    ghost use Rattle.nvm_geometry.specs.Namespace.{Namespace, namespace_of};

    ghost Value = { Namespace };

    ghost view = { λ g. namespace_of g.nsze g.block_size g.nabsn g.nabo g.nawun g.nacwu };

    ghost invariant = { λ g. IsLarge (namespace_of g.nsze g.block_size g.nabsn g.nabo g.nawun g.nacwu) };

    ghost inverse = { λ ns. record {
      nsze = ns.nsze;
      block_size = ns.block_size;
      nabsn = ns.nabsn;
      nabo = ns.nabo;
      nawun = ns.nawun;
      nacwu = ns.nacwu;
    } };
}

impl LargeGeometry {
    /// The geometry of these numbers: those of [`Geometry::new`](crate::Geometry::new), with up to [`MOST_LARGE_BLOCKS`], and without a
    /// boundary up to [`MOST_UNIT_BLOCKS`]. It is `None` where they aren't those of a namespace.
    pub fn new(
        nsze: u64,
        block_size: u32,
        nabsn: u16,
        nabo: u16,
        nawun: u16,
        nacwu: u16,
    ) -> Option<LargeGeometry>
        ensures taken { IfSome result (λ g. g ≡ namespace_of nsze block_size nabsn nabo nawun nacwu) }
        ensures sound { IfSome result IsLarge }
        ensures refused { IfNone result (¬ IsLarge (namespace_of nsze block_size nabsn nabo nawun nacwu)) }
    {
        if nsze == 0 || nsze > MOST_LARGE_BLOCKS {
            return None;
        }
        let block_size = BlockSize::new(block_size)?;
        if nabsn == 0 && (nabo != 0 || nsze > MOST_UNIT_BLOCKS) {
            return None;
        }
        if nabsn != 0 && (nabo > nabsn || nawun > nabsn || nacwu > nabsn) {
            return None;
        }
        Some(LargeGeometry {
            nsze,
            block_size,
            nabsn,
            nabo,
            nawun,
            nacwu,
        })
    }

    /// NSZE, the number of LBAs: 1 to 2^40.
    pub fn nsze(self) -> u64
        ensures value { result ≡ self.nsze }
        ensures valid { IsLarge self }
    {
        self.nsze
    }

    /// How many bytes of data a block has.
    pub fn block_size(self) -> BlockSize
        ensures value { result ≡ self.block_size }
        ensures valid { IsBlockSize result }
    {
        self.block_size
    }

    /// NABSN, the number of blocks from one boundary to the next, zeroes-based. 0 is no boundary.
    pub fn nabsn(self) -> u16
        ensures { result ≡ self.nabsn }
    {
        self.nabsn
    }

    /// NABO, the LBA from which boundaries are counted: at most NABSN.
    pub fn nabo(self) -> u16
        ensures { result ≡ self.nabo }
    {
        self.nabo
    }

    /// NAWUN, the most blocks that a write within the limits has, zeroes-based.
    pub fn nawun(self) -> u16
        ensures { result ≡ self.nawun }
    {
        self.nawun
    }

    /// NACWU, the most blocks that a fused Compare and Write within the limits has, zeroes-based.
    pub fn nacwu(self) -> u16
        ensures { result ≡ self.nacwu }
    {
        self.nacwu
    }

    /// Whether the range lies below NSZE, for any first LBA and any number of blocks, 0 too.
    #[inline(always)]
    pub fn in_range(self, slba: u64, blocks: u32) -> bool
        ensures { IsTrue result ↔ (slba + blocks ≤ self.nsze) }
    {
        let blocks = u64::from(blocks);
        blocks <= self.nsze && slba <= self.nsze - blocks
    }

    /// Whether none of these ranges ends above NSZE. One without a block ends where it begins.
    pub fn ranges_in_range(self, ranges: &[u8]) -> bool
        ensures { IsTrue result ↔ EndInNamespace self (ranges_of ranges.now) }
    {
        for place in 0..range_count(ranges) {
            let range = LbaRange::at(ranges, place);
            if !self.in_range(range.first, range.blocks) {
                return false;
            }
        }
        true
    }

    /// The LBA at which the unit ends in which this LBA lies: the first of the next unit, or NSZE. It takes a constant number of steps.
    #[inline(always)]
    pub fn unit_end(self, lba: u64) -> u64
        requires { lba < self.nsze }
        ensures above { lba < result }
        ensures inside { result ≤ self.nsze }
        ensures lies { (x : ℕ) → lba ≤ x → x < result → unit_number self x ≡ unit_number self lba }
        ensures next { result < self.nsze → unit_number self result ≡ unit_number self lba + 1 }
    {
        if self.nabsn == 0 {
            return self.nsze;
        }
        let unit = unit_at(self.nabsn, self.nabo, lba);
        unit_start(self.nabsn, self.nabo, unit + 1).min(self.nsze)
    }

    /// The first LBA of the unit in which this LBA lies, and how many blocks that has. It takes a constant number of steps.
    pub fn unit_range(self, lba: u64) -> (u64, u32)
        requires { lba < self.nsze }
        ensures { IsPlaceOf self (unit_number self lba) result.0 result.1 }
    {
        if self.nabsn == 0 {
            return (0, self.nsze as u32);
        }
        let unit = unit_at(self.nabsn, self.nabo, lba);
        let first = unit_start(self.nabsn, self.nabo, unit);
        let next = unit_start(self.nabsn, self.nabo, unit + 1);
        (first, (next.min(self.nsze) - first) as u32)
    }

    /// The part of a range in the unit in which this LBA lies: its first LBA, and how many blocks. It is `None` where no LBA of the range lies
    /// there. It takes a constant number of steps.
    pub fn piece_at(self, lba: u64, slba: u64, blocks: u32) -> Option<(u64, u32)>
        requires known { lba < self.nsze }
        requires in_range { slba + blocks ≤ self.nsze }
        ensures first { IfSome result (λ piece. piece.0 ≡ (piece_in self slba blocks (unit_number self lba)).first) }
        ensures blocks { IfSome result (λ piece. piece.1 ≡ (piece_in self slba blocks (unit_number self lba)).blocks) }
        ensures none { IfNone result (blocks_in self slba blocks (unit_number self lba) ≡ 0) }

        // It has a block, and lies in the range.
        ensures some { IfSome result (λ piece. 0 < piece.1) }
        ensures within { IfSome result (λ piece. (slba ≤ piece.0) × (piece.0 + piece.1 ≤ slba + blocks)) }
    {
        let (start, count) = self.unit_range(lba);
        let first = slba.max(start);
        let past = (slba + u64::from(blocks)).min(start + u64::from(count));
        if past <= first {
            return None;
        }
        Some((first, (past - first) as u32))
    }

    /// Whether the range lies in one unit: no boundary lies inside it, above its first LBA and at most its last. It takes a constant number
    /// of steps.
    #[inline(always)]
    pub fn lies_in_unit(self, slba: u64, blocks: u32) -> bool
        requires some { 0 < blocks }
        requires in_range { slba + blocks ≤ self.nsze }
        ensures one_unit { OnTrue result (LiesInUnit self slba blocks) }
        ensures crossed { OnFalse result (Crosses self slba blocks) }
    {
        slba + u64::from(blocks) <= self.unit_end(slba)
    }

    /// Whether a fused Compare and Write of the range is within the advertised limits: inside one unit, and of at most NACWU + 1 blocks.
    #[inline(always)]
    pub fn within_pair_limit(self, slba: u64, blocks: u32) -> bool
        requires some { 0 < blocks }
        requires in_range { slba + blocks ≤ self.nsze }
        ensures within { IsTrue result ↔ IsWithinPairLimit self slba blocks }
        ensures beyond { OnFalse result ((self.nacwu + 1 < blocks) ⊎ Crosses self slba blocks) }
    {
        blocks <= u32::from(self.nacwu) + 1 && self.lies_in_unit(slba, blocks)
    }

    /// Its regions: at most 4,096, each of whole units. It takes a constant number of steps.
    pub fn regions(self) -> Regions
        ensures { result ≡ regions_of self }
    {
        let units = unit_at(self.nabsn, self.nabo, self.nsze - 1) + 1;
        let count = (units + (MOST_UNITS - 1)) / MOST_UNITS;
        let length = u64::from(self.nabsn) + 1;
        let nabo = if self.nabo == 0 {
            0
        } else {
            u64::from(self.nabo) + (count - 1) * length
        };
        Regions {
            nsze: self.nsze,
            block_size: self.block_size,
            nabsn: count * length - 1,
            nabo,
            nawun: self.nawun,
            nacwu: self.nacwu,
        }
    }
}
