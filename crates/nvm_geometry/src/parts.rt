ghost use Rattle.std.specs.Prelude.{◌≡◌, ◌+◌, ◌<◌, ◌≤◌, length, IfSome, IfNone};
ghost use Rattle.nvm_geometry.specs.Boundaries.{units_of};

use crate::geometry::Geometry;
use crate::piece::Piece;
use std::marker::Model;

/// The pieces of a range, one for each unit that it meets, ascending: what
/// [`Geometry::parts`](crate::Geometry::parts) gives. A piece takes a constant number of steps.
///
/// A contract sees it as the list of the pieces that are left.
#[derive(Debug, Drop)]
pub struct Parts {
    geometry: Geometry,
    at: u64,
    left: u32,
}

impl Model for Parts {
    ghost use Rattle.std.specs.Prelude.{List, ◌+◌, ◌≤◌};
    ghost use Rattle.nvm_geometry.specs.declared.piece.Piece.{Piece};
    ghost use Rattle.nvm_geometry.specs.Parts.{pieces_of};

    ghost Value = { List Piece };

    ghost view = { λ p. pieces_of p.geometry p.at p.left };

    ghost invariant = { λ p. p.at + p.left ≤ p.geometry.nsze };
}

impl Geometry {
    ghost use Rattle.nvm_geometry.specs.Parts.{blocks_in, piece_in, pieces_of, units_of_range, IsInUnit};

    /// The range cut at the boundaries: a piece for each unit that it meets, ascending.
    pub fn parts(self, slba: u64, blocks: u32) -> Parts
        requires some { 0 < blocks }
        requires in_range { slba + blocks ≤ self.nsze }
        ensures { result ≡ pieces_of self slba blocks }
    {
        Parts::new(self, slba, blocks)
    }

    /// How many units the range meets, which is how many parts it has: 0 where it has no block. It takes
    /// a constant number of steps.
    pub fn piece_count(self, slba: u64, blocks: u32) -> u16
        requires { slba + blocks ≤ self.nsze }
        ensures value { result ≡ length (units_of_range self slba blocks) }
        ensures valid { result ≤ units_of self }
    {
        if blocks == 0 {
            return 0;
        }
        let last = slba + u64::from(blocks) - 1;
        self.unit_of(last) - self.unit_of(slba) + 1
    }

    /// The part of the range in a unit: `None` where no LBA of the range lies in the unit, or no unit has
    /// that number. It takes a constant number of steps.
    pub fn piece_in(self, unit: u16, slba: u64, blocks: u32) -> Option<Piece>
        requires { slba + blocks ≤ self.nsze }
        ensures part { IfSome result (λ p. p ≡ piece_in self slba blocks unit) }
        ensures none { IfNone result (blocks_in self slba blocks unit ≡ 0) }

        // The part has a block, lies in the unit, and lies in the range.
        ensures some { IfSome result (λ p. 0 < p.blocks) }
        ensures inside { IfSome result (IsInUnit self) }
        ensures within { IfSome result (λ p. (slba ≤ p.first) × (p.first + p.blocks ≤ slba + blocks)) }
    {
        if unit >= self.units() {
            return None;
        }
        let (start, _) = self.unit_range(unit);
        let (first, blocks) = self.large().piece_at(start, slba, blocks)?;
        Some(Piece {
            unit,
            first,
            blocks,
        })
    }
}

impl Parts {
    ghost use Rattle.nvm_geometry.specs.Parts.{pieces_of};

    /// The pieces of the range.
    fn new(geometry: Geometry, slba: u64, blocks: u32) -> Parts
        requires { slba + blocks ≤ geometry.nsze }
        ensures { result ≡ pieces_of geometry slba blocks }
    {
        Parts {
            geometry,
            at: slba,
            left: blocks,
        }
    }
}

impl Iterator for Parts {
    ghost use Rattle.std.specs.Iterator.{YieldsFirst, item_count};

    type Item = Piece;

    ghost next_gives = { YieldsFirst (λ pieces. pieces) };

    ghost remaining = { item_count (λ pieces. pieces) };

    fn next(&mut self) -> Option<Piece> {
        if self.left == 0 {
            return None;
        }
        let unit = self.geometry.unit_of(self.at);
        let (first, blocks) = self.geometry.unit_range(unit);
        let to_end = first + u64::from(blocks) - self.at;
        let blocks = to_end.min(u64::from(self.left)) as u32;
        let piece = Piece {
            unit,
            first: self.at,
            blocks,
        };
        self.at += u64::from(blocks);
        self.left -= blocks;
        Some(piece)
    }
}
