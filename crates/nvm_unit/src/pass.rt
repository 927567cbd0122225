ghost use Rattle.std.specs.Prelude.{◌≡◌, [], ◌∷◌};
ghost use Rattle.nvm_unit.specs.Passes.{IsProperPass};
ghost use Rattle.nvm_unit.specs.Inside.Plays.{resting};

use crate::kept::Kept;
use crate::snapshot::Snapshot;
use crate::steps::Token;
use nvm_store::History;
use std::marker::Model;

/// A caller's token at one unit. It carries what its owner has seen of the unit's history.
///
/// Contracts see which unit it is of, its view, and whether it keeps a version. A pass that is dropped makes it
/// impossible to close the unit.
#[derive(Drop)]
pub struct Pass<K: Kept = History> {
    pub(crate) parts: Parts<K>,
}

/// What a pass is made of. It is a pass only while its token doesn't hold the unit.
#[derive(Drop)]
pub struct Parts<K: Kept> {
    pub(crate) token: Token<K>,
    pub(crate) number: u16,
    /// Of the last point that the token's owner has seen.
    pub(crate) snapshot: Snapshot,
}

impl<K: Kept> Model for Pass<K> {
    ghost use Rattle.nvm_unit.specs.Passes.{PassState};
    ghost use Rattle.nvm_unit.specs.Inside.Parts.{IsWhole, state_of};

    ghost Value = { PassState };

    ghost view = { λ p. state_of p.parts };

    ghost invariant = { λ p. IsWhole p.parts };
}

impl<K: Kept> Pass<K> {
    /// Its number. The passes of a unit are numbered from 0.
    pub fn number(&self) -> u16
        ensures number { result ≡ self.now.view.number }
        ensures proper { IsProperPass self.now.view }
    {
        self.parts.number
    }

    /// Whether it can be asked for a [`look`](crate::Unit::look) that needs no memory: it keeps the unit's blocks as they
    /// were at the last point that it has seen. In a unit with versions it always does, unless those blocks had
    /// 2^63 - 1 owners already. It takes no memory.
    pub fn keeps(&self) -> bool
        ensures { result ≡ self.now.keeps }
    {
        self.parts.snapshot.keeps()
    }

    /// Its seat.
    pub(crate) fn into_token(self) -> Token<K>
        ensures table { result.seat.table_id ≡ self.table }
        ensures me { result.seat.me ≡ resting (self.view ∷ []) }
    {
        let Pass {
            parts: Parts {
                token,
                number: _,
                snapshot: _,
            },
        } = self;
        token
    }
}
