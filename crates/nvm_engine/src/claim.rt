ghost use Rattle.std.specs.Prelude.{◌≡◌, [], ◌∷◌};
ghost use Rattle.nvm_engine.specs.Inside.Plays.{resting};

use crate::steps::Token;
use std::marker::Model;

/// A worker's token at one counter. It has no bytes, and carries which numbers the worker has drawn.
///
/// Contracts see which counter it is of, and those numbers in their order. A claim that is dropped makes it
/// impossible to close the counter.
#[derive(Drop)]
pub struct Claim {
    pub(crate) token: Token,
}

impl Model for Claim {
    ghost use Rattle.std.specs.Prelude.{◌≡◌, [], ◌∷◌};
    ghost use Rattle.nvm_engine.specs.Inside.Plays.{resting};
    ghost use Rattle.nvm_engine.specs.Inside.Seats.{only};
    ghost use Rattle.nvm_engine.specs.Counters.{ClaimView};

    ghost Value = { ClaimView };

    ghost view = { λ c. record { table = c.token.seat.table_id; drawn = only c.token.seat.me.0 } };

    ghost invariant = { λ c. c.token.seat.me ≡ resting (only c.token.seat.me.0 ∷ []) };
}

impl Claim {
    /// Its token.
    pub(crate) fn into_token(self) -> Token
        ensures table { result.seat.table_id ≡ self.table }
        ensures me { result.seat.me ≡ resting (self.drawn ∷ []) }
    {
        let Claim { token } = self;
        token
    }
}
