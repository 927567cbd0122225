ghost use Rattle.std.specs.Prelude.{◌≡◌, MatchResult, length};

use crate::equality::are_equal;
use crate::payload::Payload;
use std::alloc::AllocError;
use std::cmp::{Eq, PartialEq};
use std::marker::Model;

/// The data that a Read is answered: bytes, which contracts see as their list.
///
/// It owns a `Vec`, or shares the bytes of a [`Payload`](crate::Payload), such as those of the file that it was read from.
/// Neither way takes memory.
#[derive(Debug, Drop)]
pub struct ReadData {
    held: Held,
}

#[derive(Debug, Drop)]
enum Held {
    Own(Vec<u8>),
    Shared(Payload),
}

impl Model for ReadData {
    ghost use Rattle.std.specs.Prelude.{List, ℕ};
    ghost use Rattle.nvm_record.specs.ReadBytes.{read_bytes};

    ghost Value = { List ℕ };

    ghost view = { λ read. read_bytes read.held };
}

/// Two are equal where their bytes are, shared or not.
impl PartialEq for ReadData {
    ghost use Rattle.std.specs.Prelude.{nat_eq};
    ghost use Rattle.std.specs.Cmp.{partial_equiv_from_equiv};
    ghost use Rattle.std.specs.Cmp.Lexicographic.{pointwise, nat_list_eq_equiv};

    ghost eq = { pointwise nat_eq };

    ghost laws = { partial_equiv_from_equiv nat_list_eq_equiv };

    fn eq(&self, other: &ReadData) -> bool {
        are_equal(self.as_slice(), other.as_slice())
    }
}

impl Eq for ReadData {
    ghost use Rattle.std.specs.Cmp.Lexicographic.{nat_list_eq_equiv};

    ghost laws = { nat_list_eq_equiv };
}

/// A copy of bytes of its own takes memory; shared bytes are shared once more.
impl Clone for ReadData {
    ghost is_clone = { λ read copy. copy ≡ read };

    fn clone(&self) -> Result<ReadData, AllocError> {
        let held = match &self.held {
            Held::Own(bytes) => Held::Own(bytes.clone()?),
            Held::Shared(payload) => Held::Shared(payload.share()?),
        };
        Ok(ReadData { held })
    }
}

impl ReadData {
    /// The bytes of `bytes`, which aren't copied.
    pub fn new(bytes: Vec<u8>) -> ReadData
        ensures { result ≡ bytes.items }
    {
        ReadData {
            held: Held::Own(bytes),
        }
    }

    /// The bytes of `payload`, which stay shared.
    pub fn shared(payload: Payload) -> ReadData
        ensures { result ≡ payload }
    {
        ReadData {
            held: Held::Shared(payload),
        }
    }

    /// The bytes.
    pub fn as_slice(&self) -> &[u8]
        ensures { result.now ≡ self.now }
    {
        match &self.held {
            Held::Own(bytes) => bytes.as_slice(),
            Held::Shared(payload) => payload.as_slice(),
        }
    }

    /// The bytes as the `Vec` that holds them, which isn't copied. Shared bytes are given back.
    pub fn into_vec(self) -> Result<Vec<u8>, ReadData>
        ensures { MatchResult result (λ bytes. bytes.items ≡ self) (λ shared. shared ≡ self) }
    {
        let ReadData { held } = self;
        match held {
            Held::Own(bytes) => Ok(bytes),
            Held::Shared(payload) => Err(ReadData::shared(payload)),
        }
    }

    /// How many bytes there are.
    pub fn len(&self) -> usize
        ensures { result ≡ length self.now }
    {
        match &self.held {
            Held::Own(bytes) => bytes.len(),
            Held::Shared(payload) => payload.len(),
        }
    }
}
