ghost use Rattle.std.specs.Prelude.{◌≡◌, ◌≤◌, IfOk, length, slice_range};
ghost use Rattle.nvm_record.specs.PayloadRef.{lent_bytes};

use super::PayloadRef;
use crate::NoMemory;
use crate::equality::are_equal;
use crate::payload::Payload;
use std::alloc::Global;
use std::cmp::{Eq, PartialEq};
use std::fmt;
use std::fmt::{Debug, Formatter, Write};

/// Two are equal where their bytes are.
impl PartialEq for PayloadRef<'_> {
    ghost use Rattle.std.specs.Prelude.{nat_eq};
    ghost use Rattle.std.specs.Cmp.{on_per, partial_equiv_from_equiv};
    ghost use Rattle.std.specs.Cmp.Lexicographic.{pointwise, nat_list_eq_equiv};
    ghost use Rattle.nvm_record.specs.PayloadRef.{lent_bytes};

    ghost eq = { λ a b. pointwise nat_eq (lent_bytes a) (lent_bytes b) };

    ghost laws = { on_per lent_bytes (partial_equiv_from_equiv nat_list_eq_equiv) };

    fn eq(&self, other: &Self) -> bool {
        are_equal(self.as_slice(), other.as_slice())
    }
}

impl Eq for PayloadRef<'_> {
    ghost use Rattle.std.specs.Cmp.{on_equiv};
    ghost use Rattle.std.specs.Cmp.Lexicographic.{nat_list_eq_equiv};
    ghost use Rattle.nvm_record.specs.PayloadRef.{lent_bytes};

    ghost laws = { on_equiv lent_bytes nat_list_eq_equiv };
}

impl Debug for PayloadRef<'_> {
    fn fmt<W: Write>(&self, f: &mut Formatter<W>) -> fmt::Result {
        Debug::fmt(self.as_slice(), f)
    }
}

impl<'a> PayloadRef<'a> {
    /// Bytes that no payload has. A share copies them.
    #[tactic(auto, unfolding(crate::specs::PayloadRef::lent_bytes))]
    #[inline(always)]
    pub fn of(bytes: &'a [u8]) -> PayloadRef<'a>
        ensures { lent_bytes result ≡ bytes.now }
    {
        PayloadRef {
            bytes,
            whole: None,
            from: 0,
        }
    }

    /// The bytes.
    #[inline(always)]
    #[tactic(auto, unfolding(crate::specs::PayloadRef::lent_bytes))]
    pub fn as_slice(self) -> &'a [u8]
        ensures { result.now ≡ lent_bytes self.entry }
    {
        self.bytes
    }

    /// How many bytes there are.
    #[tactic(auto, unfolding(crate::specs::PayloadRef::lent_bytes))]
    pub fn len(self) -> usize
        ensures { result ≡ length (lent_bytes self.entry) }
    {
        self.bytes.len()
    }

    /// Whether a payload has them, so that a share copies nothing. No clause hangs on it: only what memory a share takes.
    #[inline(always)]
    pub fn is_shared(self) -> bool {
        self.whole.is_some()
    }

    /// The bytes from place `from` up to place `to`, which is left out, lent. It takes no memory.
    #[tactic(auto, unfolding(crate::specs::PayloadRef::lent_bytes))]
    #[inline(always)]
    pub fn part(self, from: usize, to: usize) -> PayloadRef<'a>
        requires ordered { from ≤ to }
        requires within { to ≤ length (lent_bytes self) }
        ensures { lent_bytes result ≡ slice_range (lent_bytes self.entry) from to }
    {
        match self.whole {
            Some(payload) => {
                // A length fits, so each place up to it does.
                let _len = payload.len();
                payload.lend_part(self.from + from, self.from + to)
            }
            None => PayloadRef::of(&self.bytes[from..to]),
        }
    }

    /// The bytes, shared. Those of a payload take no memory, and are refused only where 2^63 - 1 payloads share them
    /// already. Others are copied.
    #[tactic(auto, unfolding(crate::specs::PayloadRef::lent_bytes))]
    #[inline(always)]
    pub fn share(self, alloc: Global) -> Result<Payload, NoMemory>
        ensures { IfOk result (λ p. p ≡ lent_bytes self.entry) }
    {
        match self.whole {
            Some(payload) => {
                // A length fits, so each place up to it does.
                let _len = payload.len();
                payload.part(self.from, self.from + self.bytes.len())
            }
            None => Payload::copy_of(alloc, self.bytes),
        }
    }
}

impl Payload {
    /// The bytes, lent.
    #[inline(always)]
    #[tactic(auto, unfolding(crate::specs::PayloadRef::lent_bytes))]
    pub fn lend(&self) -> PayloadRef<'_>
        ensures { lent_bytes result ≡ self.now }
    {
        PayloadRef {
            bytes: self.as_slice(),
            whole: Some(self),
            from: 0,
        }
    }

    /// The bytes from place `from` up to place `to`, which is left out, lent. It takes no memory.
    #[tactic(auto, unfolding(crate::specs::PayloadRef::lent_bytes))]
    #[inline(always)]
    pub fn lend_part(&self, from: usize, to: usize) -> PayloadRef<'_>
        requires ordered { from ≤ to }
        requires within { to ≤ length self.now }
        ensures { lent_bytes result ≡ slice_range self.now from to }
    {
        PayloadRef {
            bytes: &self.as_slice()[from..to],
            whole: Some(self),
            from,
        }
    }
}
