ghost use Rattle.std.specs.Prelude.{◌≡◌, ◌↔◌, ◌≤◌, [], IsTrue, IfOk, false, length, slice_range, true};
ghost use Rattle.nvm_record.specs.SharedBytes.{shared_bytes};

use crate::NoMemory;
use crate::equality::are_equal;
use std::alloc::Global;
use std::cmp::{Eq, PartialEq};
use std::fmt;
use std::fmt::{Debug, Formatter, Write};
use std::marker::Model;
use std::sync::Arc;

/// Data of a command or of blocks: bytes, which contracts see as their list.
///
/// Payloads share their bytes: a share, or a part of a payload, takes no memory and copies nothing. The
/// bytes are freed with the last payload that shares them.
///
/// Payloads that came from one another by [`Payload::share`] and [`Payload::part`] count their owners in one
/// word. Threads that share them all the time wait for that word, so a part can have a count of its own
/// ([`Payload::own_part`]).
#[derive(Drop)]
pub struct Payload {
    whole: Option<Arc<Arc<Vec<u8>>>>,
    from: usize,
    to: usize,
}

impl Model for Payload {
    ghost use Rattle.std.specs.Prelude.{List, ℕ, ◌≤◌, length, slice_range};
    ghost use Rattle.nvm_record.specs.SharedBytes.{shared_bytes};

    ghost Value = { List ℕ };

    ghost view = { λ p. slice_range (shared_bytes p.whole) p.from p.to };

    ghost invariant = { λ p. (p.from ≤ p.to) × (p.to ≤ length (shared_bytes p.whole)) };
}

/// Two are equal where their bytes are, shared or not.
impl PartialEq for Payload {
    ghost use Rattle.std.specs.Prelude.{nat_eq};
    ghost use Rattle.std.specs.Cmp.{partial_equiv_from_equiv};
    ghost use Rattle.std.specs.Cmp.Lexicographic.{pointwise, nat_list_eq_equiv};

    ghost eq = { pointwise nat_eq };

    ghost laws = { partial_equiv_from_equiv nat_list_eq_equiv };

    fn eq(&self, other: &Payload) -> bool {
        are_equal(self.as_slice(), other.as_slice())
    }
}

impl Eq for Payload {
    ghost use Rattle.std.specs.Cmp.Lexicographic.{nat_list_eq_equiv};

    ghost laws = { nat_list_eq_equiv };
}

/// A copy shares the bytes, as [`Payload::share`] does.
impl Clone for Payload {
    ghost is_clone = { λ payload copy. copy ≡ payload };

    fn clone(&self) -> Result<Payload, NoMemory> {
        self.share()
    }
}

impl Debug for Payload {
    fn fmt<W: Write>(&self, f: &mut Formatter<W>) -> fmt::Result {
        Debug::fmt(self.as_slice(), f)
    }
}

impl Payload {
    /// No bytes. It takes no memory.
    pub fn empty() -> Payload
        ensures { result ≡ [] }
    {
        Payload {
            whole: None,
            from: 0,
            to: 0,
        }
    }

    /// The bytes of `bytes`, which aren't copied. It takes two small blocks of memory; where one of them is
    /// refused, the bytes are let go of.
    pub fn new(alloc: Global, bytes: Vec<u8>) -> Result<Payload, NoMemory>
        ensures { IfOk result (λ p. p ≡ bytes.items) }
    {
        let to = bytes.len();
        let bytes = Arc::new(alloc, bytes)?;
        let whole = Arc::new(alloc, bytes)?;
        Ok(Payload {
            whole: Some(whole),
            from: 0,
            to,
        })
    }

    /// A copy of `bytes`. Of none it takes no memory.
    pub fn copy_of(alloc: Global, bytes: &[u8]) -> Result<Payload, NoMemory>
        ensures { IfOk result (λ p. p ≡ bytes.now) }
    {
        if bytes.is_empty() {
            return Ok(Payload::empty());
        }
        let bytes = Vec::from_slice(alloc, bytes)?;
        Payload::new(alloc, bytes)
    }

    /// The bytes.
    #[inline(always)]
    pub fn as_slice(&self) -> &[u8]
        ensures { result.now ≡ self.now }
    {
        match &self.whole {
            Some(whole) => &whole[self.from..self.to],
            None => &[],
        }
    }

    /// The same bytes, shared. It takes no memory, and is refused only where 2^63 - 1 payloads share
    /// them already.
    #[inline(always)]
    pub fn share(&self) -> Result<Payload, NoMemory>
        ensures { IfOk result (λ p. p ≡ self.now) }
    {
        let whole = one_more_owner(&self.whole)?;
        Ok(Payload {
            whole,
            from: self.from,
            to: self.to,
        })
    }

    /// The bytes from place `from` up to place `to`, shared. It takes no memory, and is refused only
    /// where 2^63 - 1 payloads share them already. A part of no bytes shares nothing.
    #[inline(always)]
    pub fn part(&self, from: usize, to: usize) -> Result<Payload, NoMemory>
        requires ordered { from ≤ to }
        requires within { to ≤ length self.now }
        ensures { IfOk result (λ p. p ≡ slice_range self.now from to) }
    {
        if from == to {
            return Ok(Payload::empty());
        }
        let whole = one_more_owner(&self.whole)?;
        Ok(Payload {
            whole,
            from: self.from + from,
            to: self.from + to,
        })
    }

    /// The bytes from place `from` up to place `to`, shared, with a count of owners that starts anew. It takes one
    /// small block of memory, and is refused also where 2^63 - 1 such parts share them already. A part of no
    /// bytes shares nothing, and takes no memory.
    #[inline(always)]
    pub fn own_part(&self, alloc: Global, from: usize, to: usize) -> Result<Payload, NoMemory>
        requires ordered { from ≤ to }
        requires within { to ≤ length self.now }
        ensures { IfOk result (λ p. p ≡ slice_range self.now from to) }
    {
        if from == to {
            return Ok(Payload::empty());
        }
        let whole = new_count(alloc, &self.whole)?;
        Ok(Payload {
            whole,
            from: self.from + from,
            to: self.from + to,
        })
    }

    /// The bytes as a `Vec`: the one that holds them, where nobody shares it and they are all of it, and
    /// else a copy.
    pub fn into_vec(self, alloc: Global) -> Result<Vec<u8>, NoMemory>
        ensures { IfOk result (λ v. v.items ≡ self) }
    {
        let Payload { whole, from, to } = self;
        let Some(whole) = whole else {
            return Ok(Vec::new(alloc));
        };
        if from > 0 || to < whole.len() {
            return Vec::from_slice(alloc, &whole[from..to]);
        }
        let bytes = match Arc::try_unwrap(whole) {
            Ok(bytes) => bytes,
            Err(shared) => return Vec::from_slice(alloc, shared.as_slice()),
        };
        match Arc::try_unwrap(bytes) {
            Ok(bytes) => Ok(bytes),
            Err(shared) => Vec::from_slice(alloc, shared.as_slice()),
        }
    }

    /// Puts these bytes in the place of its own, and says whether it did. It does where nobody shares its memory, which has its bytes and
    /// no others, and these are as many. It takes no memory.
    #[inline(always)]
    pub fn overwrite(&mut self, bytes: &[u8]) -> bool
        ensures taken { result ≡ true → self.new ≡ bytes.now }
        ensures left { result ≡ false → self.new ≡ self.old }
    {
        let Some(whole) = &mut self.whole else {
            return false;
        };
        let Some(shared) = Arc::get_mut(whole) else {
            return false;
        };
        let Some(own) = Arc::get_mut(shared) else {
            return false;
        };
        if self.from > 0 || self.to != own.len() || bytes.len() != own.len() {
            return false;
        }
        own.copy_from_slice(bytes);
        true
    }

    /// How many bytes there are.
    #[inline(always)]
    pub fn len(&self) -> usize
        ensures { result ≡ length self.now }
    {
        self.to - self.from
    }

    /// Whether there are none.
    pub fn is_empty(&self) -> bool
        ensures { IsTrue result ↔ (self.now ≡ []) }
    {
        self.as_slice().is_empty()
    }
}

/// One more owner of what is shared, in the same count.
fn one_more_owner(whole: &Option<Arc<Arc<Vec<u8>>>>) -> Result<Option<Arc<Arc<Vec<u8>>>>, NoMemory>
    ensures { IfOk result (λ w. shared_bytes w ≡ shared_bytes whole.now) }
{
    match whole {
        Some(whole) => Ok(Some(Arc::try_clone(whole)?)),
        None => Ok(None),
    }
}

/// One more owner of what is shared, the first in a count of its own.
fn new_count(
    alloc: Global,
    whole: &Option<Arc<Arc<Vec<u8>>>>,
) -> Result<Option<Arc<Arc<Vec<u8>>>>, NoMemory>
    ensures { IfOk result (λ w. shared_bytes w ≡ shared_bytes whole.now) }
{
    match whole {
        Some(whole) => {
            let bytes = Arc::try_clone(&**whole)?;
            Ok(Some(Arc::new(alloc, bytes)?))
        }
        None => Ok(None),
    }
}
