//! What a writer was handed, which contracts alone see.
ghost use Rattle.std.specs.Prelude.{◌≡◌, List, ℕ};
ghost use Rattle.std.specs.Borrow.{ftrue};

use std::marker::Model;

/// Bytes that were handed over and not kept. It has no bytes of its own, and what makes it does nothing at run time.
#[derive(Drop)]
pub struct Handed {
    pub ghost bytes: { List ℕ },
}

impl Model for Handed {
    ghost also_owns = { λ _. ftrue };
}

/// What is handed over.
#[derive(Clone, Copy)]
pub enum Handing<'a> {
    /// Nothing yet.
    Nothing,
    /// What was handed over before, and then these bytes.
    More { before: &'a Handed, bytes: &'a [u8] },
}

impl Handed {
    ghost use Rattle.nvm_c.specs.Inside.Handing.{bytes_handed};

    /// The bytes that were handed over.
    #[inline(always)]
    pub fn by(_handing: &Handing<'_>) -> Handed
        ensures { result.bytes ≡ bytes_handed _handing.now }
    {
        Handed {}
    }
}
