//! A box by its address alone.
ghost use Rattle.std.specs.Prelude.{◌≡◌};
ghost use Rattle.std.specs.Box.{box_allocator};
ghost use Rattle.std.specs.Box.Ownership.{box_owns};

use std::alloc::Allocator;
use std::marker::{Model, PhantomData};

/// Where a boxed value lies. The allocator is not kept: it's brought again when the box is made again.
pub(crate) struct Address<T, A: Allocator> {
    pub(crate) at: *mut T,
    pub(crate) by: PhantomData<A>,
    pub(crate) ghost owner: { A },
    pub(crate) ghost value: { T },
}

impl<T, A: Allocator> Model for Address<T, A> {
    ghost also_owns = { λ p. box_owns (A.dealloc_token p.owner) T.row p.at p.value };
}

/// Where the value lies, whose box ends.
pub(crate) fn address_of<T: Drop, A: Allocator>(whole: Box<T, A>) -> Address<T, A>
    ensures { (result.value ≡ whole.value) × (result.owner ≡ box_allocator whole) }
{
    Address {
        at: Box::into_raw(whole),
        by: PhantomData,
    }
}

/// The box of the value that lies there.
pub(crate) fn box_at<T, A: Allocator>(alloc: A, place: Address<T, A>) -> Box<T, A>
    requires { place.owner ≡ alloc }
    ensures { result.value ≡ place.value }
{
    let Address { at, by: _ } = place;
    unsafe { Box::from_raw(alloc, at) }
}
