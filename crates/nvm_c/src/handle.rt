//! How C holds an engine: by the address of its block.
ghost use Rattle.std.specs.Prelude.{◌≡◌, Option, Some, None, IsSome, IfSome, IfNone, is_some};
ghost use Rattle.nvm_c.specs.Engines.{IsSound};
ghost use Rattle.nvm_c.specs.Held.{held_at};
ghost use Rattle.nvm_c.specs.declared.engine.Engine.{Engine as Inside};

use crate::address::{Address, address_of, box_at};
use crate::engine::Engine;
use std::alloc::Global;
use std::marker::{Model, PhantomData};
use std::mem::replace;
use std::ptr::null_mut;

/// The address of an engine, or none.
#[repr(C)]
#[derive(Drop)]
pub struct Held {
    at: *mut u8,
    pub ghost engine: { Option Inside },
}

impl Model for Held {
    ghost also_owns = { λ h. held_at h.at h.engine };
}

/// What C has of a port. Bytes of 0 are a port that isn't open.
#[repr(C)]
#[derive(Drop)]
pub struct Handle {
    is_open: bool,
    held: Held,
    /// It keeps the handles of two threads off one cache line.
    apart: [u64; 6],
    ghost tied: { is_open ≡ is_some held.engine },
}

/// No engine.
fn nothing() -> Held
    ensures { result.engine ≡ None }
{
    Held { at: null_mut() }
}

/// The engine that lies there, in C's hands.
fn sealed(place: Address<Engine, Global>) -> Held
    requires { IsSound place.value }
    ensures { result.engine ≡ Some place.value }
{
    let Address { at, by: _ } = place;
    Held { at: at as *mut u8 }
}

/// The engine that C had.
fn unsealed(held: Held) -> Address<Engine, Global>
    requires { IsSome held.engine }
    ensures { (held.engine ≡ Some result.value) × IsSound result.value }
{
    let Held { at } = held;
    Address {
        at: at as *mut Engine,
        by: PhantomData,
    }
}

/// Asks that the value may go to another thread, since C may take a port there.
fn may_change_threads<T: Send>(_value: &T) {}

impl Handle {
    /// A handle on the engine.
    pub(crate) fn of(engine: Box<Engine>) -> Handle
        requires { IsSound engine.value }
        ensures { result.held.engine ≡ Some engine.value }
    {
        may_change_threads(&*engine);
        Handle {
            is_open: true,
            held: sealed(address_of(engine)),
            apart: [0; 6],
        }
    }

    /// Whether it holds an engine.
    pub(crate) fn is_open(&self) -> bool
        ensures { result ≡ is_some self.now.held.engine }
    {
        self.is_open
    }

    /// Takes its engine, and leaves it without.
    pub(crate) fn take(&mut self, alloc: Global) -> Option<Box<Engine>>
        ensures shut { self.new.held.engine ≡ None }
        ensures none { IfNone result (self.old.held.engine ≡ None) }
        ensures some { IfSome result (λ b. self.old.held.engine ≡ Some b.value) }
        ensures sound { IfSome result (λ b. IsSound b.value) }
    {
        if !self.is_open {
            return None;
        }
        self.is_open = false;
        let held = replace(&mut self.held, nothing());
        Some(box_at(alloc, unsealed(held)))
    }

    /// Holds the engine.
    pub(crate) fn put(&mut self, engine: Box<Engine>)
        requires { IsSound engine.value }
        ensures { self.new.held.engine ≡ Some engine.value }
    {
        may_change_threads(&*engine);
        self.is_open = true;
        self.held = sealed(address_of(engine));
    }
}
