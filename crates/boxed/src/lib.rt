//! A value on the heap that contracts see as the value itself: its owner stays small, and is moved and cleared at
//! little cost.
#![tactic(auto)]

ghost use Rattle.std.specs.Prelude.{◌≡◌, IfOk};
ghost use Rattle.std.specs.Borrow.{Lends, sem};
ghost use Rattle.boxed.specs.contracts.Boxed.{the_row};

use std::alloc::{AllocError, Global};
use std::marker::Model;

/// A value on the heap.
#[derive(Drop)]
pub struct Boxed<T> {
    inner: Box<T>,
}

impl<T> Model for Boxed<T> {
    ghost use Rattle.std.specs.Prelude.{◌≡◌};

    ghost Value = { T };

    ghost view = { λ b. b.inner.value };
}

impl<T> Boxed<T> {
    /// Moves a value to the heap. A refusal (no memory) drops it.
    pub fn new(alloc: Global, value: T) -> Result<Boxed<T>, AllocError>
    where
        T: Drop,
        ensures { IfOk result (λ b. b ≡ value) }
    {
        let inner = Box::new(alloc, value)?;
        Ok(Boxed { inner })
    }

    /// The value. Takes no memory.
    pub fn get(&self) -> &T
        ensures { result.now ≡ self.now }
    {
        &self.inner
    }

    /// The value, to be changed in place. Takes no memory.
    pub fn get_mut(&mut self) -> &mut T
        ensures* lends { sem 𝓛 (Lends (the_row T.row) T.row self.entry result (λ w. w)) }
        ensures value { result.now ≡ self.old }
    {
        &mut self.inner
    }

    /// The value, moved off the heap. Takes no memory.
    pub fn into_inner(self) -> T
        ensures { result ≡ self }
    {
        Box::into_inner(self.inner)
    }
}
