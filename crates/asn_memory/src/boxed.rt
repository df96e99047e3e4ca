//! `Box`: one owned value on the heap, seen by contracts as that value.

ghost use Rattle.asn_memory.specs.contracts.boxed.Box.{the_row};
ghost use Rattle.std.specs.Borrow.{Lends, sem};
ghost use Rattle.std.specs.Prelude.{◌≡◌, IfOk};

use crate::memory::Mem;
use std::alloc::{AllocError, Global};
use std::boxed::Box as Heap;
use std::marker::Model;

/// A `std::boxed::Box` that contracts see as its value.
pub struct Box<T> {
    inner: Heap<T>,
}

impl<T: Drop> Drop for Box<T> {
    fn drop(self) {
        let Box { inner: _ } = self;
    }
}

impl<T> Model for Box<T> {
    ghost use Rattle.std.specs.Prelude.{IfOk};

    ghost Value = { T };

    ghost coded = { T.code };

    ghost view = { λ b. b.inner.value };
}

impl<T> Box<T> {
    /// The value.
    pub fn get(&self) -> &T
        ensures { result.now ≡ self.now }
    {
        &self.inner
    }

    /// The value, to be changed.
    pub fn get_mut(&mut self) -> &mut T
        ensures* writes_back { sem 𝓛 (Lends (the_row T.row) T.row self.entry result (λ w. w)) }
        ensures value { result.now ≡ self.old }
    {
        &mut self.inner
    }

    /// Takes the value out.
    pub fn into_inner(self) -> T
        ensures { result ≡ self }
    {
        let Box { inner } = self;
        Heap::into_inner(inner)
    }
}

impl<T: Drop> Box<T> {
    /// Moves the value to the heap. For want of memory it is dropped.
    pub fn new(alloc: Global, value: T) -> Mem<Box<T>>
        ensures { IfOk result (λ b. b ≡ value) }
    {
        Ok(Box {
            inner: Heap::new(alloc, value)?,
        })
    }
}

impl<T: PartialEq> PartialEq for Box<T> {
    ghost eq = { T.eq };

    ghost laws = { T.laws };

    fn eq(&self, other: &Self) -> bool {
        *self.get() == *other.get()
    }
}

impl<T: Eq> Eq for Box<T> {
    ghost laws = { T.Eq.laws };
}

impl<T: Clone> Clone for Box<T> {
    ghost is_clone = { T.is_clone };

    fn clone(&self) -> Result<Box<T>, AllocError> {
        let inner = self.inner.clone()?;
        Ok(Box { inner })
    }
}
