//! Lists of fixed length.

ghost use Rattle.std.specs.Prelude.{◌≡◌, replicate, IfOk, vec_len};
ghost use Rattle.std.specs.Borrow.{sem};
ghost use Rattle.std.specs.Vec.{vec_capacity};
ghost use Rattle.mltl_base.specs.Lending.{lends_all};

use std::alloc::{AllocError, Global};
use std::marker::Model;

/// A list whose length never changes, in a block of exactly its size. It exposes neither its
/// allocator nor a clone, so no call on it can allocate. Contracts see it as that list.
#[derive(Drop)]
pub struct Fixed<T> {
    items: Vec<T>,
}

impl<T> Model for Fixed<T> {
    ghost use Rattle.std.specs.Prelude.{◌≡◌, List, vec_len};
    ghost use Rattle.std.specs.Vec.{vec_capacity};

    ghost Value = { List T };

    ghost view = { λ fixed. fixed.items.items };

    ghost invariant = { λ fixed. vec_capacity fixed.items ≡ vec_len fixed.items };
}

impl<T> Fixed<T> {
    /// Makes a list of a vector whose block has no spare room.
    pub fn of(items: Vec<T>) -> Fixed<T>
        requires no_spare { vec_capacity items ≡ vec_len items }
        ensures { result ≡ items.items }
    {
        Fixed { items }
    }

    /// Returns all members in order.
    #[inline]
    pub fn as_slice(&self) -> &[T]
        ensures { result.now ≡ self.now }
    {
        self.items.as_slice()
    }

    /// Returns all members in order, to be changed in place.
    #[inline]
    pub fn as_mut_slice(&mut self) -> &mut [T]
        ensures* writes_back { sem 𝓛 (lends_all T.row self.entry result) }
        ensures value { result.now ≡ self.old }
    {
        self.items.as_mut_slice()
    }
}

impl<T: Copy> Fixed<T> {
    /// Creates a list of `count` copies of a value. No other call allocates.
    pub fn filled(alloc: Global, value: T, count: usize) -> Result<Fixed<T>, AllocError>
        ensures { IfOk result (λ fixed. fixed ≡ replicate count value) }
    {
        let mut items = Vec::with_capacity(alloc, count)?;
        for _ in 0..count {
            items.push_reserved(value);
        }
        Ok(Fixed::of(items))
    }
}
