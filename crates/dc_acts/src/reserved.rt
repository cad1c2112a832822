ghost use Rattle.std.specs.Prelude.{◌≡◌, ◌+◌, ◌<◌, ◌≤◌, ◌^◌, ◌++◌, [], ◌∷◌, length, slice_set, take, OnOk, OnErr};

use std::alloc::{AllocError, Global};
use std::marker::Model;

/// A list whose room is made beforehand: no push takes memory.
#[derive(Drop)]
pub struct Reserved<T: Drop> {
    items: Vec<T>,
}

impl<T: Drop> Model for Reserved<T> {
    ghost use Rattle.std.specs.Prelude.{vec_capacity};
    ghost use Rattle.dc_acts.specs.Reserved.{Listed, listed};

    ghost Value = { Listed T };

    ghost view = { λ r. listed r.items.items (vec_capacity r.items) };
}

impl<T: Drop> Reserved<T> {
    /// An empty list without room.
    pub fn new(alloc: Global) -> Reserved<T>
        ensures { result.items ≡ [] }
    {
        Reserved {
            items: Vec::new(alloc),
        }
    }

    /// Makes room for more items.
    pub fn reserve(&mut self, more: usize) -> Result<(), AllocError>
        ensures items { self.new.items ≡ self.old.items }
        ensures room { OnOk result (length self.old.items + more ≤ self.new.room) }
        ensures refused { OnErr result (self.new.room ≡ self.old.room) }
    {
        self.items.reserve(more)?;
        Ok(())
    }

    /// Adds an item where there is room.
    pub fn push(&mut self, item: T)
        requires { length self.old.items < self.old.room }
        ensures items { self.new.items ≡ self.old.items ++ item ∷ [] }
        ensures room { self.old.room ≤ self.new.room }
    {
        let _ = self.items.push(item);
    }

    /// Puts an item in place of the i-th.
    pub fn set(&mut self, i: usize, item: T)
        requires { i < length self.old.items }
        ensures items { self.new.items ≡ slice_set self.old.items i item }
        ensures room { self.new.room ≡ self.old.room }
    {
        self.items[i] = item;
    }

    /// Takes out all items after the first `n`.
    pub fn truncate(&mut self, n: usize)
        ensures items { self.new.items ≡ take n self.old.items }
        ensures room { self.new.room ≡ self.old.room }
    {
        self.items.truncate(n);
    }

    /// How many items there are.
    pub fn len(&self) -> usize
        ensures { result ≡ length self.now.items }
    {
        self.items.len()
    }

    /// The items.
    pub fn as_slice(&self) -> &[T]
        ensures { result.now ≡ self.now.items }
    {
        &self.items
    }
}
