// Tables with a limit.
ghost use Rattle.std.specs.Prelude.{◌≡◌, ◌+◌, ◌<◌, ◌≤◌, [], ◌∷◌, ◌++◌, length, IfOk, vec_len, vec_capacity};
ghost use Rattle.std.specs.List.{slice_get};

use std::alloc::{AllocError, Global};
use thiserror::Error;

// At most `limit` items. Memory for all of them is taken when the table is made, so no later call wants more.
#[derive(Drop)]
pub struct Table<T> {
    items: Vec<T>,
    limit: usize,
    ghost within: { vec_len items ≤ limit },
    ghost reserved: { limit ≤ vec_capacity items },
}

// What was to be pushed did not fit.
#[derive(Clone, Copy, PartialEq, Eq, Debug, Error)]
#[error("the table has no room")]
pub struct NoRoom;

impl<T: Copy> Table<T> {
    ghost use Rattle.arena.specs.Items.{items, limit as bound, memory, Pushed, Stays, Written};

    // An empty table that has its memory.
    pub fn with_limit(heap: Global, limit: usize) -> Result<Table<T>, AllocError>
        ensures { IfOk result (λ t. (items t ≡ []) × (bound t ≡ limit) × (limit ≤ memory t)) }
    {
        let items = Vec::with_capacity(heap, limit)?;
        Ok(Table { items, limit })
    }

    pub fn len(&self) -> usize
        ensures value { result ≡ length (items self.now) }
        ensures bound { result ≤ bound self.now }
    {
        self.items.len()
    }

    pub fn limit(&self) -> usize
        ensures { result ≡ bound self.now }
    {
        self.limit
    }

    // How many items more it takes.
    pub fn room(&self) -> usize
        ensures { result + length (items self.now) ≡ bound self.now }
    {
        self.limit - self.items.len()
    }

    pub fn as_slice(&self) -> &[T]
        ensures { result.now ≡ items self.now }
    {
        self.items.as_slice()
    }

    // The item at a place, if there is one.
    pub fn get(&self, at: usize) -> Option<T>
        ensures { result ≡ slice_get (items self.now) at }
    {
        self.items.get(at).copied()
    }

    // One item more, or nothing where the table is full. Never allocates.
    pub fn push(&mut self, item: T) -> Result<(), NoRoom>
        ensures cases { Pushed (item ∷ []) self.old self.new result }
        ensures stays { Stays self.old self.new }
    {
        if self.room() == 0 {
            return Err(NoRoom);
        }
        self.push_reserved(item);
        Ok(())
    }

    // All of `more` in order, or nothing where it does not fit. Never allocates.
    pub fn push_all(&mut self, more: &[T]) -> Result<(), NoRoom>
        ensures cases { Pushed more.now self.old self.new result }
        ensures stays { Stays self.old self.new }
    {
        if self.room() < more.len() {
            return Err(NoRoom);
        }
        self.extend_reserved(more);
        Ok(())
    }

    // One item more, where there is room.
    pub(crate) fn push_reserved(&mut self, item: T)
        requires { length (items self.old) < bound self.old }
        ensures items { items self.new ≡ items self.old ++ item ∷ [] }
        ensures stays { Stays self.old self.new }
    {
        self.items.push_reserved(item);
    }

    // All of `more`, where there is room. A loop: `extend_from_slice` does not say that the memory stays as it was.
    pub(crate) fn extend_reserved(&mut self, more: &[T])
        requires { length (items self.old) + length more.now ≤ bound self.old }
        ensures items { items self.new ≡ items self.old ++ more.now }
        ensures stays { Stays self.old self.new }
    {
        for item in more {
            self.items.push_reserved(*item);
        }
    }

    // Another item in the place of the one at `at`; whether one was there, as a set's `insert` answers: there is no value to give.
    pub fn put(&mut self, at: usize, item: T) -> bool
        ensures cases { Written at item self.old self.new result }
        ensures stays { Stays self.old self.new }
    {
        if let Some(slot) = self.items.get_mut(at) {
            *slot = item;
            true
        } else {
            false
        }
    }

    // Empties the table, which keeps its memory.
    pub fn clear(&mut self)
        ensures items { items self.new ≡ [] }
        ensures stays { Stays self.old self.new }
    {
        self.items.clear();
    }
}
