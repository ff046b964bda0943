// Values kept by handle.
ghost use Rattle.std.specs.Prelude.{◌≡◌, ◌+◌, ◌≤◌, [], length};
ghost use Rattle.std.specs.List.{slice_get};

use crate::entry::Handle;
use thiserror::Error;

// A value for each of the handles 0, 1, .. so far, in a slice that the caller lends, so that no memory is wanted here. It takes a value only for its next handle, so
// that no handle is left out and none is given a second value.
#[derive(Drop)]
pub struct HandleVec<'a, U> {
    slots: &'a mut [U],
    count: usize,
    ghost within: { count ≤ length slots.now },
}

// Why a value was not taken: its handle is not the next one, or every slot has its value.
#[derive(Clone, Copy, PartialEq, Eq, Debug, Error)]
pub enum InsertError {
    #[error("the handle is not the next one")]
    WrongHandle,
    #[error("every slot has its value")]
    Full,
}

impl<'a, U: Copy> HandleVec<'a, U> {
    ghost use Rattle.arena.specs.Held.{held, slots as every, Inserted, Pushed};

    // Holds nothing yet, whatever stands in the slots.
    pub fn new(slots: &'a mut [U]) -> HandleVec<'a, U>
        ensures held { held result ≡ [] }
        ensures slots { every result ≡ slots.old }
        ensures lender { result.slots.ghost_name ≡ slots.entry.ghost_name }
    {
        HandleVec { slots, count: 0 }
    }

    // How many values it holds, which is also its next handle.
    pub fn len(&self) -> usize
        ensures value { result ≡ length (held self.now) }
        ensures bound { result ≤ length (every self.now) }
    {
        self.count
    }

    // How many values more it takes.
    pub fn room(&self) -> usize
        ensures { result + length (held self.now) ≡ length (every self.now) }
    {
        self.slots.len() - self.count
    }

    // The value of a handle, if it has one.
    pub fn get(&self, handle: Handle) -> Option<U>
        ensures { result ≡ slice_get (held self.now) handle }
    {
        self.as_slice().get(handle as usize).copied()
    }

    // The values, by handle.
    pub fn as_slice(&self) -> &[U]
        ensures { result.now ≡ held self.now }
    {
        &self.slots[..self.count]
    }

    // Gives the next handle its value, whichever it is. Where it refuses, nothing is written.
    pub fn push(&mut self, value: U) -> Result<(), InsertError>
        ensures cases { Pushed value self.old self.new result }
        ensures lender { self.new.slots.ghost_name ≡ self.old.slots.ghost_name }
    {
        // By index: after a slice's `get_mut` nothing is known of its elements.
        if self.count == self.slots.len() {
            return Err(InsertError::Full);
        }
        self.slots[self.count] = value;
        self.count += 1;
        Ok(())
    }

    // Gives `handle`, which has to be the next one, its value. Where it refuses, nothing is written.
    pub fn insert(&mut self, handle: Handle, value: U) -> Result<(), InsertError>
        ensures cases { Inserted handle value self.old self.new result }
        ensures lender { self.new.slots.ghost_name ≡ self.old.slots.ghost_name }
    {
        if handle as usize != self.count {
            return Err(InsertError::WrongHandle);
        }
        self.push(value)
    }
}
