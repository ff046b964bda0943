// Which operands each kind of expression and of record has, and how many blocks stand after a record.
//
// Each of the 34 kinds of expression and of the 25 kinds of record says its own; all that reads, checks or rewrites an operand
// goes by them.
#![tactic(auto)]

mod expressions;
mod statements;
#[cfg(test)]
mod tests;

ghost use Rattle.std.specs.Prelude.{◌≡◌};
ghost use Rattle.std.specs.List.{slice_get};
ghost use Rattle.std.specs.Option.{option_map};
ghost use Rattle.kinds.specs.Kinds.{expressions, records, row_of, record_of, admitted, front_length_of, slot_at, needed_slot, result_slot, blocks_of};

use Slot::{Needed as N, Optional as O, Result as R};
pub use expressions::Expression;
pub use statements::Statement;

// What stands in a place of a run. A result is named there and not used.
#[derive(Clone, Copy, PartialEq, Debug)]
pub enum Slot {
    Needed,
    Optional,
    Result,
    OptionalResult,
}

// The operands of a kind: any number of needed ones if `more`, and then one for each slot.
#[derive(Clone, Copy)]
pub struct Slots<'s> {
    pub more: bool,
    pub slots: &'s [Slot],
}

// How many blocks stand after a record: so many, or as many as word 0 says.
#[derive(Clone, Copy)]
pub enum After {
    Blocks(u8),
    Cases,
}

#[derive(Clone, Copy)]
pub struct RecordKind {
    pub slots: Slots<'static>,
    pub after: After,
}

// A number that no kind has.
#[derive(Clone, Copy, PartialEq, Eq, Debug)]
pub struct UnknownKind(pub u8);

const NONE: Slots<'static> = Slots {
    more: false,
    slots: &[],
};

const ONE: Slots<'static> = Slots {
    more: false,
    slots: &[N],
};

const TWO: Slots<'static> = Slots {
    more: false,
    slots: &[N, N],
};

const THREE: Slots<'static> = Slots {
    more: false,
    slots: &[N, N, N],
};

const OPTION: Slots<'static> = Slots {
    more: false,
    slots: &[O],
};

const TO_RESULT: Slots<'static> = Slots {
    more: false,
    slots: &[N, R],
};

// The operands of a kind of expression, as it stands in an entry, if there is such a kind.
pub fn expression_slots(kind: u8) -> Option<Slots<'static>>
    ensures { option_map row_of result ≡ slice_get expressions kind }
{
    let expression = Expression::try_from(kind).ok()?;
    Some(expression.slots())
}

// The operands of a kind of record, as it stands in an entry, and the blocks after it, if there is such a kind.
pub fn record_kind(kind: u8) -> Option<RecordKind>
    ensures { option_map record_of result ≡ slice_get records kind }
{
    let statement = Statement::try_from(kind).ok()?;
    Some(RecordKind {
        slots: statement.slots(),
        after: statement.after(),
    })
}

impl Slots<'_> {
    // Whether a run of `len` operands has the right number of them.
    pub fn admits(&self, len: u32) -> bool
        ensures { result ≡ admitted (row_of self.now) len }
    {
        let count = self.slots.len();
        if self.more {
            count <= len as usize
        } else {
            count == len as usize
        }
    }

    // How many operands of a run of `len` stand before those that have a slot.
    pub fn front(&self, len: u32) -> u32
        ensures { result ≡ front_length_of (row_of self.now) len }
    {
        (len as usize).saturating_sub(self.slots.len()) as u32
    }

    // The slot at `j`, counted from the first operand that has one.
    pub fn slot(&self, j: u8) -> Option<Slot>
        ensures { result ≡ slot_at (row_of self.now) j }
    {
        self.slots.get(j as usize).copied()
    }
}

impl Slot {
    pub fn needed(self) -> bool
        ensures { result ≡ needed_slot self }
    {
        matches!(self, Slot::Needed | Slot::Result)
    }

    pub fn is_result(self) -> bool
        ensures { result ≡ result_slot self }
    {
        matches!(self, Slot::Result | Slot::OptionalResult)
    }
}

impl After {
    // How many blocks stand after a record whose word 0 is this.
    pub fn blocks(self, word: u32) -> u32
        ensures { result ≡ blocks_of self word }
    {
        match self {
            After::Blocks(count) => count as u32,
            After::Cases => word,
        }
    }
}
