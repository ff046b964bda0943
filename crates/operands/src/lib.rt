// The least place of an operand list that is at fault.
//
// Runs may overlap, and long ones in many entries. An operand that is right for an entry is right for every later one, so each place
// is looked at once, and the work is in proportion to the tables.
#![tactic(auto)]

ghost use Rattle.std.specs.Prelude.{◌≡◌, ℕ, ◌+◌, ◌<◌, ◌≤◌, min, true, ◌&&◌, ◌⊎◌, length, take, position, if◌then◌else◌, Some, None, IfSome, Decides, ◌==◌, nat_le};
ghost use Rattle.std.specs.List.{zip, filter_map, reduce};
ghost use Rattle.std.specs.Option.{option_map};
ghost use Rattle.kinds.specs.Kinds.{row_of};
ghost use Rattle.places.specs.First.{Least, Over, Holds};
ghost use Rattle.operands.specs.Faults.{absent, slots_of, out_of_range_of};
ghost use Rattle.operands.specs.Operands.{Lacking, NotBelow, Beyond};
ghost use Rattle.operands.specs.Walk.{lacks, fronted, asked, failing, place_in_slots, place_in_tail, Front, Looked, Reached};

use arena::{ABSENT, Entry, Handle};
use kinds::{Slot, Slots};
use places::{lesser, over, up_to};

// The most operands that a list may have.
pub const OPERANDS: usize = 262144;

// Whose kinds an entry's kind is of.
#[derive(Clone, Copy)]
pub enum Sort {
    Expressions,
    Records,
}

// What is asked of the operands at the front of a run: an enum, since the three demands are all that there are and the proofs go by
// them.
#[derive(Clone, Copy)]
pub enum Demand {
    // Those that stand before the slots of their kind are not absent.
    Present(Sort),
    // Each lies below its own entry, or is absent.
    BelowOwn,
    // Each lies below the bound, or is absent.
    Below(usize),
}

// The row of a kind, a byte as it stands in an entry, in its table.
pub fn slots_of(sort: Sort, kind: u8) -> Option<Slots<'static>>
    ensures { option_map row_of result ≡ slots_of sort kind }
{
    match sort {
        Sort::Expressions => kinds::expression_slots(kind),
        Sort::Records => Some(kinds::record_kind(kind)?.slots),
    }
}

// Whether a handle is not below a bound; one that may be absent and is, is in range.
pub fn out_of_range(optional: bool, bound: usize, handle: Handle) -> bool
    ensures { result ≡ out_of_range_of optional bound handle }
{
    !(optional && handle == ABSENT) && handle as usize >= bound
}

// The tables are parameters, as in the public functions below: a struct with the memory of a walk would move a megabyte.
impl Demand {
    // How many of an entry's operands it is made of, from the first.
    fn asked(self, e: &Entry) -> u32
        ensures { result ≡ asked self e.now }
    {
        match self {
            Demand::Present(sort) => front_of(slots_of(sort, e.kind), e.run.len),
            Demand::BelowOwn | Demand::Below(_) => e.run.len,
        }
    }

    // Where it ends on an entry, in a list of `len` operands.
    fn end_of(self, e: &Entry, len: usize) -> u32
        requires { len < 4294967296 }
        ensures { result ≡ min (e.now.run.at + asked self e.now) len }
    {
        let end = e.run.at as usize + self.asked(e) as usize;
        end.min(len) as u32
    }

    // Whether an operand of the entry at `index` does not meet it.
    fn fails(self, index: usize, operand: Handle) -> bool
        ensures { result ≡ failing self index operand }
    {
        match self {
            Demand::Present(_) => operand == ABSENT,
            Demand::BelowOwn => out_of_range(true, index, operand),
            Demand::Below(bound) => out_of_range(true, bound, operand),
        }
    }

    // The place itself if it was not in reach and its operand fails.
    fn fault_at(self, index: usize, place: u32, operand: Handle, reach: u32) -> Option<usize>
        ensures { result ≡ (if nat_le reach place && failing self index operand then Some place else None) }
    {
        (reach <= place && self.fails(index, operand)).then_some(place as usize)
    }

    // Looks at the places from one up to another that are not in reach, and puts them all in reach.
    fn look(
        self,
        index: usize,
        from: u32,
        to: u32,
        operands: &[Handle],
        reach: &mut [u32],
    ) -> Option<usize>
        requires { (to ≤ length operands.now) × (to ≤ length reach.old) }
        ensures { Looked self index from to operands.now reach.old reach.new result }
    {
        let mut found = None;
        let mut place = from;
        // No `for`: it jumps over what is in reach.
        while place < to {
            let at = place as usize;
            let here = reach[at];
            found = lesser(found, self.fault_at(index, place, operands[at], here));
            reach[at] = here.max(to);
            place = here.max(place + 1);
        }
        found
    }

    // The least place that does not meet it, with the memory to look at each once.
    fn least_in(self, entries: &[Entry], operands: &[Handle], reach: &mut [u32]) -> Option<usize>
        requires room { length operands.now ≤ length reach.old }
        requires few { length operands.now < 4294967296 }
        requires fresh { (q : ℕ) → Reached reach.old q → ⊥ }
        ensures { Least (Front self entries.now operands.now) result }
    {
        let mut found = None;
        // No chain: each entry changes what is in reach of the next, which only a loop's invariant follows.
        for (i, e) in entries.iter().enumerate() {
            let to = self.end_of(e, operands.len());
            let here = self.look(i, e.run.at, to, operands, reach);
            found = lesser(found, here);
        }
        found
    }

    // The least place below the limit that some entry has and that does not meet it.
    fn least(self, entries: &[Entry], operands: &[Handle]) -> Option<usize>
        ensures { Least (Front self entries.now (take 262144 operands.now)) result }
    {
        // No heap, where the call cannot fail.
        let mut reach = [0; OPERANDS];
        self.least_in(entries, up_to(OPERANDS, operands), &mut reach)
    }
}

fn front_of(row: Option<Slots>, len: u32) -> u32
    ensures { result ≡ fronted (option_map row_of row.entry) len }
{
    match row {
        Some(row) if row.admits(len) => row.front(len),
        _ => 0,
    }
}

// The first slot that needs the operand there, and it is absent.
fn lacking_slot(slots: &[Slot], operands: &[Handle]) -> Option<usize>
    ensures first { result ≡ position lacks (zip slots.now operands.now) }
    ensures inside { IfSome result (λ j. j < length operands.now) }
{
    slots
        .iter()
        .zip(operands)
        .position(|(slot, &h)| slot.needed() && h == ABSENT)
}

// The least place from `from` on whose slot needs it and that is absent.
fn least_in_slots(row: &Slots, from: usize, operands: &[Handle]) -> Option<usize>
    ensures { result ≡ place_in_slots (row_of row.now) from operands.now }
{
    let rest = operands.get(from..)?;
    let j = lacking_slot(row.slots, rest)?;
    Some(from + j)
}

// The least place that is absent and has a slot that needs it.
fn least_in_tail(sort: Sort, e: &Entry, operands: &[Handle]) -> Option<usize>
    ensures { result ≡ place_in_tail sort operands.now e.now }
{
    let row = slots_of(sort, e.kind).filter(|row| row.admits(e.run.len))?;
    let from = e.run.at as usize + row.front(e.run.len) as usize;
    least_in_slots(&row, from, operands)
}

// The least of these places over all entries.
fn least_tail(sort: Sort, entries: &[Entry], operands: &[Handle]) -> Option<usize>
    ensures { result ≡ reduce min (filter_map (place_in_tail sort operands.now) entries.now) }
{
    entries
        .iter()
        .filter_map(|e| least_in_tail(sort, e, operands))
        .min()
}

// The least place that is absent and that some entry needs, or the limit of a list that is over it. No place past the limit is looked at.
pub fn least_lacking(sort: Sort, entries: &[Entry], operands: &[Handle]) -> Option<usize>
    ensures { Least (λ k. Over 262144 (length operands.now) k ⊎ Lacking sort entries.now operands.now k) result }
{
    let front = Demand::Present(sort).least(entries, operands);
    let tail = least_tail(sort, entries, up_to(OPERANDS, operands));
    lesser(front, tail).or(over(OPERANDS, operands.len()))
}

// The least place below the limit that is not below an entry that it is an operand of.
pub fn least_not_below(entries: &[Entry], operands: &[Handle]) -> Option<usize>
    ensures { Least (NotBelow entries.now (take 262144 operands.now)) result }
{
    Demand::BelowOwn.least(entries, operands)
}

// The least place below the limit that is an operand of some entry and not below the bound.
pub fn least_beyond(bound: usize, entries: &[Entry], operands: &[Handle]) -> Option<usize>
    ensures { Least (Beyond bound entries.now (take 262144 operands.now)) result }
{
    Demand::Below(bound).least(entries, operands)
}
