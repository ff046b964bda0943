// What is asked of the items of a table.
ghost use Rattle.std.specs.Prelude.{◌≡◌, ℕ, Option, Some, true, length};
ghost use Rattle.places.specs.First.{Least};
ghost use Rattle.ir.specs.Faults.{outside, misshapen, name_outside, misnamed, malformed, emits_past};
ghost use Rattle.ir.specs.Tables.{Misnamed, Outside, EmitsPast, Nameless};

use crate::tables::{Constant, Override, Record, Size, Source};
use arena::{Entry, Handle, Run};
use kinds::{Expression, Statement};
use operands::{Sort, slots_of};
use places::Test;

// Tables where something may have a wrong shape.
#[derive(Clone, Copy)]
pub(crate) struct ShapeOf<T> {
    pub(crate) tables: T,
}

// Tables where a handle or a number may be out of range, a literal malformed or an Emit past the entries; below the limits of the
// operands.
#[derive(Clone, Copy)]
pub(crate) struct RangeOf<T> {
    pub(crate) tables: T,
}

// Whether a run ends past so many.
fn is_outside(len: usize, run: Run) -> bool
    ensures { result ≡ outside len run }
{
    run.at as usize + run.len as usize > len
}

// An entry of unknown kind, with a wrong number of operands, or with a run outside its list.
#[derive(Clone, Copy)]
pub(crate) struct Shape {
    pub(crate) sort: Sort,
    pub(crate) operands: usize,
}

impl Test<Entry> for Shape {
    ghost bad = { λ t _ e. misshapen t.sort t.operands e ≡ true };

    fn bad(&self, _index: usize, item: &Entry) -> bool {
        slots_of(self.sort, item.kind).is_none_or(|slots| {
            !slots.admits(item.run.len) || is_outside(self.operands, item.run)
        })
    }
}

// An override whose name lies outside the name bytes.
#[derive(Clone, Copy)]
pub(crate) struct NameOutside {
    pub(crate) names: usize,
}

impl Test<Override> for NameOutside {
    ghost bad = { λ t _ o. name_outside t.names o.name ≡ true };

    fn bad(&self, _index: usize, item: &Override) -> bool {
        item.name.is_some_and(|run| is_outside(self.names, run))
    }
}

// Whether the expression at an index is a malformed literal, or names a constant or an override that the module does not have. A
// global one also names no constant whose init is not below it.
#[tactic(auto, unfolding(crate::specs::Faults::misnamed))]
fn is_misnamed(source: &Source, global: bool, index: usize, item: &Entry) -> bool
    ensures { result ≡ misnamed source.now.constants.items (length source.now.overrides.items) global index item.now }
{
    let number = item.words[0] as usize;
    match Expression::try_from(item.kind) {
        Ok(Expression::Literal) => is_malformed(item.words[0], item.words[1], item.words[2]),
        Ok(Expression::Constant) => source
            .constants
            .get(number)
            .is_none_or(|constant| global && constant.init as usize >= index),
        Ok(Expression::Override) => number >= source.overrides.len(),
        _ => false,
    }
}

// The index of the first such expression.
pub(crate) fn first_misnamed(entries: &[Entry], source: &Source, global: bool) -> Option<usize>
    ensures { Least (Misnamed global source.now.constants.items (length source.now.overrides.items) entries.now) result }
{
    entries
        .iter()
        .enumerate()
        .position(|(i, item)| is_misnamed(source, global, i, item))
}

// The largest bits of each type of literal, from Bool to AbstractFloat.
const LARGEST: [u64; 12] = [
    1,
    0xffff,
    0xffff,
    0xffff_ffff,
    0xffff_ffff,
    0xffff,
    0xffff_ffff,
    0xffff_ffff_ffff_ffff,
    0xffff_ffff_ffff_ffff,
    0xffff_ffff_ffff_ffff,
    0xffff_ffff_ffff_ffff,
    0xffff_ffff_ffff_ffff,
];

// Whether no literal has this type and these bits. They are a table's raw words: any number may stand there.
pub fn is_malformed(type_number: u32, low: u32, high: u32) -> bool
    ensures { result ≡ malformed type_number low high }
{
    let bits = low as u64 + 0x1_0000_0000 * high as u64;
    LARGEST
        .get(type_number as usize)
        .is_none_or(|largest| bits > *largest)
}

// Something that has a handle, or may have one.
pub(crate) trait HasHandle {
    ghost handle_of: { Self → Option ℕ };

    fn handle(&self) -> Option<Handle>
        ensures { result ≡ handle_of self.now };
}

impl HasHandle for Handle {
    ghost handle_of = { λ h. Some h };

    fn handle(&self) -> Option<Handle> {
        Some(*self)
    }
}

impl HasHandle for Option<Handle> {
    ghost handle_of = { λ h. h };

    fn handle(&self) -> Option<Handle> {
        *self
    }
}

impl HasHandle for Constant {
    ghost handle_of = { λ c. Some c.init };

    fn handle(&self) -> Option<Handle> {
        Some(self.init)
    }
}

impl HasHandle for Override {
    ghost handle_of = { λ o. o.init };

    fn handle(&self) -> Option<Handle> {
        self.init
    }
}

impl HasHandle for Size {
    ghost handle_of = { λ s. s.handle };

    fn handle(&self) -> Option<Handle> {
        self.handle
    }
}

// The index of the first item with a handle that is not below a bound.
pub(crate) fn first_outside<T: HasHandle>(items: &[T], bound: usize) -> Option<usize>
    ensures { Least (Outside bound T.handle_of items.now) result }
{
    items.iter().position(|item| item.handle().is_some_and(|handle| handle as usize >= bound))
}

// Whether a record is an Emit that is not empty and ends past the entries.
fn is_past(entries: usize, item: &Record) -> bool
    ensures { result ≡ emits_past entries item.now }
{
    Statement::try_from(item.kind) == Ok(Statement::Emit)
        && item.words[0] < item.words[1]
        && item.words[1] as usize > entries
}

// The index of the first such Emit.
pub(crate) fn first_emit_past(records: &[Record], entries: usize) -> Option<usize>
    ensures { Least (EmitsPast entries records.now) result }
{
    records.iter().position(|item| is_past(entries, item))
}

// The index of the first override with neither id nor name.
pub(crate) fn first_nameless(overrides: &[Override]) -> Option<usize>
    ensures { Least (Nameless overrides.now) result }
{
    overrides
        .iter()
        .position(|item| item.id.is_none() && item.name.is_none())
}
