// What a settling changed, counted.
ghost use Rattle.std.specs.Prelude.{◌≡◌, count_by};
ghost use Rattle.std.specs.List.{slice_get};
ghost use Rattle.settle_report.specs.Counts.{changed, is_made, other_kind};

use crate::tables::FinishedTables;
use arena::{Entry, Handle};
use kinds::Expression;
use report::{Many, Outcome, Unresolved};
use std::alloc::{AllocError, Global};
use std::fmt;

// How many expressions there were and are; how many literals were added for values; how many old expressions, Overrides apart,
// became one of another kind; and how many have an image that an earlier one has too.
#[derive(Clone, Copy, PartialEq, Eq, Debug)]
pub struct Changes {
    pub before: usize,
    pub after: usize,
    pub literals: usize,
    pub changed: usize,
    pub shared: usize,
}

// Whether an expression became one of another kind. An Override always becomes a Constant, and is not counted.
fn is_changed(entry: &Entry, image: Handle, finished: &[Entry]) -> bool
    ensures { result ≡ other_kind entry.now.kind (slice_get finished.now image) }
{
    let is_override = Expression::try_from(entry.kind) == Ok(Expression::Override);
    match finished.get(image as usize) {
        Some(now) => !is_override && now.kind != entry.kind,
        None => false,
    }
}

fn changed(entries: &[Entry], tables: FinishedTables<'_>) -> usize
    ensures { result ≡ changed entries.now tables.entry.entries.now tables.entry.images.now }
{
    entries
        .iter()
        .zip(tables.images)
        .filter(|(entry, image)| is_changed(entry, **image, tables.entries))
        .count()
}

// How many handles have an image that an earlier handle has.
fn shared(heap: Global, tables: FinishedTables<'_>) -> Result<usize, AllocError> {
    let mut seen = vec![in heap; false; tables.entries.len()]?;
    let mut count = 0usize;
    for image in tables.images {
        if let Some(seen) = seen.get_mut(*image as usize) {
            count = count.saturating_add(usize::from(*seen));
            *seen = true;
        }
    }
    Ok(count)
}

// How many overrides have a literal of a value.
fn literals(outcomes: &[Result<Outcome, Unresolved>]) -> usize
    ensures { result ≡ count_by is_made outcomes.now }
{
    outcomes
        .iter()
        .filter(|outcome| matches!(outcome, Ok(Outcome::Made { .. })))
        .count()
}

impl Changes {
    ghost use Rattle.std.specs.Prelude.{IfOk};
    ghost use Rattle.settle_report.specs.Counts.{Counted};

    // What became of these entries and overrides.
    pub(crate) fn of(
        heap: Global,
        entries: &[Entry],
        outcomes: &[Result<Outcome, Unresolved>],
        tables: FinishedTables<'_>,
    ) -> Result<Changes, AllocError>
        ensures { IfOk result (λ c. Counted entries.now outcomes.now tables.entry c) }
    {
        Ok(Changes {
            before: entries.len(),
            after: tables.entries.len(),
            literals: literals(outcomes),
            changed: changed(entries, tables),
            shared: shared(heap, tables)?,
        })
    }
}

impl fmt::Display for Changes {
    fn fmt<W: fmt::Write>(&self, f: &mut fmt::Formatter<W>) -> fmt::Result {
        let before = Many(self.before, "expression", "expressions");
        let after = self.after;
        let literals = Many(self.literals, "literal", "literals");
        let changed = self.changed;
        let shared = self.shared;
        write!(
            f,
            "{before} before, {after} after: {literals} added for values, {changed} of another kind than before, {shared} with the image of an earlier one"
        )
    }
}
