// An answer of the list beside what this repository's own settling gave.
ghost use Rattle.std.specs.Prelude.{◌≡◌, map, Decides};

use crate::cases::Answer;
use arena::{Entry, Handle};
use evaluator::{ExpressionKind, NewConstant};
use ir::{Override, Sizes};
use refusals::Refusal;

// What is compared.
#[derive(Clone, Copy, PartialEq, Eq, Debug)]
pub enum Part {
    Outcome,
    Counts,
    Entries,
    Kinds,
    Constants,
    Overrides,
    Variables,
    Sizes,
    Images,
    Settled,
}

impl Part {
    // In the order in which they are shown.
    pub const ALL: [Part; 10] = [
        Part::Outcome,
        Part::Counts,
        Part::Entries,
        Part::Kinds,
        Part::Constants,
        Part::Overrides,
        Part::Variables,
        Part::Sizes,
        Part::Images,
        Part::Settled,
    ];

    pub fn words(self) -> &'static str {
        match self {
            Part::Outcome => "outcomes",
            Part::Counts => "counts of what was written",
            Part::Entries => "finished entries with their operands",
            Part::Kinds => "kinds",
            Part::Constants => "constants",
            Part::Overrides => "overrides",
            Part::Variables => "variable inits",
            Part::Sizes => "sizes",
            Part::Images => "handle tables",
            Part::Settled => "overrides' constants",
        }
    }
}

// How many items of each table were written before a refusal.
#[derive(Clone, Copy, PartialEq, Eq, Debug)]
pub struct Counts {
    pub entries: usize,
    pub operands: usize,
    pub kinds: usize,
    pub constants: usize,
    pub overrides: usize,
    pub variables: usize,
    pub images: usize,
    pub settled: usize,
}

// What our own settling gave: whether it refused and what it says that it wrote, the finished tables as far as they were written, and
// the sizes.
#[derive(Clone, Copy)]
pub struct Ours<'t> {
    pub refused: Option<(Refusal, Counts)>,
    pub entries: &'t [Entry],
    pub operands: &'t [Handle],
    pub kinds: &'t [ExpressionKind],
    pub constants: &'t [NewConstant],
    pub overrides: &'t [Override],
    pub variables: &'t [Option<Handle>],
    pub sizes: Sizes,
    pub images: &'t [Handle],
    pub settled: &'t [u32],
}

fn counts_of(answer: &Answer) -> Counts {
    Counts {
        entries: answer.entries.len(),
        operands: answer.operands.len(),
        kinds: answer.kinds,
        constants: answer.constants.len(),
        overrides: answer.overrides.len(),
        variables: answer.variables.len(),
        images: answer.images.len(),
        settled: answer.settled.len(),
    }
}

fn same_outcome(answer: &Answer, ours: &Ours<'_>) -> bool {
    match (answer.ended, ours.refused) {
        (Ok(_), None) => true,
        (Err(theirs), Some((refusal, _))) => theirs == refusal,
        _ => false,
    }
}

// The counts are told on a refusal.
fn same_counts(answer: &Answer, ours: &Ours<'_>) -> Option<bool> {
    let (_, counts) = ours.refused?;
    answer.ended.err()?;
    Some(counts == counts_of(answer))
}

// The sizes are told where nothing was refused.
fn same_sizes(answer: &Answer, ours: &Ours<'_>) -> Option<bool> {
    let sizes = answer.ended.ok()?;
    if ours.refused.is_some() {
        return None;
    }
    Some(ours.sizes.all().map(|size| size.value) == sizes)
}

fn same_numbers(numbers: &[u32], ours: &[u32]) -> bool
    ensures { Decides result (numbers.now ≡ ours.now) }
{
    numbers == ours
}

fn same_entries(answer: &Answer, ours: &Ours<'_>) -> bool {
    answer.entries.as_slice() == ours.entries && same_numbers(&answer.operands, ours.operands)
}

// Every finished entry is Const.
fn same_kinds(count: usize, kinds: &[ExpressionKind]) -> bool {
    kinds.len() == count && kinds.iter().all(|kind| *kind == ExpressionKind::Const)
}

fn same_constants(inits: &[Handle], constants: &[NewConstant]) -> bool
    ensures { Decides result (inits.now ≡ map (λ c. c.init) constants.now) }
{
    inits.len() == constants.len()
        && inits
            .iter()
            .zip(constants)
            .all(|(init, constant)| *init == constant.init)
}

fn same_overrides(inits: &[Option<Handle>], overrides: &[Override]) -> bool {
    inits.len() == overrides.len()
        && inits
            .iter()
            .zip(overrides)
            .all(|(init, item)| *init == item.init)
}

// Whether a part is the same; none where there is nothing to compare.
pub fn agrees(part: Part, answer: &Answer, ours: &Ours<'_>) -> Option<bool> {
    match part {
        Part::Outcome => Some(same_outcome(answer, ours)),
        Part::Counts => same_counts(answer, ours),
        Part::Entries => Some(same_entries(answer, ours)),
        Part::Kinds => Some(same_kinds(answer.kinds, ours.kinds)),
        Part::Constants => Some(same_constants(&answer.constants, ours.constants)),
        Part::Overrides => Some(same_overrides(&answer.overrides, ours.overrides)),
        Part::Variables => Some(answer.variables.as_slice() == ours.variables),
        Part::Sizes => same_sizes(answer, ours),
        Part::Images => Some(same_numbers(&answer.images, ours.images)),
        Part::Settled => Some(same_numbers(&answer.settled, ours.settled)),
    }
}
