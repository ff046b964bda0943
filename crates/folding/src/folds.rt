// The finished entries of a module without overrides, and what each old entry became.
ghost use Rattle.std.specs.Prelude.{◌≡◌, [], length, IfOk, vec_items};
ghost use Rattle.arena.specs.Items.{items, limit as bound};
ghost use Rattle.folding.specs.Folds.{Finished, FoldedBy, Gave, Reserved, WalkedBy, WalkedIn, unmapped};
ghost use Rattle.folding.specs.declared.folds.FoldError.TheVariants.{OutOfMemory as NoMemory};

use arena::{Arena, Handle, Table};
use evaluator::{ExpressionKind, Folder, NewConstant};
use ir::{Constant, Sizes, Source, check_source};
use refusals::Refusal;
use std::alloc::{AllocError, Global};
use thiserror::Error;
use walking::{Old, Walked, walk_entries};

// The most entries, and the most operands, that a table holds.
const ENTRIES: u32 = 65536;

const OPERANDS: u32 = 262144;

// The finished entries with their constants, and the handle that each old entry became.
#[derive(Drop)]
pub struct Folded {
    pub entries: Arena,
    pub constants: Table<NewConstant>,
    pub images: Vec<Handle>,
}

#[derive(Clone, Copy, PartialEq, Eq, Debug, Error)]
pub enum FoldError {
    #[error("{0}")]
    Refused(Refusal),
    #[error("the module has overrides, and no settings to settle them by")]
    HasOverrides,
    #[error("memory ran out")]
    OutOfMemory,
}

// The constants as they are before any is mapped.
fn copied(heap: Global, constants: &[Constant]) -> Result<Table<NewConstant>, AllocError>
    ensures items { IfOk result (λ t. items t ≡ unmapped constants.now) }
    ensures limit { IfOk result (λ t. bound t ≡ length constants.now) }
{
    let mut table = Table::with_limit(heap, constants.len())?;
    for constant in constants {
        let _ = table.push(NewConstant {
            init: constant.init,
            mapped: false,
        });
    }
    Ok(table)
}

impl From<AllocError> for FoldError {
    ghost from_gives = { λ _ r. r ≡ NoMemory };

    fn from(_error: AllocError) -> FoldError {
        FoldError::OutOfMemory
    }
}

// What a walk wants, all of it reserved.
#[derive(Drop)]
struct Memory {
    expressions: Arena,
    constants: Table<NewConstant>,
    scratch: Table<Handle>,
    kinds: Vec<ExpressionKind>,
    recorded: Table<ExpressionKind>,
    images: Vec<Handle>,
}

fn reserve(heap: Global, source: &Source) -> Result<Memory, AllocError>
    ensures { IfOk result (λ m. Reserved source.now m) }
{
    let expressions = Arena::with_limits(heap, ENTRIES, OPERANDS)?;
    let constants = copied(heap, source.constants.as_slice())?;
    let scratch = Table::with_limit(heap, source.operands.len())?;
    let kinds = vec![in heap; ExpressionKind::Runtime; ENTRIES as usize]?;
    let recorded = Table::with_limit(heap, ENTRIES as usize)?;
    let images = vec![in heap; 0u32; source.entries.len()]?;
    Ok(Memory {
        expressions,
        constants,
        scratch,
        kinds,
        recorded,
        images,
    })
}

// Walks over entries in this memory.
fn walk_memory<F: Folder>(folder: &F, old: Old<'_>, memory: &mut Memory) -> Option<Walked>
    ensures { WalkedIn (F.verdict folder.now) old.entry memory.old memory.new result }
{
    let Memory {
        expressions,
        constants,
        scratch,
        kinds,
        recorded,
        images,
    } = memory;
    walk_vecs(
        folder,
        old,
        scratch,
        expressions,
        kinds,
        recorded,
        constants,
        images,
    )
}

// The same over the parts of the memory.
fn walk_vecs<F: Folder>(
    folder: &F,
    old: Old<'_>,
    scratch: &mut Table<Handle>,
    expressions: &mut Arena,
    kinds: &mut Vec<ExpressionKind>,
    recorded: &mut Table<ExpressionKind>,
    constants: &mut Table<NewConstant>,
    images: &mut Vec<Handle>,
) -> Option<Walked>
    ensures { WalkedBy (F.verdict folder.now) old.entry scratch.old expressions.old (vec_items kinds.old) recorded.old constants.old (vec_items images.old)
        expressions.new recorded.new constants.new (vec_items images.new) result }
{
    let mut settled = [0u32; 0];
    walk_entries(
        folder,
        old,
        scratch,
        expressions,
        kinds.as_mut_slice(),
        recorded,
        constants,
        images.as_mut_slice(),
        &mut settled,
    )
}

// What is finished in this memory, or why the walk stopped.
fn finish(memory: Memory, walked: Walked) -> Result<Folded, FoldError>
    ensures { Finished memory walked result }
{
    walked.ended.map_err(FoldError::Refused)?;
    let Memory {
        expressions,
        constants,
        mut images,
        ..
    } = memory;
    images.truncate(walked.images);
    Ok(Folded {
        entries: expressions,
        constants,
        images,
    })
}

// What a walk reads where there are no overrides.
fn read(source: &Source) -> Old<'_>
    ensures entries { result.entries.now ≡ vec_items source.now.entries }
    ensures operands { result.operands.now ≡ vec_items source.now.operands }
    ensures overrides { result.overrides.now ≡ [] }
{
    Old {
        entries: source.entries.as_slice(),
        operands: source.operands.as_slice(),
        overrides: &[],
    }
}

// Walks over the entries of tables without overrides.
fn fold_tables<F: Folder>(heap: Global, source: &Source, folder: &F) -> Result<Folded, FoldError>
    ensures { FoldedBy (F.verdict folder.now) source.now result }
{
    let mut memory = reserve(heap, source)?;
    match walk_memory(folder, read(source), &mut memory) {
        Some(walked) => finish(memory, walked),
        None => Err(FoldError::OutOfMemory),
    }
}

// Folds the entries of a module that has no overrides, after its tables are checked.
pub fn fold_source<F: Folder>(
    heap: Global,
    source: &Source,
    sizes: &Sizes,
    folder: &F,
) -> Result<Folded, FoldError>
    ensures { Gave (F.verdict folder.now) source.now sizes.now result }
{
    check_source(source, sizes).map_err(FoldError::Refused)?;
    if !source.overrides.is_empty() {
        return Err(FoldError::HasOverrides);
    }
    fold_tables(heap, source, folder)
}
