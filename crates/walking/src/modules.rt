// A whole walk over a module's entries, from empty tables.
ghost use Rattle.std.specs.Prelude.{◌≡◌, ◌≤◌, length, map, IfSome, MatchOption};
ghost use Rattle.arena.specs.Appends.{SameLimits};
ghost use Rattle.arena.specs.Items.{items, limit};
ghost use Rattle.arena.specs.Nodes.{nodes};
ghost use Rattle.arena.specs.Held.{held, slots};
ghost use Rattle.walking.specs.Modules.{Unfit, WalkedAs, begun, finished, room_for, room_of_slices, walk_module, written};
ghost use Rattle.walking.specs.Works.{Went};

use crate::overrides::Valued;
use crate::work::Work;
use arena::{Arena, Entry, Handle, HandleVec, Table};
use evaluator::{ExpressionKind, ExpressionKindTracker, Folder, NewConstant};
use refusals::Refusal;

// What a walk reads of a module.
#[derive(Clone, Copy)]
pub struct Old<'a> {
    pub entries: &'a [Entry],
    pub operands: &'a [Handle],
    pub overrides: &'a [Valued],
}

// How a walk ended, and how many images and overrides' constants it has written.
#[derive(Clone, Copy, PartialEq, Eq, Debug)]
pub struct Walked {
    pub ended: Result<(), Refusal>,
    pub images: usize,
    pub settled: usize,
}

// The same over values kept by handle, all of them lent at once.
fn walk_lent<F: Folder>(
    folder: &F,
    old: Old<'_>,
    scratch: &mut Table<Handle>,
    expressions: &mut Arena,
    kinds: &mut ExpressionKindTracker<'_>,
    constants: &mut Table<NewConstant>,
    images: &mut HandleVec<'_, Handle>,
    settled: &mut HandleVec<'_, u32>,
) -> Result<(), Refusal>
    requires wide { length old.operands.now ≤ limit scratch.old }
    requires small { (length (slots images.old) ≤ 4294967295) × (limit constants.old ≤ 4294967295) }
    ensures went { Went (walk_module (F.verdict folder.now) (room_for expressions.old kinds.old constants.old images.old settled.old)
        old.entry.overrides.now (nodes old.entry.entries.now old.entry.operands.now)
        (written expressions.old kinds.old constants.old images.old settled.old))
        (written expressions.new kinds.new constants.new images.new settled.new) result }
    ensures lenders { (images.new.slots.ghost_name ≡ images.old.slots.ghost_name) × (settled.new.slots.ghost_name ≡ settled.old.slots.ghost_name) }
    ensures limits { SameLimits expressions.old expressions.new × (limit constants.new ≡ limit constants.old) × (length (slots kinds.new.inner) ≡ length (slots kinds.old.inner)) }
    ensures wide { length old.entry.operands.now ≤ limit scratch.new }
{
    let mut work = Work {
        entries: old.entries,
        operands: old.operands,
        scratch,
        expressions,
        kinds,
        constants,
        images,
        settled,
    };
    work.walk_module(folder, old.overrides)
}

// A walk that begins with nothing written. The kinds are copied at the end: of a lent slice inside a struct inside a struct nothing is
// known afterwards.
fn walk_slices<F: Folder>(
    folder: &F,
    old: Old<'_>,
    scratch: &mut Table<Handle>,
    expressions: &mut Arena,
    kinds: &mut [ExpressionKind],
    recorded: &mut Table<ExpressionKind>,
    constants: &mut Table<NewConstant>,
    images: &mut [Handle],
    settled: &mut [u32],
) -> Walked
    requires wide { length old.operands.now ≤ limit scratch.old }
    requires small { (length images.old ≤ 4294967295) × (limit constants.old ≤ 4294967295) }
    requires recordable { length kinds.old ≤ limit recorded.old }
    ensures went { Went (walk_module (F.verdict folder.now) (room_of_slices expressions.old kinds.old constants.old images.old settled.old)
        old.entry.overrides.now (nodes old.entry.entries.now old.entry.operands.now) (begun (items constants.old)))
        (finished expressions.new recorded.new constants.new images.new settled.new result) result.ended }
    ensures limits { SameLimits expressions.old expressions.new × (limit constants.new ≡ limit constants.old) × (limit recorded.new ≡ limit recorded.old) }
    ensures wide { length old.entry.operands.now ≤ limit scratch.new }
{
    expressions.clear();
    let mut kinds = ExpressionKindTracker::new(kinds);
    let mut images = HandleVec::new(images);
    let mut settled = HandleVec::new(settled);
    let ended = walk_lent(
        folder,
        old,
        scratch,
        expressions,
        &mut kinds,
        constants,
        &mut images,
        &mut settled,
    );
    record_kinds(&kinds, recorded);
    Walked {
        ended,
        images: images.len(),
        settled: settled.len(),
    }
}

// The kinds that are known, in place of what the table held.
fn record_kinds(kinds: &ExpressionKindTracker<'_>, recorded: &mut Table<ExpressionKind>)
    requires { length (slots kinds.now.inner) ≤ limit recorded.old }
    ensures kinds { items recorded.new ≡ held kinds.now.inner }
    ensures limit { limit recorded.new ≡ limit recorded.old }
{
    recorded.clear();
    let _ = recorded.push_all(kinds.inner.as_slice());
}

// A walk over a module's entries, whatever the tables held before. None where `scratch` cannot hold so many operands, or `recorded` so
// many kinds, or where images or constants would have no number.
pub fn walk_entries<F: Folder>(
    folder: &F,
    old: Old<'_>,
    scratch: &mut Table<Handle>,
    expressions: &mut Arena,
    kinds: &mut [ExpressionKind],
    recorded: &mut Table<ExpressionKind>,
    constants: &mut Table<NewConstant>,
    images: &mut [Handle],
    settled: &mut [u32],
) -> Option<Walked>
    ensures walked { MatchOption result (Unfit old.entry scratch.old kinds.old recorded.old constants.old images.old) (λ w. WalkedAs (F.verdict folder.now)
        (room_of_slices expressions.old kinds.old constants.old images.old settled.old)
        (record { entries = nodes old.entry.entries.now old.entry.operands.now; inits = map (λ c. c.init) (items constants.old); overrides = old.entry.overrides.now })
        (items constants.old) (finished expressions.new recorded.new constants.new images.new settled.new w) w.ended) }
    ensures limits { SameLimits expressions.old expressions.new × (limit constants.new ≡ limit constants.old) × (limit recorded.new ≡ limit recorded.old) }
    ensures wide { IfSome result (λ _. length old.entry.operands.now ≤ limit scratch.new) }
{
    let numbers = u32::MAX as usize;
    let fits = old.operands.len() <= scratch.limit()
        && kinds.len() <= recorded.limit()
        && images.len() <= numbers
        && constants.limit() <= numbers;
    if !fits {
        return None;
    }
    Some(walk_slices(
        folder,
        old,
        scratch,
        expressions,
        kinds,
        recorded,
        constants,
        images,
        settled,
    ))
}
