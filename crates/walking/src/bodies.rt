// A whole walk over a body's entries, from empty tables, over a settled module.
ghost use Rattle.std.specs.Prelude.{◌≡◌, ◌≤◌, List, length, MatchOption};
ghost use Rattle.arena.specs.Appends.{SameLimits};
ghost use Rattle.arena.specs.Held.{slots};
ghost use Rattle.arena.specs.Items.{limit};
ghost use Rattle.arena.specs.Nodes.{nodes};
ghost use Rattle.evaluator.specs.declared.expression_kind.ExpressionKind.{ExpressionKind as Kind};
ghost use Rattle.walking.specs.Bodies.{BodyWalkedAs, Counted, UnfitBody, body_begun, body_finished, body_room_for, body_room_of_slices, body_written};
ghost use Rattle.walking.specs.BodyWalks.{body_walk};
ghost use Rattle.walking.specs.Works.{Went};

use crate::body_work::{BodyWork, SettledModule};
use arena::{Arena, Entry, Handle, HandleVec, Table};
use evaluator::{ExpressionKind, ExpressionKindTracker, Folder};
use refusals::Refusal;

// What a walk reads of a body.
#[derive(Clone, Copy)]
pub struct OldBody<'a> {
    pub entries: &'a [Entry],
    pub operands: &'a [Handle],
}

// How a walk over a body ended, and how many kinds and images it has written.
#[derive(Clone, Copy, PartialEq, Eq, Debug)]
pub struct WalkedBody {
    pub ended: Result<(), Refusal>,
    pub kinds: usize,
    pub images: usize,
}

// The same over values kept by handle, all of them lent at once.
fn walk_lent<F: Folder>(
    folder: &F,
    old: OldBody<'_>,
    over: SettledModule<'_>,
    scratch: &mut Table<Handle>,
    expressions: &mut Arena,
    kinds: &mut ExpressionKindTracker<'_>,
    images: &mut HandleVec<'_, Handle>,
) -> Result<(), Refusal>
    requires wide { length old.operands.now ≤ limit scratch.old }
    requires small { length (slots images.old) ≤ 4294967295 }
    ensures went { Went (body_walk (F.verdict folder.now) (body_room_for expressions.old kinds.old images.old)
        (nodes old.entry.entries.now old.entry.operands.now)
        (body_written over.entry expressions.old kinds.old images.old))
        (body_written over.entry expressions.new kinds.new images.new) result }
    ensures lenders { images.new.slots.ghost_name ≡ images.old.slots.ghost_name }
    ensures limits { SameLimits expressions.old expressions.new }
{
    let mut work = BodyWork {
        entries: old.entries,
        operands: old.operands,
        over,
        scratch,
        expressions,
        kinds,
        images,
    };
    work.walk(folder)
}

// A walk that begins with nothing written. Of the kinds it is said afterwards how many there are.
fn walk_slices<F: Folder>(
    folder: &F,
    old: OldBody<'_>,
    over: SettledModule<'_>,
    scratch: &mut Table<Handle>,
    expressions: &mut Arena,
    kinds: &mut [ExpressionKind],
    images: &mut [Handle],
) -> WalkedBody
    requires wide { length old.operands.now ≤ limit scratch.old }
    requires small { length images.old ≤ 4294967295 }
    ensures went { (ks : List Kind) × Counted ks images.new result × Went (body_walk (F.verdict folder.now) (body_room_of_slices expressions.old kinds.old images.old)
        (nodes old.entry.entries.now old.entry.operands.now) (body_begun over.entry))
        (body_finished over.entry expressions.new ks images.new result) result.ended }
    ensures limits { SameLimits expressions.old expressions.new }
{
    expressions.clear();
    let mut kinds = ExpressionKindTracker::new(kinds);
    let mut images = HandleVec::new(images);
    let ended = walk_lent(
        folder,
        old,
        over,
        scratch,
        expressions,
        &mut kinds,
        &mut images,
    );
    WalkedBody {
        ended,
        kinds: kinds.len(),
        images: images.len(),
    }
}

// A walk over a body's entries, whatever the tables held before. None where `scratch` cannot hold so many operands, or where images
// would have no number. Of what is left in `kinds` it is said only how many are written.
pub fn walk_body<F: Folder>(
    folder: &F,
    old: OldBody<'_>,
    over: SettledModule<'_>,
    scratch: &mut Table<Handle>,
    expressions: &mut Arena,
    kinds: &mut [ExpressionKind],
    images: &mut [Handle],
) -> Option<WalkedBody>
    ensures walked { MatchOption result (UnfitBody old.entry scratch.old images.old) (λ w. (ks : List Kind) × Counted ks images.new w × BodyWalkedAs (F.verdict folder.now)
        (body_room_of_slices expressions.old kinds.old images.old) over.entry
        (nodes old.entry.entries.now old.entry.operands.now)
        (body_finished over.entry expressions.new ks images.new w) w.ended) }
    ensures limits { SameLimits expressions.old expressions.new }
{
    let numbers = u32::MAX as usize;
    let fits = old.operands.len() <= scratch.limit() && images.len() <= numbers;
    if !fits {
        return None;
    }
    Some(walk_slices(folder, old, over, scratch, expressions, kinds, images))
}
