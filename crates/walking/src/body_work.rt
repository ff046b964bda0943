// The tables that a walk over a body's entries reads and writes.
ghost use Rattle.std.specs.Prelude.{◌≤◌, length};
ghost use Rattle.arena.specs.Held.{slots};
ghost use Rattle.arena.specs.Items.{limit};

use arena::{Arena, Entry, Handle, HandleVec, Table};
use evaluator::{ExpressionKindTracker, NewConstant, Nodes};

// What a body reads of a settled module: the constants, whose inits are finished global entries; these entries; and the constant of
// each override.
#[derive(Clone, Copy)]
pub struct SettledModule<'a> {
    pub constants: &'a [NewConstant],
    pub globals: Nodes<'a>,
    pub settled: &'a [u32],
}

// What a walk over a body reads and writes: the old entries with their operand list; the settled module; the finished entries so far,
// and the image of each old handle. All of it is lent, so a walk wants no memory. One entry's operands at a time are sent to their
// images in `scratch`.
#[derive(Drop)]
pub struct BodyWork<'o, 'g, 'x, 'e, 't, 'k, 'm, 'i> {
    pub(crate) entries: &'o [Entry],
    pub(crate) operands: &'o [Handle],
    pub(crate) over: SettledModule<'g>,
    pub(crate) scratch: &'x mut Table<Handle>,
    pub(crate) expressions: &'e mut Arena,
    pub(crate) kinds: &'t mut ExpressionKindTracker<'k>,
    pub(crate) images: &'m mut HandleVec<'i, Handle>,
    ghost wide: { length operands.now ≤ limit scratch.now },
    ghost small: { length (slots images.now) ≤ 4294967295 },
}
