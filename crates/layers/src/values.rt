// Literals, seen through constants.
ghost use Rattle.std.specs.Prelude.{◌≡◌, map};
ghost use Rattle.std.specs.List.{slice_get};
ghost use Rattle.std.specs.Option.{option_map};
ghost use Rattle.arena.specs.Nodes.{node};
ghost use Rattle.evaluator.specs.Views.{constants_of, nodes_in, tables_of};
ghost use Rattle.layers.specs.Values.{value_by, value_at, init_by, init_at, init_below, behind_in, behind};

use arena::{Entry, Handle};
use evaluator::{Constants, NewConstant, Nodes, Tables};
use kinds::Expression;

// A literal's type and bits.
#[derive(Clone, Copy, PartialEq, Eq, Debug)]
pub struct Value {
    pub ty: u32,
    pub bits: u64,
}

// The literal that an entry of this kind with these words is.
fn value_by(kind: u8, words: [u32; 4]) -> Option<Value>
    ensures { result ≡ value_by kind words }
{
    if Expression::try_from(kind) != Ok(Expression::Literal) {
        return None;
    }
    let [ty, low, high, _] = words;
    Some(Value {
        ty,
        bits: low as u64 + 0x1_0000_0000 * high as u64,
    })
}

// The entry of a handle, if there is one.
fn entry_at(nodes: Nodes<'_>, handle: Handle) -> Option<Entry>
    ensures { option_map (node nodes.entry.operands.now) result ≡ slice_get (nodes_in nodes.entry) handle }
{
    nodes.entries.get(handle as usize).copied()
}

fn value_at(nodes: Nodes<'_>, handle: Handle) -> Option<Value>
    ensures { result ≡ value_at (nodes_in nodes.entry) handle }
{
    let entry = entry_at(nodes, handle)?;
    value_by(entry.kind, entry.words)
}

// The init of the constant that an entry of this kind with these words names.
fn init_by(constants: &[NewConstant], kind: u8, words: [u32; 4]) -> Option<Handle>
    ensures { result ≡ init_by (map (λ c. c.init) constants.now) kind words }
{
    if Expression::try_from(kind) != Ok(Expression::Constant) {
        return None;
    }
    constants
        .get(words[0] as usize)
        .map(|constant| constant.init)
}

fn init_at(nodes: Nodes<'_>, constants: &[NewConstant], handle: Handle) -> Option<Handle>
    ensures { result ≡ init_at (nodes_in nodes.entry) (map (λ c. c.init) constants.now) handle }
{
    let entry = entry_at(nodes, handle)?;
    init_by(constants, entry.kind, entry.words)
}

// The same, if it lies below the entry.
fn init_below(nodes: Nodes<'_>, constants: &[NewConstant], handle: Handle) -> Option<Handle>
    ensures { result ≡ init_below (nodes_in nodes.entry) (map (λ c. c.init) constants.now) handle }
{
    let init = init_at(nodes, constants, handle)?;
    (init < handle).then_some(init)
}

// The literal behind an entry of finished tables whose inits are its own. Each constant on the way leads further down, so
// however many there are, the way ends.
#[tactic(auto, using(crate::proofs::Seeing::behind_step, crate::proofs::Seeing::behind_here, crate::proofs::Seeing::init_is_below))]
pub fn literal_behind(nodes: Nodes<'_>, constants: &[NewConstant], handle: Handle) -> Option<Value>
    ensures { result ≡ behind_in (nodes_in nodes.entry) (map (λ c. c.init) constants.now) handle }
{
    let mut at = handle;
    while let Some(init) = init_below(nodes, constants, at) {
        at = init;
    }
    value_at(nodes, at)
}

// The literal behind an entry of the tables.
pub(crate) fn behind(
    tables: &Tables<'_, '_, '_>,
    constants: Constants<'_>,
    handle: Handle,
) -> Option<Value>
    ensures { result ≡ behind (tables_of (constants_of constants.entry) tables.now) handle }
{
    let expressions = Nodes::of(tables.expressions());
    let Some(globals) = constants.globals else {
        return literal_behind(expressions, constants.list, handle);
    };
    match init_at(expressions, constants.list, handle) {
        Some(init) => literal_behind(globals, constants.list, init),
        None => value_at(expressions, handle),
    }
}
