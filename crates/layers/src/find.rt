// One entry for all that are alike.
ghost use Rattle.std.specs.Prelude.{◌≡◌, ◌+◌, min, Some, position};
ghost use Rattle.arena.specs.Appends.{nodes_of};
ghost use Rattle.evaluator.specs.Views.{constants_of, expressions_of, node_of, tables_of};
ghost use Rattle.layers.specs.Finds.{find_lawful};
ghost use Rattle.layers.specs.Layers.{find, found_in, is_like_entry};

use arena::{Entry, Handle};
use evaluator::{Asked, Constants, Fault, Folder, Tables, needs_pre_emit};

// Answers a pre-emit expression by the first that is equal to it in kind and words. What is below it is asked about the rest.
#[derive(Clone, Copy, PartialEq, Eq, Debug)]
pub struct Find<F> {
    pub below: F,
}

fn is_like(entry: &Entry, expr: Asked<'_>) -> bool
    ensures { result ≡ is_like_entry (node_of expr.entry) entry.now }
{
    entry.kind == expr.kind && entry.words == expr.words
}

// The first entry like it.
fn first_like(entries: &[Entry], expr: Asked<'_>) -> Option<usize>
    ensures { result ≡ position (is_like_entry (node_of expr.entry)) entries.now }
{
    entries.iter().position(|entry| is_like(entry, expr))
}

// The first expression like a pre-emit one.
#[tactic(auto, using(crate::proofs::Likes::position_like))]
fn found(tables: &Tables<'_, '_, '_>, expr: Asked<'_>) -> Option<Handle>
    ensures { result ≡ found_in (expressions_of tables.now) (node_of expr.entry) }
{
    if !needs_pre_emit(expr.kind) {
        return None;
    }
    let at = first_like(tables.expressions().entries(), expr)?;
    Some(at as u32)
}

impl<F: Folder> Folder for Find<F> {
    ghost verdict = { λ s. find (F.verdict s.below) };

    ghost height = { λ s. min (F.height s.below + 1) 4294967295 };

    fn layer(&self) -> u32 {
        self.below.layer().saturating_add(1)
    }

    fn consult(
        &self,
        tables: &mut Tables<'_, '_, '_>,
        constants: Constants<'_>,
        expr: Asked<'_>,
    ) -> Result<Option<Handle>, Fault> {
        match found(tables, expr) {
            Some(handle) => Ok(Some(handle)),
            None => self.below.consult(tables, constants, expr),
        }
    }

    ghost lawful = { λ s. find_lawful (F.verdict s.below) (F.lawful s.below) };
}
