// The tables that a walk over a module's entries reads and writes.
ghost use Rattle.std.specs.Prelude.{◌≡◌, ◌≤◌, length};
ghost use Rattle.arena.specs.Held.{slots};
ghost use Rattle.arena.specs.Items.{limit};
ghost use Rattle.evaluator.specs.Views.{AppendedIn, node_of};
ghost use Rattle.walking.specs.Fulls.{global_full};

use crate::images::image_of;
use arena::{Arena, Entry, Handle, HandleVec, Table};
use evaluator::{Asked, ExpressionKind, ExpressionKindTracker, FullTable, NewConstant, Tables};
use places::TableName;
use refusals::Refusal;

// What a walk reads and writes: the old entries with their operand list; the finished tables so far, the image of each old handle, and
// the constant of each override that is settled. All of it is lent, so a walk wants no memory. One entry's operands at a time are
// sent to their images in `scratch`.
#[derive(Drop)]
pub struct Work<'o, 'x, 'e, 't, 'k, 'c, 'm, 'i, 'n, 's> {
    pub(crate) entries: &'o [Entry],
    pub(crate) operands: &'o [Handle],
    pub(crate) scratch: &'x mut Table<Handle>,
    pub(crate) expressions: &'e mut Arena,
    pub(crate) kinds: &'t mut ExpressionKindTracker<'k>,
    pub(crate) constants: &'c mut Table<NewConstant>,
    pub(crate) images: &'m mut HandleVec<'i, Handle>,
    pub(crate) settled: &'n mut HandleVec<'s, u32>,
    ghost wide: { length operands.now ≤ limit scratch.now },
    ghost small: { (length (slots images.now) ≤ 4294967295) × (limit constants.now ≤ 4294967295) },
}

impl Work<'_, '_, '_, '_, '_, '_, '_, '_, '_, '_> {
    ghost use Rattle.std.specs.Prelude.{ℕ, ◌∷◌, []};
    ghost use Rattle.walking.specs.States.{add, note_image};
    ghost use Rattle.walking.specs.Images.{map_constant, map_rest, unmapped};
    ghost use Rattle.walking.specs.Overrides.{add_constant, note_settled};
    ghost use Rattle.walking.specs.Works.{Mapped, Stepped, state_of};

    // An entry at the end of the table.
    pub(crate) fn add(&mut self, expr: Asked<'_>, expr_type: ExpressionKind) -> Result<(), Refusal>
        ensures { Stepped (λ r s. add r expr_type (node_of expr.entry ∷ []) s) self.old self.new result }
    {
        match append(self.expressions, self.kinds, expr, expr_type) {
            Ok(_) => Ok(()),
            Err(table) => Err(full(table)),
        }
    }

    // The image of the next old handle.
    pub(crate) fn note_image(&mut self, image: Handle) -> Result<(), Refusal>
        ensures { Stepped (λ r s. note_image r image s) self.old self.new result }
    {
        self.images.push(image).map_err(|_| Refusal::Full {
            table: TableName::HandleTable,
        })
    }

    // The init of a constant that is not yet mapped.
    fn unmapped(&self, number: usize) -> Option<Handle>
        ensures { result ≡ unmapped (state_of self.now).tables.constants.list number }
    {
        let constant = self.constants.get(number)?;
        (!constant.mapped).then_some(constant.init)
    }

    // The init of a constant is sent to its image, once.
    pub(crate) fn map_constant(&mut self, number: usize)
        ensures { Mapped (map_constant number) self.old self.new }
    {
        if let Some(old) = self.unmapped(number) {
            let init = image_of(self.images.as_slice(), old);
            self.constants
                .put(number, NewConstant { init, mapped: true });
        }
    }

    // The init of each constant that is left.
    #[tactic(auto, using(crate::proofs::Lefts::map_step))]
    pub(crate) fn map_rest(&mut self)
        ensures { Mapped map_rest self.old self.new }
    {
        for number in 0..self.constants.len() {
            self.map_constant(number);
        }
    }

    // A constant with this init, which counts as mapped.
    pub(crate) fn add_constant(&mut self, init: Handle) -> Result<(), Refusal>
        ensures { Stepped (λ r s. add_constant r init s) self.old self.new result }
    {
        let constant = NewConstant { init, mapped: true };
        self.constants.push(constant).map_err(|_| Refusal::Full {
            table: TableName::Constants,
        })
    }

    // The constant of the next override.
    pub(crate) fn note_settled(&mut self, constant: u32) -> Result<(), Refusal>
        ensures { Stepped (λ r s. note_settled r constant s) self.old self.new result }
    {
        self.settled.push(constant).map_err(|_| Refusal::Full {
            table: TableName::OverridesConstants,
        })
    }
}

// An expression at the end of a table. Apart from the walk, since of a field that is lent inside a struct nothing is known afterwards.
pub(crate) fn append(
    expressions: &mut Arena,
    kinds: &mut ExpressionKindTracker<'_>,
    expr: Asked<'_>,
    expr_type: ExpressionKind,
) -> Result<Handle, FullTable>
    ensures cases { AppendedIn expr_type (node_of expr.entry) expressions.old kinds.old expressions.new kinds.new result }
    ensures lender { kinds.new.inner.slots.ghost_name ≡ kinds.old.inner.slots.ghost_name }
{
    let mut tables = Tables {
        expressions,
        expression_kind_tracker: kinds,
    };
    tables.append_expr(expr, expr_type)
}

// The refusal for a full table of a module's.
pub(crate) fn full(table: FullTable) -> Refusal
    ensures { result ≡ global_full table }
{
    let table = match table {
        FullTable::Entries => TableName::GlobalEntries,
        FullTable::Operands => TableName::GlobalOperands,
        FullTable::Kinds => TableName::Kinds,
    };
    Refusal::Full { table }
}
