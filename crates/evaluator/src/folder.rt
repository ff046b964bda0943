// The evaluator's inner part, behind an interface.
ghost use Rattle.std.specs.Prelude.{◌≡◌, ℕ};
ghost use Rattle.arena.specs.Nodes.{Node};
ghost use Rattle.blocks.specs.Sight.{is_pre_emit};
ghost use Rattle.evaluator.specs.Tables.{Tables as Seen};
ghost use Rattle.evaluator.specs.Verdicts.{Verdict, Meaning};
ghost use Rattle.evaluator.specs.Views.{node_of, constants_of, SameLenders};
ghost use Rattle.evaluator.specs.Clauses.{Clauses};
ghost use Rattle.evaluator.specs.Consulted.{Consulted};
ghost use Rattle.evaluator.specs.declared.folder.Fault.TheVariants.{Full};

use crate::tables::{Asked, Constants, FullTable, Tables};
use arena::Handle;
use kinds::Expression;
use thiserror::Error;

// Why a folder that was asked has no answer.
#[derive(Clone, Copy, PartialEq, Eq, Debug, Error)]
pub enum Fault {
    // Layers count from 0 at the bottom. A layer's codes are its own, from 1 to 255.
    #[error("layer {layer}, code {code}")]
    Layer { layer: u32, code: u8 },
    #[error("{0}")]
    Full(FullTable),
}

impl From<FullTable> for Fault {
    ghost from_gives = { λ table r. r ≡ Full table };

    fn from(table: FullTable) -> Fault {
        Fault::Full(table)
    }
}

// Whether an expression of this kind is in effect without being emitted.
pub fn needs_pre_emit(kind: u8) -> bool
    ensures { result ≡ is_pre_emit kind }
{
    matches!(
        Expression::try_from(kind),
        Ok(
            Expression::Literal
                | Expression::FunctionArgument
                | Expression::GlobalVariable
                | Expression::LocalVariable
                | Expression::Constant
                | Expression::Override
                | Expression::ZeroValue
        )
    )
}

// A constant evaluator. It is asked about an expression whose operands are in the tables, and folds it, declines it, or faults.
pub trait Folder {
    // What it says depends on its own settings, on what the tables hold and on the expression, and not on how much room is left.
    ghost verdict: { Self → Seen → Node → Verdict };

    // How many layers lie below it.
    ghost height: { Self → ℕ };

    fn layer(&self) -> u32
        ensures { result ≡ height self.now };

    // Adds what it folds the expression to, and gives the handle that stands for the expression; none where it declines.
    fn consult(
        &self,
        tables: &mut Tables<'_, '_, '_>,
        constants: Constants<'_>,
        expr: Asked<'_>,
    ) -> Result<Option<Handle>, Fault>
        ensures told { Consulted (verdict self.now) (constants_of constants.entry) (node_of expr.entry) tables.old tables.new result }
        ensures lenders { SameLenders tables.old tables.new };

    ghost lawful: { (s : Self) → Clauses (verdict s) };
}
