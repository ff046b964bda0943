// A folder that answers as naga's own evaluator does: by entries that stand already, and after entries of its own.
ghost use Rattle.std.specs.Prelude.{◌≡◌, ◌+◌, min};
ghost use Rattle.evaluator.specs.Views.{SameLenders, constants_of, node_of, tables_of};
ghost use Rattle.other_folders.specs.Others.{Padded, init_of, padding};
ghost use Rattle.other_folders.specs.Paddings.{padding_lawful};

use arena::Handle;
use evaluator::{
    Asked, Constants, ExpressionKind, Fault, Folder, FullTable, Tables, needs_pre_emit,
};
use kinds::Expression;

// Answers a constant of the module's own table by its init, where that is pre-emit, and adds a ZeroValue before each Compose. What is
// below it is asked about the rest.
#[derive(Clone, Copy, PartialEq, Eq, Debug)]
pub struct Padding<F> {
    pub below: F,
}

// The init of a constant, where it is a pre-emit entry of the same table.
fn own_init(
    tables: &Tables<'_, '_, '_>,
    constants: Constants<'_>,
    expr: Asked<'_>,
) -> Option<Handle>
    ensures { result ≡ init_of (tables_of (constants_of constants.entry) tables.now) (node_of expr.entry) }
{
    if constants.globals.is_some() || Expression::try_from(expr.kind) != Ok(Expression::Constant) {
        return None;
    }
    let init = constants.list.get(expr.words[0] as usize)?.init;
    let kind = tables.expressions().kind(init)?;
    needs_pre_emit(kind).then_some(init)
}

// A ZeroValue with the words and the span of an expression, and then the expression.
fn append_padded(tables: &mut Tables<'_, '_, '_>, expr: Asked<'_>) -> Result<Handle, FullTable>
    ensures cases { Padded (node_of expr.entry) tables.old tables.new result }
    ensures lenders { SameLenders tables.old tables.new }
{
    if let Some(table) = tables.first_full(2, expr.operands.len()) {
        return Err(table);
    }
    let zero = Asked {
        kind: Expression::ZeroValue as u8,
        words: expr.words,
        operands: &[],
        span: expr.span,
    };
    tables.append_expr(zero, ExpressionKind::Const)?;
    tables.append_expr(expr, ExpressionKind::Const)
}

impl<F: Folder> Folder for Padding<F> {
    ghost verdict = { λ s. padding (F.verdict s.below) };

    ghost height = { λ s. min (F.height s.below + 1) 4294967295 };

    fn layer(&self) -> u32 {
        self.below.layer().saturating_add(1)
    }

    fn consult(
        &self,
        tables: &mut Tables<'_, '_, '_>,
        constants: Constants<'_>,
        expr: Asked<'_>,
    ) -> Result<Option<Handle>, Fault> {
        if Expression::try_from(expr.kind) == Ok(Expression::Compose) {
            return Ok(Some(append_padded(tables, expr)?));
        }
        match own_init(tables, constants, expr) {
            Some(init) => Ok(Some(init)),
            None => self.below.consult(tables, constants, expr),
        }
    }

    ghost lawful = { λ s. padding_lawful (F.verdict s.below) (F.lawful s.below) };
}
