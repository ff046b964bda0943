// The folder at the bottom.
ghost use Rattle.std.specs.Prelude.{◌≡◌};
ghost use Rattle.layers.specs.Keeps.{keep_lawful};
ghost use Rattle.layers.specs.Layers.{keep, is_kept};

use arena::Handle;
use evaluator::{Asked, Constants, ExpressionKind, Fault, Folder, Tables};
use kinds::Expression;

// Keeps a Compose, Literal, Constant or ZeroValue as it is, and declines the rest.
#[derive(Clone, Copy, PartialEq, Eq, Debug)]
pub struct Keep;

fn is_kept(kind: u8) -> bool
    ensures { result ≡ is_kept kind }
{
    matches!(
        Expression::try_from(kind),
        Ok(Expression::Compose | Expression::Literal | Expression::Constant | Expression::ZeroValue)
    )
}

impl Folder for Keep {
    ghost verdict = { λ _. keep };

    ghost height = { λ _. 0 };

    fn layer(&self) -> u32 {
        0
    }

    fn consult(
        &self,
        tables: &mut Tables<'_, '_, '_>,
        _constants: Constants<'_>,
        expr: Asked<'_>,
    ) -> Result<Option<Handle>, Fault> {
        if !is_kept(expr.kind) {
            return Ok(None);
        }
        Ok(Some(tables.append_expr(expr, ExpressionKind::Const)?))
    }

    ghost lawful = { λ _. keep_lawful };
}
