// Asking a folder about an expression.
ghost use Rattle.evaluator.specs.Views.{node_of, constants_of, SameLenders};
ghost use Rattle.evaluator.specs.Consulted.{Tried};

use crate::expression_kind::ExpressionKind;
use crate::folder::{Fault, Folder};
use crate::tables::{Asked, Constants, Tables};
use arena::Handle;

// What became of an expression that was to be worked out.
#[derive(Clone, Copy, PartialEq, Eq, Debug)]
pub enum Evaluated {
    // This handle stands for it.
    Folded(Handle),
    // The folder declines it.
    Declined,
    // An override or a value of the run stands in it, so no folder was asked.
    NotConst,
}

impl Tables<'_, '_, '_> {
    // Asks the folder about an expression whose operands are in the tables, if it is Const. What is added is added as Const.
    pub fn try_eval_and_append<F: Folder>(
        &mut self,
        folder: &F,
        constants: Constants<'_>,
        expr: Asked<'_>,
    ) -> Result<Evaluated, Fault>
        ensures tried { Tried (F.verdict folder.now) (constants_of constants.entry) (node_of expr.entry) self.old self.new result }
        ensures lenders { SameLenders self.old self.new }
    {
        if self.type_of_with_expr(expr) != ExpressionKind::Const {
            return Ok(Evaluated::NotConst);
        }
        let answer = folder.consult(self, constants, expr)?;
        Ok(answer.map_or(Evaluated::Declined, Evaluated::Folded))
    }
}
