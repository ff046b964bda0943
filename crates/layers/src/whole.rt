// Whole numbers worked out.
ghost use Rattle.std.specs.Prelude.{◌≡◌, ◌+◌, ◌<◌, ◌^◌, min, Some, IfSome};
ghost use Rattle.evaluator.specs.Trees.{has_operators, operated};
ghost use Rattle.evaluator.specs.Views.{constants_of, node_of, tables_of};
ghost use Rattle.layers.specs.Layers.{whole, worked, worked_over, result_of, number_of, operator_numbered};
ghost use Rattle.layers.specs.Wholes.{whole_lawful};

use crate::values::{Value, behind};
use arena::Handle;
use evaluator::{Asked, Constants, ExpressionKind, Fault, Folder, Tables};
use kinds::Expression;

// Adds the Literal of a sum, difference or product of two literals of type I32, or of type U32, modulo 2^32. What is below it is
// asked about the rest.
#[derive(Clone, Copy, PartialEq, Eq, Debug)]
pub struct Whole<F> {
    pub below: F,
}

// naga's operators, as far as they are worked out.
#[derive(Clone, Copy, PartialEq, Eq, Debug)]
enum BinaryOperator {
    Add,
    Subtract,
    Multiply,
}

// The operator that word 0 of a Binary stands for.
fn operator_of(word: u32) -> Option<BinaryOperator>
    ensures { result ≡ operator_numbered word }
{
    match word {
        0 => Some(BinaryOperator::Add),
        1 => Some(BinaryOperator::Subtract),
        2 => Some(BinaryOperator::Multiply),
        _ => None,
    }
}

impl BinaryOperator {
    // On two 32-bit values, signed or not: their bits are the same.
    #[tactic(auto, unfolding(evaluator::specs::Trees::operated))]
    fn apply(self, left: u32, right: u32) -> u32
        ensures { operated (number_of self) left right ≡ Some result }
    {
        match self {
            BinaryOperator::Add => left.wrapping_add(right),
            BinaryOperator::Subtract => left.wrapping_sub(right),
            BinaryOperator::Multiply => left.wrapping_mul(right),
        }
    }
}

// I32 or U32.
fn has_operators(ty: u32) -> bool
    ensures { result ≡ has_operators ty }
{
    ty == 3 || ty == 4
}

// The result on two values of one type that has operators.
fn worked(op: BinaryOperator, left: Value, right: Value) -> Option<Value>
    ensures value { result ≡ worked op left right }
    ensures small { IfSome result (λ v. v.bits < 2 ^ 32) }
{
    if left.ty != right.ty || !has_operators(left.ty) {
        return None;
    }
    let bits = op.apply(
        u32::try_from(left.bits).ok()?,
        u32::try_from(right.bits).ok()?,
    );
    Some(Value {
        ty: left.ty,
        bits: bits as u64,
    })
}

// The result of an operator over two literals.
fn worked_over(
    tables: &Tables<'_, '_, '_>,
    constants: Constants<'_>,
    word: u32,
    operands: &[Handle],
) -> Option<Value>
    ensures value { result ≡ worked_over (tables_of (constants_of constants.entry) tables.now) word operands.now }
    ensures small { IfSome result (λ v. v.bits < 2 ^ 32) }
{
    let [left, right] = operands else {
        return None;
    };
    let op = operator_of(word)?;
    let left = behind(tables, constants, *left)?;
    let right = behind(tables, constants, *right)?;
    worked(op, left, right)
}

// The result of a Binary over two literals.
fn result_of(
    tables: &Tables<'_, '_, '_>,
    constants: Constants<'_>,
    expr: Asked<'_>,
) -> Option<Value>
    ensures value { result ≡ result_of (tables_of (constants_of constants.entry) tables.now) (node_of expr.entry) }
    ensures small { IfSome result (λ v. v.bits < 2 ^ 32) }
{
    if Expression::try_from(expr.kind) != Ok(Expression::Binary) {
        return None;
    }
    worked_over(tables, constants, expr.words[0], expr.operands)
}

impl<F: Folder> Folder for Whole<F> {
    ghost verdict = { λ s. whole (F.verdict s.below) };

    ghost height = { λ s. min (F.height s.below + 1) 4294967295 };

    fn layer(&self) -> u32 {
        self.below.layer().saturating_add(1)
    }

    fn consult(
        &self,
        tables: &mut Tables<'_, '_, '_>,
        constants: Constants<'_>,
        expr: Asked<'_>,
    ) -> Result<Option<Handle>, Fault> {
        let Some(value) = result_of(tables, constants, expr) else {
            return self.below.consult(tables, constants, expr);
        };
        let literal = Asked {
            kind: Expression::Literal as u8,
            words: [value.ty, value.bits as u32, 0, 0],
            operands: &[],
            span: expr.span,
        };
        Ok(Some(tables.append_expr(literal, ExpressionKind::Const)?))
    }

    ghost lawful = { λ s. whole_lawful (F.verdict s.below) (F.lawful s.below) };
}
