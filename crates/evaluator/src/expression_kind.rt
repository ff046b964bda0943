// Whether an expression can be worked out before the run.
ghost use Rattle.std.specs.Prelude.{◌≡◌, ◌+◌, ◌≤◌, [], length, Decides};
ghost use Rattle.arena.specs.Held.{held, slots as every, Inserted, Pushed};
ghost use Rattle.blocks.specs.Sight.{one_of};
ghost use Rattle.evaluator.specs.ExpressionKinds.{larger, kind_at, operand_kind, largest, is_constant_kind, follows_operands, type_with};
ghost use Rattle.evaluator.specs.declared.expression_kind.ExpressionKind.TheVariants.{Const, Runtime};

use arena::{ABSENT, Handle, HandleVec, InsertError};
use kinds::Expression;

// Const can be worked out now, Override once overrides have their values, Runtime only in the run.
#[derive(Clone, Copy, PartialEq, Eq, Debug)]
pub enum ExpressionKind {
    Const,
    Override,
    Runtime,
}

impl ExpressionKind {
    // The larger of two, in the order of the variants.
    pub fn max(self, other: ExpressionKind) -> ExpressionKind
        ensures { result ≡ larger self other }
    {
        match (self, other) {
            (ExpressionKind::Const, _) => other,
            (ExpressionKind::Override, ExpressionKind::Runtime) => other,
            _ => self,
        }
    }
}

// The kind of each expression so far, by handle.
#[derive(Drop)]
pub struct ExpressionKindTracker<'a> {
    pub inner: HandleVec<'a, ExpressionKind>,
}

// Literal, Constant and ZeroValue can always be worked out.
fn is_constant(kind: u8) -> bool
    ensures { result ≡ is_constant_kind kind }
{
    matches!(
        Expression::try_from(kind),
        Ok(Expression::Literal | Expression::Constant | Expression::ZeroValue)
    )
}

// The kinds that can be worked out where their operands can.
fn follows(kind: u8) -> bool
    ensures { result ≡ follows_operands kind }
{
    matches!(
        Expression::try_from(kind),
        Ok(
            Expression::Compose
                | Expression::Access
                | Expression::AccessIndex
                | Expression::Splat
                | Expression::Swizzle
                | Expression::Unary
                | Expression::Binary
                | Expression::Select
                | Expression::Relational
                | Expression::Math
                | Expression::As
                | Expression::ArrayLength
        )
    )
}

impl<'a> ExpressionKindTracker<'a> {
    // Knows no expression yet, whatever stands in the slots.
    pub fn new(slots: &'a mut [ExpressionKind]) -> ExpressionKindTracker<'a>
        ensures held { held result.inner ≡ [] }
        ensures slots { every result.inner ≡ slots.old }
        ensures lender { result.inner.slots.ghost_name ≡ slots.entry.ghost_name }
    {
        ExpressionKindTracker {
            inner: HandleVec::new(slots),
        }
    }

    // How many expressions it knows.
    pub fn len(&self) -> usize
        ensures value { result ≡ length (held self.now.inner) }
        ensures bound { result ≤ length (every self.now.inner) }
    {
        self.inner.len()
    }

    // How many more there may be.
    pub fn room(&self) -> usize
        ensures { result + length (held self.now.inner) ≡ length (every self.now.inner) }
    {
        self.inner.room()
    }

    // Gives an expression its kind, which has to be the next one.
    pub fn insert(&mut self, value: Handle, expr_type: ExpressionKind) -> Result<(), InsertError>
        ensures cases { Inserted value expr_type self.old.inner self.new.inner result }
        ensures lender { self.new.inner.slots.ghost_name ≡ self.old.inner.slots.ghost_name }
    {
        self.inner.insert(value, expr_type)
    }

    // Gives the next expression its kind.
    pub fn push(&mut self, expr_type: ExpressionKind) -> Result<(), InsertError>
        ensures cases { Pushed expr_type self.old.inner self.new.inner result }
        ensures lender { self.new.inner.slots.ghost_name ≡ self.old.inner.slots.ghost_name }
    {
        self.inner.push(expr_type)
    }

    // An expression that it does not know is as good as Runtime.
    pub fn type_of(&self, value: Handle) -> ExpressionKind
        ensures { result ≡ kind_at (held self.now.inner) value }
    {
        self.inner.get(value).unwrap_or(ExpressionKind::Runtime)
    }

    pub fn is_const(&self, h: Handle) -> bool
        ensures { Decides result (kind_at (held self.now.inner) h ≡ Const) }
    {
        self.type_of(h) == ExpressionKind::Const
    }

    // An operand that is not there stands in no way.
    fn operand_kind(&self, operand: Handle) -> ExpressionKind
        ensures { result ≡ operand_kind (held self.now.inner) operand }
    {
        if operand == ABSENT {
            ExpressionKind::Const
        } else {
            self.type_of(operand)
        }
    }

    // The largest kind of the operands that are there.
    fn largest(&self, operands: &[Handle]) -> ExpressionKind
        ensures { result ≡ largest (held self.now.inner) operands.now }
    {
        operands
            .iter()
            .fold(ExpressionKind::Const, |kind, operand| {
                kind.max(self.operand_kind(*operand))
            })
    }

    // The kind of an expression that is not yet there, by those of its operands.
    #[tactic(auto, unfolding(crate::specs::ExpressionKinds::type_with))]
    pub fn type_of_with_expr(&self, kind: u8, operands: &[Handle]) -> ExpressionKind
        ensures { result ≡ type_with (held self.now.inner) kind operands.now }
    {
        if is_constant(kind) {
            ExpressionKind::Const
        } else if Expression::try_from(kind) == Ok(Expression::Override) {
            ExpressionKind::Override
        } else if follows(kind) {
            self.largest(operands)
        } else {
            ExpressionKind::Runtime
        }
    }
}
