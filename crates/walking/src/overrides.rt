// Overrides, settled in order.
ghost use Rattle.std.specs.Prelude.{◌≡◌, ◌∷◌, [], length};
ghost use Rattle.evaluator.specs.declared.expression_kind.ExpressionKind.TheVariants.{Const};
ghost use Rattle.walking.specs.States.{add, then};
ghost use Rattle.walking.specs.Overrides.{new_literal, settle_to, settle_by_init, settle_next, settle_more, settle_up_to, settle_rest};
ghost use Rattle.walking.specs.Works.{Stepped};
ghost use Rattle.rounding.specs.Conversion.{code_of as conversion_code};
ghost use Rattle.refusals.specs.Codes.{code_of};

use crate::work::Work;
use arena::{Handle, Span};
use evaluator::{Asked, ExpressionKind};
use kinds::Expression;
use refusals::Refusal;
use rounding::{ConversionError, Literal};

// An override as a walk needs it: the literal of the value given to it, or why there is none, and its init.
#[derive(Clone, Copy, PartialEq, Eq, Debug)]
pub struct Valued {
    pub given: Option<Result<Literal, ConversionError>>,
    pub init: Option<Handle>,
}

// Why the value of an override becomes no literal.
fn unconverted(number: usize, error: ConversionError) -> Refusal
    ensures { code_of result ≡ (conversion_code error, number ∷ []) }
{
    match error {
        ConversionError::SrcNeedsToBeFinite => Refusal::SrcNeedsToBeFinite { number },
        ConversionError::DstRangeTooSmall => Refusal::DstRangeTooSmall { number },
        ConversionError::UnsupportedScalar => Refusal::UnsupportedScalar { number },
    }
}

impl Work<'_, '_, '_, '_, '_, '_, '_, '_, '_, '_> {
    // The literal of a value, at the end of the table. It stands nowhere in the source.
    fn add_literal(&mut self, literal: Literal) -> Result<(), Refusal>
        ensures { Stepped (λ r s. add r Const (new_literal literal ∷ []) s) self.old self.new result }
    {
        let [ty, low, high] = literal.words();
        let expr = Asked {
            kind: Expression::Literal as u8,
            words: [ty, low, high, 0],
            operands: &[],
            span: Span { start: 0, end: 0 },
        };
        self.add(expr, ExpressionKind::Const)
    }

    // The next override becomes a constant with this init.
    fn settle_to(&mut self, init: Handle) -> Result<(), Refusal>
        ensures { Stepped (λ r s. settle_to r init s) self.old self.new result }
    {
        let number = self.constants.len() as u32;
        self.add_constant(init)?;
        self.note_settled(number)
    }

    // By the literal of its value.
    fn settle_by_value(&mut self, literal: Literal) -> Result<(), Refusal>
        ensures { Stepped (λ r s. then (add r Const (new_literal literal ∷ []) s) (settle_to r (length s.tables.entries))) self.old self.new result }
    {
        let handle = self.expressions.len() as u32;
        self.add_literal(literal)?;
        self.settle_to(handle)
    }

    // By its init's image.
    fn settle_by_init(&mut self, number: usize, init: Option<Handle>) -> Result<(), Refusal>
        ensures { Stepped (λ r s. settle_by_init r number init s) self.old self.new result }
    {
        let init = init.ok_or(Refusal::MissingValue { number })?;
        let image = self
            .images
            .get(init)
            .ok_or(Refusal::InitNotMapped { number })?;
        self.settle_to(image)
    }

    // The first override that is not yet settled.
    fn settle_next(&mut self, overrides: &[Valued]) -> Result<(), Refusal>
        ensures { Stepped (λ r s. settle_next r overrides.now s) self.old self.new result }
    {
        let number = self.settled.len();
        let Some(next) = overrides.get(number) else {
            return Err(Refusal::MissingValue { number });
        };
        match next.given {
            Some(Ok(literal)) => self.settle_by_value(literal),
            Some(Err(error)) => Err(unconverted(number, error)),
            None => self.settle_by_init(number, next.init),
        }
    }

    // So many more.
    #[tactic(auto, using(crate::proofs::Lefts::settle_step))]
    fn settle_more(&mut self, overrides: &[Valued], count: usize) -> Result<(), Refusal>
        ensures { Stepped (λ r s. settle_more r overrides.now count s) self.old self.new result }
    {
        for _ in 0..count {
            self.settle_next(overrides)?;
        }
        Ok(())
    }

    // All up to this one.
    pub(crate) fn settle_up_to(&mut self, overrides: &[Valued], number: u32) -> Result<(), Refusal>
        ensures { Stepped (λ r s. settle_up_to r overrides.now number s) self.old self.new result }
    {
        let count = (number as usize + 1).saturating_sub(self.settled.len());
        self.settle_more(overrides, count)
    }

    // All that are left.
    pub(crate) fn settle_rest(&mut self, overrides: &[Valued]) -> Result<(), Refusal>
        ensures { Stepped (λ r s. settle_rest r overrides.now s) self.old self.new result }
    {
        let count = overrides.len().saturating_sub(self.settled.len());
        self.settle_more(overrides, count)
    }
}
