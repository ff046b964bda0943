// The kinds of expression, and the operands of each.
ghost use Rattle.std.specs.Prelude.{◌≡◌, Some};
ghost use Rattle.std.specs.List.{slice_get};
ghost use Rattle.kinds.specs.Kinds.{expressions, row_of};
ghost use Rattle.kinds.specs.Numbers.{expression_number, NumbersExpression};

use crate::Slot::{Needed as N, Optional as O};
use crate::{NONE, ONE, Slots, THREE, TWO, UnknownKind};

// naga's expressions, in the order of their numbers.
#[derive(Clone, Copy, PartialEq, Eq, Debug)]
pub enum Expression {
    Compose,
    Access,
    AccessIndex,
    Splat,
    Swizzle,
    Load,
    ImageSample,
    ImageLoad,
    ImageQuery,
    Unary,
    Binary,
    Select,
    Derivative,
    Relational,
    Math,
    As,
    ArrayLength,
    RayQueryGetIntersection,
    Literal,
    FunctionArgument,
    GlobalVariable,
    LocalVariable,
    CallResult,
    RayQueryProceedResult,
    Constant,
    Override,
    ZeroValue,
    AtomicResult,
    WorkGroupUniformLoadResult,
    SubgroupBallotResult,
    SubgroupOperationResult,
    RayQueryVertexPositions,
    CooperativeLoad,
    CooperativeMultiplyAdd,
}

impl TryFrom<u8> for Expression {
    type Error = UnknownKind;

    ghost try_from_gives = { NumbersExpression };

    fn try_from(number: u8) -> Result<Expression, UnknownKind> {
        match number {
            0 => Ok(Expression::Compose),
            1 => Ok(Expression::Access),
            2 => Ok(Expression::AccessIndex),
            3 => Ok(Expression::Splat),
            4 => Ok(Expression::Swizzle),
            5 => Ok(Expression::Load),
            6 => Ok(Expression::ImageSample),
            7 => Ok(Expression::ImageLoad),
            8 => Ok(Expression::ImageQuery),
            9 => Ok(Expression::Unary),
            10 => Ok(Expression::Binary),
            11 => Ok(Expression::Select),
            12 => Ok(Expression::Derivative),
            13 => Ok(Expression::Relational),
            14 => Ok(Expression::Math),
            15 => Ok(Expression::As),
            16 => Ok(Expression::ArrayLength),
            17 => Ok(Expression::RayQueryGetIntersection),
            18 => Ok(Expression::Literal),
            19 => Ok(Expression::FunctionArgument),
            20 => Ok(Expression::GlobalVariable),
            21 => Ok(Expression::LocalVariable),
            22 => Ok(Expression::CallResult),
            23 => Ok(Expression::RayQueryProceedResult),
            24 => Ok(Expression::Constant),
            25 => Ok(Expression::Override),
            26 => Ok(Expression::ZeroValue),
            27 => Ok(Expression::AtomicResult),
            28 => Ok(Expression::WorkGroupUniformLoadResult),
            29 => Ok(Expression::SubgroupBallotResult),
            30 => Ok(Expression::SubgroupOperationResult),
            31 => Ok(Expression::RayQueryVertexPositions),
            32 => Ok(Expression::CooperativeLoad),
            33 => Ok(Expression::CooperativeMultiplyAdd),
            _ => Err(UnknownKind(number)),
        }
    }
}

impl Expression {
    // The operands that it has.
    pub fn slots(self) -> Slots<'static>
        ensures { slice_get expressions (expression_number self) ≡ Some (row_of result) }
    {
        match self {
            Expression::Compose => Slots {
                more: true,
                slots: &[],
            },
            Expression::Access | Expression::Binary | Expression::CooperativeLoad => TWO,
            Expression::AccessIndex
            | Expression::Splat
            | Expression::Swizzle
            | Expression::Load
            | Expression::Unary
            | Expression::Derivative
            | Expression::Relational
            | Expression::As
            | Expression::ArrayLength
            | Expression::RayQueryGetIntersection
            | Expression::RayQueryVertexPositions => ONE,
            Expression::ImageSample => Slots {
                more: false,
                slots: &[N, N, N, O, O, O, O, O],
            },
            Expression::ImageLoad => Slots {
                more: false,
                slots: &[N, N, O, O, O],
            },
            Expression::ImageQuery => Slots {
                more: false,
                slots: &[N, O],
            },
            Expression::Select | Expression::CooperativeMultiplyAdd => THREE,
            Expression::Math => Slots {
                more: false,
                slots: &[N, O, O, O],
            },
            Expression::Literal
            | Expression::FunctionArgument
            | Expression::GlobalVariable
            | Expression::LocalVariable
            | Expression::CallResult
            | Expression::RayQueryProceedResult
            | Expression::Constant
            | Expression::Override
            | Expression::ZeroValue
            | Expression::AtomicResult
            | Expression::WorkGroupUniformLoadResult
            | Expression::SubgroupBallotResult
            | Expression::SubgroupOperationResult => NONE,
        }
    }
}
