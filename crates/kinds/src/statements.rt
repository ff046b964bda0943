// The kinds of record, the operands of each and the blocks after it.
ghost use Rattle.std.specs.Prelude.{◌≡◌, Some};
ghost use Rattle.kinds.specs.Kinds.{row_of, slots_in_records, after_in_records};
ghost use Rattle.kinds.specs.Numbers.{statement_number, NumbersStatement};

use crate::Slot::{Needed as N, Optional as O, OptionalResult as P, Result as R};
use crate::{After, NONE, ONE, OPTION, Slots, THREE, TO_RESULT, TWO, UnknownKind};

// naga's statements, in the order of their numbers, and what opens and closes a block.
#[derive(Clone, Copy, PartialEq, Eq, Debug)]
pub enum Statement {
    Emit,
    Block,
    If,
    Switch,
    Loop,
    Return,
    Store,
    ImageStore,
    Atomic,
    ImageAtomic,
    WorkGroupUniformLoad,
    SubgroupBallot,
    SubgroupCollectiveOperation,
    SubgroupGather,
    Call,
    RayQuery,
    CooperativeStore,
    RayPipelineFunction,
    Break,
    Continue,
    Kill,
    ControlBarrier,
    MemoryBarrier,
    Open,
    Close,
}

impl TryFrom<u8> for Statement {
    type Error = UnknownKind;

    ghost try_from_gives = { NumbersStatement };

    fn try_from(number: u8) -> Result<Statement, UnknownKind> {
        match number {
            0 => Ok(Statement::Emit),
            1 => Ok(Statement::Block),
            2 => Ok(Statement::If),
            3 => Ok(Statement::Switch),
            4 => Ok(Statement::Loop),
            5 => Ok(Statement::Return),
            6 => Ok(Statement::Store),
            7 => Ok(Statement::ImageStore),
            8 => Ok(Statement::Atomic),
            9 => Ok(Statement::ImageAtomic),
            10 => Ok(Statement::WorkGroupUniformLoad),
            11 => Ok(Statement::SubgroupBallot),
            12 => Ok(Statement::SubgroupCollectiveOperation),
            13 => Ok(Statement::SubgroupGather),
            14 => Ok(Statement::Call),
            15 => Ok(Statement::RayQuery),
            16 => Ok(Statement::CooperativeStore),
            17 => Ok(Statement::RayPipelineFunction),
            18 => Ok(Statement::Break),
            19 => Ok(Statement::Continue),
            20 => Ok(Statement::Kill),
            21 => Ok(Statement::ControlBarrier),
            22 => Ok(Statement::MemoryBarrier),
            23 => Ok(Statement::Open),
            24 => Ok(Statement::Close),
            _ => Err(UnknownKind(number)),
        }
    }
}

impl Statement {
    // The operands that it has.
    pub fn slots(self) -> Slots<'static>
        ensures { slots_in_records (statement_number self) ≡ Some (row_of result) }
    {
        match self {
            Statement::Emit
            | Statement::Block
            | Statement::Break
            | Statement::Continue
            | Statement::Kill
            | Statement::ControlBarrier
            | Statement::MemoryBarrier
            | Statement::Open
            | Statement::Close => NONE,
            Statement::If | Statement::Switch => ONE,
            Statement::Loop | Statement::Return => OPTION,
            Statement::Store => TWO,
            Statement::ImageStore => Slots {
                more: false,
                slots: &[N, N, O, N],
            },
            Statement::Atomic => Slots {
                more: false,
                slots: &[N, N, P, O],
            },
            Statement::ImageAtomic => Slots {
                more: false,
                slots: &[N, N, O, N, O],
            },
            Statement::WorkGroupUniformLoad | Statement::SubgroupCollectiveOperation => TO_RESULT,
            Statement::SubgroupBallot => Slots {
                more: false,
                slots: &[O, R],
            },
            Statement::SubgroupGather => Slots {
                more: false,
                slots: &[O, N, R],
            },
            Statement::Call => Slots {
                more: true,
                slots: &[P],
            },
            Statement::RayQuery => Slots {
                more: false,
                slots: &[N, O, O, P, O],
            },
            Statement::CooperativeStore | Statement::RayPipelineFunction => THREE,
        }
    }

    // How many blocks stand after it.
    pub fn after(self) -> After
        ensures { after_in_records (statement_number self) ≡ Some result }
    {
        match self {
            Statement::Block => After::Blocks(1),
            Statement::If | Statement::Loop => After::Blocks(2),
            Statement::Switch => After::Cases,
            _ => After::Blocks(0),
        }
    }
}
