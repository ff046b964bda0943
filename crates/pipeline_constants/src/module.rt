// A module that is not settled.
ghost use Rattle.std.specs.Prelude.{◌≡◌, ◌≤◌, length, IfOk, vec_items};
ghost use Rattle.arena.specs.Items.{limit as bound};

use crate::finished::Finished;
use crate::room::Room;
use crate::slots::Slots;
use arena::{Handle, Table};
use evaluator::ExpressionKind;
use ir::{Sizes, Source};
use std::alloc::{AllocError, Global};
use walking::Valued;

// A module that is not settled: its tables and sizes, and memory for all that a settling writes, taken when it is made. So no settling
// wants memory. What an earlier settling wrote may still stand there.
#[derive(Drop)]
pub struct Module {
    pub(crate) source: Source,
    pub(crate) sizes: Sizes,
    pub(crate) finished: Finished,
    pub(crate) scratch: Table<Handle>,
    pub(crate) kinds: Vec<ExpressionKind>,
    pub(crate) values: Table<Valued>,
    ghost operands: { length (vec_items source.operands) ≤ bound scratch },
    ghost overrides: { length (vec_items source.overrides) ≤ bound values },
    ghost tables: { (bound finished.entries ≤ 65536) × (bound finished.operands ≤ 262144) },
    ghost recordable: { length (vec_items kinds) ≡ bound finished.kinds },
    ghost handles: { (bound finished.constants ≤ 65536) × (length (vec_items finished.images.values) ≤ 65536) },
}

impl Finished {
    ghost use Rattle.pipeline_constants.specs.Modules.{Empty};

    // Tables with nothing in them, and memory for all that they may hold.
    fn with_room(heap: Global, room: Room) -> Result<Finished, AllocError>
        ensures { IfOk result (λ f. Empty room f) }
    {
        Ok(Finished {
            entries: Table::with_limit(heap, room.entries as usize)?,
            operands: Table::with_limit(heap, room.operands as usize)?,
            constants: Table::with_limit(heap, room.constants as usize)?,
            overrides: Table::with_limit(heap, room.overrides as usize)?,
            variables: Table::with_limit(heap, room.variables)?,
            images: Slots::with_limit(heap, room.handles as usize)?,
            settled: Slots::with_limit(heap, room.settled as usize)?,
            kinds: Table::with_limit(heap, room.kinds as usize)?,
        })
    }
}

impl Module {
    ghost use Rattle.pipeline_constants.specs.Modules.{New};

    // A module of these tables and sizes, with memory for as many finished items as `room` allows and tables hold. The tables may hold
    // anything: settling checks them.
    pub fn new(heap: Global, source: Source, sizes: Sizes, room: Room) -> Result<Module, AllocError>
        ensures { IfOk result (λ m. New source sizes room m) }
    {
        let room = room.within(&source);
        let finished = Finished::with_room(heap, room)?;
        let scratch = Table::with_limit(heap, source.operands.len())?;
        let kinds = vec![in heap; ExpressionKind::Runtime; room.kinds as usize]?;
        let values = Table::with_limit(heap, source.overrides.len())?;
        Ok(Module {
            source,
            sizes,
            finished,
            scratch,
            kinds,
            values,
        })
    }

    pub fn source(&self) -> &Source
        ensures { result.now ≡ self.now.source }
    {
        &self.source
    }

    pub fn sizes(&self) -> &Sizes
        ensures { result.now ≡ self.now.sizes }
    {
        &self.sizes
    }

    // What settlings have written so far. Each that begins writes all of it anew; one that is refused before that leaves it as it was.
    pub fn finished(&self) -> &Finished
        ensures { result.now ≡ self.now.finished }
    {
        &self.finished
    }
}
