// The finished tables of a module.
ghost use Rattle.std.specs.Prelude.{◌≡◌, vec_items};

use crate::slots::Slots;
use arena::{Entry, Handle, Table};
use evaluator::{ExpressionKind, NewConstant};
use ir::Override;

// What a settling has written: entries and their operands, constants, overrides with the inits that they took, the variables' inits, the
// image of each old handle, and the constant of each override.
#[derive(Drop)]
pub struct Finished {
    pub(crate) entries: Table<Entry>,
    pub(crate) operands: Table<Handle>,
    pub(crate) constants: Table<NewConstant>,
    pub(crate) overrides: Table<Override>,
    pub(crate) variables: Table<Option<Handle>>,
    pub(crate) images: Slots,
    pub(crate) settled: Slots,
    pub(crate) kinds: Table<ExpressionKind>,
}

// How many items of each finished table were written when a settling was refused. In a walk constants, overrides and variables begin as
// copies, which count.
#[derive(Clone, Copy, PartialEq, Eq, Debug)]
pub struct Written {
    pub entries: usize,
    pub operands: usize,
    pub constants: usize,
    pub overrides: usize,
    pub variables: usize,
    pub images: usize,
    pub settled: usize,
    pub kinds: usize,
}

impl Finished {
    ghost use Rattle.arena.specs.Items.{items};
    ghost use Rattle.pipeline_constants.specs.Views.{written_in, written_of};

    pub fn entries(&self) -> &[Entry]
        ensures { result.now ≡ items self.now.entries }
    {
        self.entries.as_slice()
    }

    // The list that the runs of the entries lie in.
    pub fn operands(&self) -> &[Handle]
        ensures { result.now ≡ items self.now.operands }
    {
        self.operands.as_slice()
    }

    pub fn constants(&self) -> &[NewConstant]
        ensures { result.now ≡ items self.now.constants }
    {
        self.constants.as_slice()
    }

    pub fn overrides(&self) -> &[Override]
        ensures { result.now ≡ items self.now.overrides }
    {
        self.overrides.as_slice()
    }

    pub fn variables(&self) -> &[Option<Handle>]
        ensures { result.now ≡ items self.now.variables }
    {
        self.variables.as_slice()
    }

    // The image of each old handle.
    pub fn handle_table(&self) -> &[Handle]
        ensures { result.now ≡ written_of self.now.images }
    {
        self.images.as_slice()
    }

    // The constant of each override.
    pub fn overrides_constants(&self) -> &[u32]
        ensures { result.now ≡ written_of self.now.settled }
    {
        self.settled.as_slice()
    }

    // The kind of each entry. Where the tables were copied there are none.
    pub fn kinds(&self) -> &[ExpressionKind]
        ensures { result.now ≡ items self.now.kinds }
    {
        self.kinds.as_slice()
    }

    // How much is written.
    pub(crate) fn written(&self) -> Written
        ensures { result ≡ written_in self.now }
    {
        Written {
            entries: self.entries.len(),
            operands: self.operands.len(),
            constants: self.constants.len(),
            overrides: self.overrides.len(),
            variables: self.variables.len(),
            images: self.images.as_slice().len(),
            settled: self.settled.as_slice().len(),
            kinds: self.kinds.len(),
        }
    }
}
