// What is sent to its image, or takes an init, once a walk is over.
ghost use Rattle.std.specs.Prelude.{◌≡◌, ◌≤◌, length};
ghost use Rattle.arena.specs.Items.{limit as bound};
ghost use Rattle.walking.specs.Images.{image_of};
ghost use Rattle.pipeline_constants.specs.Contents.{init_taken, taken, taken_from, variables_mapped};
ghost use Rattle.pipeline_constants.specs.Copies.{Holds};

use arena::{ABSENT, Handle, Table};
use evaluator::NewConstant;
use ir::Override;

// The image of a handle; the absent handle has none, and stays.
pub(crate) fn image_of(images: &[Handle], handle: Handle) -> Handle
    ensures { result ≡ image_of images.now handle }
{
    if handle == ABSENT {
        return ABSENT;
    }
    images.get(handle as usize).copied().unwrap_or(ABSENT)
}

// The variables' inits, sent to their images.
pub(crate) fn map_variables(
    table: &mut Table<Option<Handle>>,
    variables: &[Option<Handle>],
    images: &[Handle],
)
    requires { length variables.now ≤ bound table.old }
    ensures { Holds (variables_mapped images.now variables.now) table.old table.new }
{
    table.clear();
    for init in variables {
        let _ = table.push(init.map(|handle| image_of(images, handle)));
    }
}

// The init of an override's constant, once it is settled.
fn init_taken(constants: &[NewConstant], settled: &[u32], number: usize) -> Option<Handle>
    ensures { result ≡ init_taken constants.now settled.now number }
{
    let constant = settled.get(number)?;
    let constant = constants.get(*constant as usize)?;
    Some(constant.init)
}

// An override that is settled takes its constant's init.
fn taken(constants: &[NewConstant], settled: &[u32], number: usize, item: Override) -> Override
    ensures { result ≡ taken constants.now settled.now number item }
{
    Override {
        init: init_taken(constants, settled, number).or(item.init),
        ..item
    }
}

pub(crate) fn take_inits(
    table: &mut Table<Override>,
    overrides: &[Override],
    settled: &[u32],
    constants: &[NewConstant],
)
    requires { length overrides.now ≤ bound table.old }
    ensures { Holds (taken_from constants.now settled.now 0 overrides.now) table.old table.new }
{
    table.clear();
    for (number, item) in overrides.iter().enumerate() {
        let _ = table.push(taken(constants, settled, number, *item));
    }
}
