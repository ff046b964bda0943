// Tables copied as they are.
ghost use Rattle.std.specs.Prelude.{◌≡◌, ◌≤◌, Bool, length, take, vec_items};
ghost use Rattle.arena.specs.Items.{limit as bound};
ghost use Rattle.pipeline_constants.specs.Contents.{new_constants, numbers};
ghost use Rattle.pipeline_constants.specs.Copies.{Holds};

use arena::{Handle, Table};
use evaluator::NewConstant;
use ir::Constant;

// These items, in place of what the table held.
pub(crate) fn copy<T: Copy>(table: &mut Table<T>, items: &[T])
    requires { length items.now ≤ bound table.old }
    ensures { Holds items.now table.old table.new }
{
    table.clear();
    let _ = table.push_all(items);
}

// These constants, all of them mapped or none.
pub(crate) fn copy_constants(table: &mut Table<NewConstant>, constants: &[Constant], mapped: bool)
    requires { length constants.now ≤ bound table.old }
    ensures { Holds (new_constants mapped constants.now) table.old table.new }
{
    table.clear();
    for constant in constants {
        let init = constant.init;
        let _ = table.push(NewConstant { init, mapped });
    }
}

// Each of the first so many handles as its own image.
fn number(values: &mut [Handle], count: usize)
    requires { (count ≤ length values.old) × (count ≤ 4294967295) }
    ensures { take count values.new ≡ numbers 0 count }
{
    for handle in 0..count {
        values[handle] = handle as u32;
    }
}

pub(crate) fn number_all(values: &mut Vec<Handle>, count: usize)
    requires { (count ≤ length (vec_items values.old)) × (count ≤ 4294967295) }
    ensures numbers { take count (vec_items values.new) ≡ numbers 0 count }
    ensures places { length (vec_items values.new) ≡ length (vec_items values.old) }
{
    number(values.as_mut_slice(), count);
}
