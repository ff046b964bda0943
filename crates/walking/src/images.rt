// Old handles sent to their images.
ghost use Rattle.std.specs.Prelude.{◌≡◌, ◌≤◌, length};
ghost use Rattle.arena.specs.Items.{items, limit};
ghost use Rattle.arena.specs.Nodes.{cut};
ghost use Rattle.walking.specs.Images.{image_of, images_of, kind_now, words_now};

use arena::{ABSENT, Handle, Run, Table};
use kinds::Expression;

// The operands that lie in a run.
pub(crate) fn cut(operands: &[Handle], run: Run) -> &[Handle]
    ensures { result.now ≡ cut run operands.now }
{
    let from = operands.len().min(run.at as usize);
    let rest = &operands[from..];
    &rest[..rest.len().min(run.len as usize)]
}

// The image of a handle that has one. The absent handle stays.
pub(crate) fn image_of(images: &[Handle], handle: Handle) -> Handle
    ensures { result ≡ image_of images.now handle }
{
    if handle == ABSENT {
        ABSENT
    } else {
        images.get(handle as usize).copied().unwrap_or(ABSENT)
    }
}

// Each operand sent to its image, in place of what `scratch` held.
pub(crate) fn adjust(images: &[Handle], operands: &[Handle], scratch: &mut Table<Handle>)
    requires { length operands.now ≤ limit scratch.old }
    ensures images { items scratch.new ≡ images_of images.now operands.now }
    ensures limit { limit scratch.new ≡ limit scratch.old }
{
    scratch.clear();
    for operand in operands {
        let _ = scratch.push(image_of(images, *operand));
    }
}

// An Override is from now on a Constant.
pub(crate) fn kind_now(kind: u8) -> u8
    ensures { result ≡ kind_now kind }
{
    if Expression::try_from(kind) == Ok(Expression::Override) {
        Expression::Constant as u8
    } else {
        kind
    }
}

// The words of an entry: an Override has the number of its constant.
pub(crate) fn words_now(settled: &[u32], kind: u8, words: [u32; 4]) -> [u32; 4]
    ensures { result ≡ words_now settled.now kind words }
{
    let mut now = words;
    if Expression::try_from(kind) == Ok(Expression::Override) {
        now[0] = settled.get(words[0] as usize).copied().unwrap_or(ABSENT);
    }
    now
}
