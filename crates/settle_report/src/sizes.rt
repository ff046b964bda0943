// The sizes that expressions gave, and the images of the old handles.
use crate::tables::FinishedTables;
use arena::Handle;
use fold_report::put_node;
use ir::Sizes;
use shader_text::SIZE_NAMES;
use std::alloc::AllocError;
use std::fmt::Write;

// How many images stand in a line.
const IMAGES: usize = 16;

// What became of an old expression.
fn put_image(
    out: &mut String,
    tables: FinishedTables<'_>,
    handle: Handle,
) -> Result<(), AllocError> {
    let Some(image) = tables.images.get(handle as usize) else {
        return Ok(());
    };
    write!(out, ", which became {image}")?;
    let Some(entry) = tables.entries.get(*image as usize) else {
        return Ok(());
    };
    out.push(' ')?;
    put_node(out, entry.kind, entry.words)
}

// A line for each size that an expression of the module gave, which a listing has as a comment.
pub(crate) fn put_sizes(
    out: &mut String,
    before: &Sizes,
    after: &Sizes,
    tables: FinishedTables<'_>,
) -> Result<(), AllocError> {
    let sizes = before.all().into_iter().zip(after.all());
    for (name, (old, new)) in SIZE_NAMES.iter().zip(sizes) {
        if let Some(handle) = old.handle {
            let value = new.value;
            write!(out, "# size {name} {value} by expression {handle}")?;
            put_image(out, tables, handle)?;
            out.push('\n')?;
        }
    }
    Ok(())
}

// The image of each old handle, in lines that a listing has as comments.
pub(crate) fn put_images(out: &mut String, images: &[Handle]) -> Result<(), AllocError> {
    let mut from = 0usize;
    for some in images.chunks(IMAGES) {
        write!(out, "# images from {from} on:")?;
        for image in some {
            write!(out, " {image}")?;
        }
        out.push('\n')?;
        from = from.saturating_add(some.len());
    }
    Ok(())
}
