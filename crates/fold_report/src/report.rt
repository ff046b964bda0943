// The report of a fold.
use crate::piles::Pile;
use crate::trees::{DEPTH, put_node, put_tree};
use arena::Handle;
use folding::{FoldError, Folded, fold_source};
use layers::{Find, Keep, Whole};
use shader_text::{Shader, ShaderError, read_shader};
use std::alloc::{AllocError, Global};
use std::fmt::Write;
use thiserror::Error;

// Why there is no report.
#[derive(Debug, Drop, Error)]
pub enum FoldReportError {
    #[error(transparent)]
    Listing(#[from] ShaderError),
    #[error(transparent)]
    Fold(#[from] FoldError),
    #[error("there is no expression {0}")]
    NoExpression(Handle),
    #[error("memory ran out")]
    OutOfMemory(#[from(alloc)] AllocError),
}

fn fold(heap: Global, shader: &Shader, pile: Pile) -> Result<Folded, FoldError> {
    let keep = Keep;
    let source = &shader.source;
    let sizes = &shader.sizes;
    match pile {
        Pile::Keep => fold_source(heap, source, sizes, &keep),
        Pile::KeepWhole => fold_source(heap, source, sizes, &Whole { below: keep }),
        Pile::KeepFind => fold_source(heap, source, sizes, &Find { below: keep }),
        Pile::KeepWholeFind => {
            let whole = Whole { below: keep };
            fold_source(heap, source, sizes, &Find { below: whole })
        }
        Pile::KeepFindWhole => {
            let find = Find { below: keep };
            fold_source(heap, source, sizes, &Whole { below: find })
        }
    }
}

// What the expressions became, one in a line.
fn put_images(out: &mut String, shader: &Shader, folded: &Folded) -> Result<(), AllocError> {
    for (i, (entry, image)) in shader
        .source
        .entries
        .iter()
        .zip(folded.images.iter())
        .enumerate()
    {
        write!(out, "{i} ")?;
        put_node(out, entry.kind, entry.words)?;
        write!(out, " becomes {image} ")?;
        if let Some(kind) = folded.entries.kind(*image)
            && let Some(words) = folded.entries.words(*image)
        {
            put_node(out, kind, words)?;
        }
        out.push('\n')?;
    }
    Ok(())
}

// What each expression of the module in a listing becomes under a pile, and the trees of those that are asked for.
pub fn report_folds(
    heap: Global,
    text: &str,
    pile: Pile,
    trees: &[Handle],
) -> Result<String, FoldReportError> {
    let shader = read_shader(heap, text)?;
    let folded = fold(heap, &shader, pile)?;
    let mut out = String::new(heap);
    put_images(&mut out, &shader, &folded)?;
    for handle in trees {
        let Some(image) = folded.images.get(*handle as usize) else {
            return Err(FoldReportError::NoExpression(*handle));
        };
        write!(out, "tree of {handle}: ")?;
        put_tree(&mut out, &folded, *image, DEPTH)?;
        out.push('\n')?;
    }
    let before = shader.source.entries.len();
    let after = folded.entries.len();
    writeln!(out, "{before} expressions before, {after} after")?;
    Ok(out)
}
