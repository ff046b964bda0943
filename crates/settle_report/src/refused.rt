// The refusal of a settling, and what was written by then.
use crate::told::put_label;
use arena::Handle;
use fold_report::put_node;
use inspection::put_source_refusal;
use ir::Source;
use pipeline_constants::Written;
use refusals::Refusal;
use report::{Many, put_setting};
use settings::Settings;
use std::alloc::{AllocError, Global};
use std::fmt;
use std::fmt::Write;

// How much of each table is written, as it is told.
#[derive(Clone, Copy)]
struct Told(Written);

fn is_nothing(written: Written) -> bool {
    let Written {
        entries,
        operands,
        kinds,
        constants,
        overrides,
        variables,
        images,
        settled,
    } = written;
    let counts = [
        entries, operands, kinds, constants, overrides, variables, images, settled,
    ];
    counts.iter().all(|count| *count == 0)
}

impl fmt::Display for Told {
    fn fmt<W: fmt::Write>(&self, f: &mut fmt::Formatter<W>) -> fmt::Result {
        let written = self.0;
        if is_nothing(written) {
            return f.write_str("nothing is written");
        }
        let entries = Many(written.entries, "expression", "expressions");
        let operands = Many(written.operands, "operand", "operands");
        let kinds = Many(written.kinds, "kind", "kinds");
        let constants = Many(written.constants, "constant", "constants");
        let overrides = Many(written.overrides, "override", "overrides");
        let variables = Many(written.variables, "variable init", "variable inits");
        let images = Many(written.images, "image", "images");
        let settled = written.settled;
        write!(
            f,
            "written by then: {entries}, {operands}, {kinds}, {constants}, "
        )?;
        write!(f, "{overrides} ({settled} settled), {variables}, {images}")
    }
}

// The key at an index of a file that can be read.
fn put_key(out: &mut String, heap: Global, file: &[u8], at: usize) -> Result<(), AllocError> {
    if let Ok(settings) = Settings::read(file)
        && let Some(key) = settings.key(at)
        && let Some(value) = settings.value(at)
    {
        out.push_str(" (")?;
        put_setting(out, heap, at, key, value)?;
        out.push(')')?;
    }
    Ok(())
}

fn put_override(
    out: &mut String,
    heap: Global,
    source: &Source,
    number: usize,
) -> Result<(), AllocError> {
    let Some(item) = source.overrides.get(number) else {
        return Ok(());
    };
    out.push_str(" (")?;
    put_label(out, heap, &source.names, item)?;
    out.push(')')
}

fn put_expression(out: &mut String, source: &Source, handle: Handle) -> Result<(), AllocError> {
    let Some(entry) = source.entries.get(handle as usize) else {
        return Ok(());
    };
    out.push_str(" (")?;
    put_node(out, entry.kind, entry.words)?;
    out.push(')')
}

// What helps to find what is refused: the key, the override, the expression.
fn put_note(
    out: &mut String,
    heap: Global,
    source: &Source,
    file: &[u8],
    refusal: Refusal,
) -> Result<(), AllocError> {
    match refusal {
        Refusal::NotFound { key } => put_key(out, heap, file, key),
        Refusal::MissingValue { number }
        | Refusal::SrcNeedsToBeFinite { number }
        | Refusal::DstRangeTooSmall { number }
        | Refusal::UnsupportedScalar { number }
        | Refusal::InitNotMapped { number } => put_override(out, heap, source, number),
        Refusal::ConstantEvaluatorError { handle, .. } | Refusal::RuntimeExpr { handle } =>
            put_expression(out, source, handle),
        _ => Ok(()),
    }
}

// Why a module was not settled by a file, and what was written by then.
pub fn report_refused(
    heap: Global,
    source: &Source,
    file: &[u8],
    refusal: Refusal,
    written: Written,
) -> Result<String, AllocError> {
    let mut out = String::new(heap);
    put_source_refusal(&mut out, &refusal, source)?;
    put_note(&mut out, heap, source, file, refusal)?;
    writeln!(out, "\n{}", Told(written))?;
    Ok(out)
}
