// What each override became, and from which key.
ghost use Rattle.std.specs.Prelude.{◌≡◌, IfOk, vec_items};
ghost use Rattle.std.specs.Option.{option_map};
ghost use Rattle.settings.specs.Reading.{given};
ghost use Rattle.settle_report.specs.Outcomes.{AllBecame, Became, Known, name_in};

use crate::tables::FinishedTables;
use evaluator::NewConstant;
use fold_report::put_node;
use ir::{Override, Source};
use report::{Label, LiteralText, Outcome, Unresolved, put_taken, resolve};
use settings::{Identifier, Settings};
use shader_text::name_text;
use std::alloc::{AllocError, Global};
use std::fmt::Write;

// The name of an override, if it has one that lies in the name bytes.
fn name_of<'n>(names: &'n [u8], item: &Override) -> Option<&'n [u8]>
    ensures { option_map (λ n. n.now) result ≡ name_in names.now item.now.name }
{
    let run = item.name?;
    let at = run.at as usize;
    names.get(at..at + run.len as usize)
}

// What an override takes a key by.
pub fn identifier<'n>(names: &'n [u8], item: &Override) -> Identifier<'n>
    ensures { Known names.now item.now result }
{
    Identifier {
        id: item.id,
        name: name_of(names, item),
    }
}

// What becomes of an override under a settings file.
fn became(settings: &Settings<'_>, names: &[u8], item: &Override) -> Result<Outcome, Unresolved>
    ensures { Became (given settings.now) names.now item.now result }
{
    let who = identifier(names, item);
    resolve(settings, who, item.scalar, item.init)
}

// What becomes of each.
pub fn outcomes(
    heap: Global,
    source: &Source,
    settings: &Settings<'_>,
) -> Result<Vec<Result<Outcome, Unresolved>>, AllocError>
    ensures { IfOk result (λ all. AllBecame (given settings.now) (vec_items source.now.names) (vec_items source.now.overrides) (vec_items all)) }
{
    let mut all = Vec::new(heap);
    for item in &source.overrides {
        all.push(became(settings, &source.names, item))?;
    }
    Ok(all)
}

// An override by its id, its name and its scalar.
pub(crate) fn put_label(
    out: &mut String,
    heap: Global,
    names: &[u8],
    item: &Override,
) -> Result<(), AllocError> {
    let name = match name_of(names, item) {
        Some(name) => Some(name_text(heap, name)?),
        None => None,
    };
    let label = Label {
        id: item.id,
        name: name.as_deref(),
        scalar: item.scalar,
    };
    write!(out, "{label}")
}

// Where an override has its init from.
fn put_outcome(
    out: &mut String,
    heap: Global,
    settings: &Settings<'_>,
    outcome: &Result<Outcome, Unresolved>,
) -> Result<(), AllocError> {
    match outcome {
        Ok(
            Outcome::Made {
                key,
                value,
                literal,
            },
        ) => {
            put_taken(out, heap, settings, *key, *value)?;
            let literal = LiteralText(*literal);
            write!(out, ", literal {literal}")
        }
        Ok(Outcome::Kept { init }) => write!(out, "no value, init {init}"),
        Err(error) => {
            let code = error.code();
            write!(out, "refusal {code}, {error}")
        }
    }
}

// The constant of an override, and the finished expression that it begins as.
fn put_constant(
    out: &mut String,
    tables: FinishedTables<'_>,
    number: usize,
) -> Result<(), AllocError> {
    let Some(constant) = tables.settled.get(number) else {
        return out.push_str("; not settled");
    };
    write!(out, "; constant {constant}")?;
    let Some(NewConstant { init, .. }) = tables.constants.get(*constant as usize) else {
        return Ok(());
    };
    write!(out, ", expression {init}")?;
    let Some(entry) = tables.entries.get(*init as usize) else {
        return Ok(());
    };
    out.push(' ')?;
    put_node(out, entry.kind, entry.words)
}

// A line for each override, which a listing has as a comment.
pub(crate) fn put_overrides(
    out: &mut String,
    heap: Global,
    source: &Source,
    settings: &Settings<'_>,
    tables: FinishedTables<'_>,
    outcomes: &[Result<Outcome, Unresolved>],
) -> Result<(), AllocError> {
    for (i, (item, outcome)) in source.overrides.iter().zip(outcomes).enumerate() {
        write!(out, "# override {i}, ")?;
        put_label(out, heap, &source.names, item)?;
        out.push_str(": ")?;
        put_outcome(out, heap, settings, outcome)?;
        put_constant(out, tables, i)?;
        out.push('\n')?;
    }
    Ok(())
}
