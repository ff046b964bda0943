// How the parts of a report look.
use crate::counts::{first_with, kind_counts};
use crate::verdicts::Tally;
use arena::Entry;
use blocks::deepest;
use ir::{Body, Size, Sizes, Source};
use operands::Sort;
use places::{Place, TableName};
use refusals::Refusal;
use shader_text::{SIZE_NAMES, kind_name};
use std::alloc::AllocError;
use std::fmt;
use std::fmt::Write;

impl fmt::Display for Tally {
    fn fmt<W: fmt::Write>(&self, f: &mut fmt::Formatter<W>) -> fmt::Result {
        let bodies = self.verdicts.saturating_sub(1);
        let noun = if bodies == 1 { "body" } else { "bodies" };
        let refusals = self.refusals;
        write!(f, "a module and {bodies} {noun}: {refusals} refused")
    }
}

fn put_kind(out: &mut String, sort: Sort, kind: u8) -> Result<(), AllocError> {
    match kind_name(sort, kind) {
        Some(name) => out.push_str(name),
        None => write!(out, "of kind {kind}"),
    }
}

// How many entries there are, and how often each kind stands there.
fn put_entries(out: &mut String, sort: Sort, entries: &[Entry]) -> Result<(), AllocError> {
    write!(out, "{}", entries.len())?;
    let mut any = false;
    for (kind, count) in (0..=u8::MAX).zip(kind_counts(entries)) {
        if count > 0 {
            out.push_str(if any { ", " } else { ": " })?;
            write!(out, "{count} ")?;
            put_kind(out, sort, kind)?;
            any = true;
        }
    }
    Ok(())
}

// A size, and which expression gives it.
fn put_size(out: &mut String, name: &str, size: Size) -> Result<(), AllocError> {
    let Size { value, handle } = size;
    write!(out, "{name} {value}")?;
    match handle {
        Some(handle) => write!(out, " by expression {handle}"),
        None => Ok(()),
    }
}

// The sizes that say something.
fn put_sizes(out: &mut String, sizes: &Sizes) -> Result<(), AllocError> {
    out.push_str("  sizes ")?;
    let mut any = false;
    for (name, size) in SIZE_NAMES.iter().zip(sizes.all()) {
        if size.value != 0 || size.handle.is_some() {
            out.push_str(if any { ", " } else { "" })?;
            put_size(out, name, size)?;
            any = true;
        }
    }
    out.push_str(if any { "\n" } else { "none\n" })
}

// The entries over an operand list, by the list's name, and what one of them is called.
#[derive(Clone, Copy)]
pub(crate) struct Users<'s> {
    table: TableName,
    noun: &'static str,
    entries: &'s [Entry],
}

pub(crate) fn module_users(source: &Source) -> [Users<'_>; 1] {
    [Users {
        table: TableName::GlobalOperands,
        noun: "global expression",
        entries: source.entries.as_slice(),
    }]
}

pub(crate) fn body_users(body: &Body) -> [Users<'_>; 2] {
    [
        Users {
            table: TableName::BodyOperands,
            noun: "body expression",
            entries: body.entries.as_slice(),
        },
        Users {
            table: TableName::RecordOperands,
            noun: "record",
            entries: body.records.as_slice(),
        },
    ]
}

// The first entry that has an operand, which has no line of its own in a listing.
fn put_user(out: &mut String, place: Place, users: &[Users<'_>]) -> Result<(), AllocError> {
    for Users {
        table,
        noun,
        entries,
    } in users {
        if *table == place.table
            && let Some(index) = first_with(entries, place.index)
        {
            write!(out, " (it stands in {noun} {index})")?;
        }
    }
    Ok(())
}

// Whether the records end before a number.
fn end_before(users: &[Users<'_>], record: usize) -> bool {
    users.iter().any(|user| user.table == TableName::RecordOperands && user.entries.len() == record)
}

// What helps to find a place in a listing.
fn put_note(out: &mut String, refusal: &Refusal, users: &[Users<'_>]) -> Result<(), AllocError> {
    match *refusal {
        Refusal::Misshapen { place } | Refusal::OutOfRange { place } => put_user(out, place, users),
        Refusal::NotOneBlock { record } if end_before(users, record) => out.push_str(
            " (the records end before it)",
        ),
        _ => Ok(()),
    }
}

// A refusal by its number and in words.
fn put_refusal(out: &mut String, refusal: &Refusal, users: &[Users<'_>]) -> Result<(), AllocError> {
    let code = refusal.code();
    write!(out, "refusal {code}, {refusal}")?;
    put_note(out, refusal, users)
}

// The same of a refusal of a module.
pub fn put_source_refusal(
    out: &mut String,
    refusal: &Refusal,
    source: &Source,
) -> Result<(), AllocError> {
    put_refusal(out, refusal, &module_users(source))
}

// The line of a verdict, after what it is said of.
pub(crate) fn put_verdict(
    out: &mut String,
    verdict: &Result<(), Refusal>,
    users: &[Users<'_>],
) -> Result<(), AllocError> {
    match verdict {
        Ok(()) => out.push_str(": well formed\n"),
        Err(refusal) => {
            out.push_str(": ")?;
            put_refusal(out, refusal, users)?;
            out.push('\n')
        }
    }
}

// What a module's tables hold.
pub(crate) fn put_source(
    out: &mut String,
    source: &Source,
    sizes: &Sizes,
) -> Result<(), AllocError> {
    out.push_str("  expressions ")?;
    put_entries(out, Sort::Expressions, &source.entries)?;
    let operands = source.operands.len();
    let constants = source.constants.len();
    let overrides = source.overrides.len();
    let names = source.names.len();
    let variables = source.variables.len();
    write!(
        out,
        "\n  operands {operands}, constants {constants}, overrides {overrides}"
    )?;
    writeln!(out, ", name bytes {names}, variables {variables}")?;
    put_sizes(out, sizes)
}

// What a body's tables hold.
pub(crate) fn put_body(out: &mut String, body: &Body) -> Result<(), AllocError> {
    out.push_str("  expressions ")?;
    put_entries(out, Sort::Expressions, &body.entries)?;
    out.push_str("\n  records ")?;
    put_entries(out, Sort::Records, &body.records)?;
    let operands = body.operands.len();
    let record_operands = body.record_operands.len();
    let locals = body.locals.len();
    let named = body.named.len();
    let depth = deepest(&body.records);
    write!(
        out,
        "\n  operands {operands}, record operands {record_operands}, locals {locals}"
    )?;
    writeln!(out, ", named {named}, blocks {depth} deep")
}
