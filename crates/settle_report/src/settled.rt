// The report of a module that was settled: a listing, whose comments say what became of what.
use crate::changes::Changes;
use crate::sizes::{put_images, put_sizes};
use crate::tables::{FinishedTables, write_finished};
use crate::told::{outcomes, put_overrides};
use ir::{Sizes, Source};
use settings::Settings;
use std::alloc::{AllocError, Global};
use std::fmt::Write;

// What was settled, by which settings, and what came of it: the tables and the sizes.
#[derive(Clone, Copy)]
pub struct Settling<'s> {
    pub source: &'s Source,
    pub before: &'s Sizes,
    pub settings: &'s Settings<'s>,
    pub tables: FinishedTables<'s>,
    pub after: &'s Sizes,
}

// The listing of the finished tables, and in comments below it the images of the old handles, what each override and each size
// became, and what changed.
pub fn report_settled(heap: Global, settling: Settling<'_>) -> Result<String, AllocError> {
    let Settling {
        source,
        before,
        settings,
        tables,
        after,
    } = settling;
    let mut out = write_finished(heap, tables, &source.names, after)?;
    let outcomes = outcomes(heap, source, settings)?;
    let changes = Changes::of(heap, &source.entries, &outcomes, tables)?;
    out.push('\n')?;
    put_images(&mut out, tables.images)?;
    put_overrides(&mut out, heap, source, settings, tables, &outcomes)?;
    put_sizes(&mut out, before, after, tables)?;
    writeln!(out, "# {changes}")?;
    Ok(out)
}
