// The check of a body.
ghost use Rattle.std.specs.Prelude.{OnOk};
ghost use Rattle.arena.specs.Nodes.{nodes};
ghost use Rattle.blocks.specs.Blocks.{OneBlock};
ghost use Rattle.ir.specs.Tables.{local_shape, local_range, local};
ghost use Rattle.ir.specs.Views.{local_below};
ghost use Rattle.ir.specs.Checks.{CheckedBody};

use crate::source::ENTRIES;
use crate::tables::{Body, Source};
use crate::tests::{RangeOf, Shape, ShapeOf, first_emit_past, first_misnamed, first_outside};
use blocks::check_blocks;
use operands::{Sort, least_beyond, least_lacking, least_not_below};
use places::{Faults, TableName, limited};
use refusals::Refusal;

// What is checked of a body: its tables, and the constants and the overrides of its module.
#[derive(Clone, Copy)]
struct Function<'m> {
    body: &'m Body,
    source: &'m Source,
}

impl<'m> Faults for ShapeOf<Function<'m>> {
    ghost at = { λ s. local_shape (local s.tables.body.now s.tables.source.now) };

    fn least_in(&self, table: TableName) -> Option<usize> {
        let body = self.tables.body;
        let of_entries = Shape {
            sort: Sort::Expressions,
            operands: body.operands.len(),
        };
        let of_records = Shape {
            sort: Sort::Records,
            operands: body.record_operands.len(),
        };
        match table {
            TableName::BodyEntries => limited(ENTRIES, &body.entries, &of_entries),
            TableName::BodyOperands => least_lacking(
                Sort::Expressions,
                &body.entries,
                &body.operands,
            ),
            TableName::Records => limited(ENTRIES, &body.records, &of_records),
            TableName::RecordOperands => least_lacking(
                Sort::Records,
                &body.records,
                &body.record_operands,
            ),
            _ => None,
        }
    }
}

impl<'m> Faults for RangeOf<Function<'m>> {
    ghost at = { λ s. local_range (local_below (local s.tables.body.now s.tables.source.now)) };

    fn least_in(&self, table: TableName) -> Option<usize> {
        let Function { body, source } = self.tables;
        let bound = body.entries.len();
        match table {
            TableName::BodyEntries => first_misnamed(&body.entries, source, false),
            TableName::BodyOperands => least_not_below(&body.entries, &body.operands),
            TableName::Records => first_emit_past(&body.records, bound),
            TableName::RecordOperands => least_beyond(bound, &body.records, &body.record_operands),
            TableName::LocalInits => first_outside(&body.locals, bound),
            TableName::NamedHandles => first_outside(&body.named, bound),
            _ => None,
        }
    }
}

// Whether a body is well formed under a module: accepted exactly if no refusal applies to it, and then its records are one block at
// most 64 deep; else refused with the first that does, by number and then by place. Constants and overrides are those of the module
// before settling. Nothing past a table's limit is looked at.
pub fn check_body(body: &Body, source: &Source) -> Result<(), Refusal>
    ensures first { CheckedBody (local body.now source.now) result }
    ensures block { OnOk result (OneBlock (nodes body.now.records.items body.now.record_operands.items) 64) }
{
    let tables = Function { body, source };
    places::check(&ShapeOf { tables }).map_err(|place| Refusal::Misshapen { place })?;
    places::check(&RangeOf { tables }).map_err(|place| Refusal::OutOfRange { place })?;
    match check_blocks(&body.records) {
        Some(record) => Err(Refusal::NotOneBlock { record }),
        None => Ok(()),
    }
}
