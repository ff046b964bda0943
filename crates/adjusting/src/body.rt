// All the records of a body.
ghost use Rattle.std.specs.Prelude.{◌≡◌, ◌≤◌, ℕ, List, [], IfOk, OnOk, length};
ghost use Rattle.arena.specs.Items.{Stays, items};
ghost use Rattle.arena.specs.Nodes.{nodes};
ghost use Rattle.arena.specs.Tiles.{Tiled};
ghost use Rattle.blocks.specs.Blocks.{OneBlock};
ghost use Rattle.ir.specs.Tables.{Local};
ghost use Rattle.walking.specs.Accepted.{AcceptedBody};
ghost use Rattle.refusals.specs.Codes.{FirstOf};
ghost use Rattle.adjusting.specs.Ends.{Accepted, Came, Ended, RecordFaults, adjusted_body, held};
ghost use Rattle.adjusting.specs.Examples.{Examples};
ghost use Rattle.adjusting.specs.Laws.{KeepsRecords, LongestStretches, WalkKeepsEntries};
ghost use Rattle.adjusting.specs.Works.{entries_of, records_of, room_for};

use crate::emits::Counts;
use crate::work::{Inputs, Work};
use arena::{Handle, Table};
use blocks::check_blocks;
use ir::Record;
use places::{Place, TableName, over};
use refusals::Refusal;

// The most records.
const RECORDS: usize = 65536;

// How many blocks may be open at once.
const MAX_DEPTH: u32 = 64;

// The refusals that come before anything is written.
fn check(records: &[Record]) -> Result<(), Refusal>
    ensures first { (os : List ℕ) → FirstOf (RecordFaults (nodes records.now os)) result }
    ensures block { OnOk result ((os : List ℕ) → OneBlock (nodes records.now os) 64) }
    ensures few { OnOk result (length records.now ≤ 65536) }
{
    if let Some(index) = over(RECORDS, records.len()) {
        let table = TableName::Records;
        return Err(Refusal::Misshapen {
            place: Place { table, index },
        });
    }
    match check_blocks(records) {
        Some(record) => Err(Refusal::NotOneBlock { record }),
        None => Ok(()),
    }
}

// Writes anew records that are checked, into empty tables.
fn adjust_checked(
    inputs: Inputs<'_>,
    records: &mut Table<Record>,
    operands: &mut Table<Handle>,
) -> Result<Counts, Refusal>
    requires block { OneBlock (records_of inputs) 64 }
    requires few { length inputs.records.now ≤ 65536 }
    requires empty { (items records.old ≡ []) × (items operands.old ≡ []) }
    ensures came { Came (adjusted_body inputs.entry (room_for records.old operands.old)) (held records.new operands.new) result }
    ensures stays { Stays records.old records.new × Stays operands.old operands.new }
    ensures tiled { Tiled (items records.new) (length (items operands.new)) }
{
    let mut work = Work {
        inputs,
        records,
        operands,
        next: 0,
        emitted: 0,
        struck: 0,
    };
    work.adjust_block(MAX_DEPTH)?;
    Ok(Counts {
        emitted: work.emitted,
        struck: work.struck,
    })
}

// Writes the records of a body anew, into tables that are emptied first. Never allocates. Refused with 3 where there are more records than
// a body may have and with 5 where they are not one block, with nothing written; with 17 where a table has no room.
pub fn adjust_body(
    inputs: Inputs<'_>,
    records: &mut Table<Record>,
    operands: &mut Table<Handle>,
) -> Result<Counts, Refusal>
    ensures ended { Ended inputs.entry records.old operands.old records.new operands.new result }
    ensures keeps { IfOk result (λ counts. KeepsRecords inputs.entry.images.now (entries_of inputs.entry) (records_of inputs.entry) (held records.new operands.new) counts) }
    ensures stays { Stays records.old records.new × Stays operands.old operands.new }
    ensures tiled { OnOk result (Tiled (items records.new) (length (items operands.new))) }
{
    check(inputs.records)?;
    records.clear();
    operands.clear();
    adjust_checked(inputs, records, operands)
}

// The stretches that become Emits are the longest ones.
pub fn stretches_stand()
    ensures { LongestStretches }
{}

// The rules, tried on small bodies.
#[tactic(auto, unfolding(crate::specs::Emits::sent_to))]
pub fn examples_stand()
    ensures { Examples }
{}

// The records of a body that `check_body` accepts are not refused, and the images that a walk over its entries leaves keep these.
pub fn bodies_stand()
    ensures checked { (b : Local) → AcceptedBody b → Accepted (nodes b.records b.record_operands) }
    ensures walked { WalkKeepsEntries }
{}
