use crate::*;
use arena::{ABSENT, Arena, Entry, Handle, Run, Span, Table};
use ir::Record;
use places::TableName;
use refusals::Refusal;
use std::alloc::{AllocError, Global};
use std::test::Fail;

const SPAN: Span = Span { start: 3, end: 5 };

// Old handles 3, 4 and 6 go to 2, 3 and 4, the others to themselves.
const IMAGES: [Handle; 7] = [0, 1, 2, 2, 3, 5, 4];

const OPERANDS: [Handle; 6] = [6, 3, 4, ABSENT, 6, 3];

fn record(kind: u8, words: [u32; 4], at: u32, len: u32) -> Record {
    Entry {
        kind,
        words,
        run: Run { at, len },
        span: SPAN,
    }
}

// { Emit 3..7; Loop { ImageAtomic } { Emit 5..6 } break_if 6 }
fn looped() -> [Record; 10] {
    let open = record(23, [0; 4], 0, 0);
    let close = record(24, [0; 4], 0, 0);
    [
        open,
        record(0, [3, 7, 8, 9], 0, 0),
        record(4, [0; 4], 0, 1),
        open,
        record(9, [1, 2, 3, 4], 1, 5),
        close,
        open,
        record(0, [5, 6, 0, 0], 0, 0),
        close,
        close,
    ]
}

// Seven finished entries: a Literal at 5, Loads elsewhere.
fn loads(heap: Global) -> Result<Arena, AllocError> {
    let mut entries = Arena::with_limits(heap, 7, 0)?;
    for handle in 0u32..7 {
        let kind = if handle == 5 { 18 } else { 5 };
        let _ = entries.append(kind, [0; 4], &[], SPAN);
    }
    Ok(entries)
}

#[test]
fn a_body_is_rewritten(rt: HostRuntime) -> Result<(), Fail> {
    let entries = loads(rt.alloc())?;
    let mut records = Table::with_limit(rt.alloc(), 9)?;
    let mut operands = Table::with_limit(rt.alloc(), 6)?;
    let inputs = Inputs {
        records: &looped(),
        operands: &OPERANDS,
        images: &IMAGES,
        entries: &entries,
    };
    let counts = adjust_body(inputs, &mut records, &mut operands);
    assert!(rt;
        counts
            == Ok(Counts {
                emitted: 3,
                struck: 2
            })
    );
    let open = record(23, [0; 4], 0, 0);
    assert!(rt; records.len() == 9 && records.get(0) == Some(open));
    assert!(rt; records.get(1) == Some(record(0, [2, 5, 8, 9], 0, 0)));
    assert!(rt; records.get(2) == Some(record(4, [0; 4], 0, 1)));
    assert!(rt; records.get(4) == Some(record(9, [1, 2, 3, 4], 1, 5)));
    assert!(rt; records.get(6) == Some(record(23, [0; 4], 6, 0)));
    assert!(rt; records.get(7) == Some(record(24, [0; 4], 6, 0)));
    assert!(rt; operands.as_slice() == [4, 2, 3, ABSENT, 4, 2].as_slice());
    Ok(())
}

#[test]
fn tables_without_room(rt: HostRuntime) -> Result<(), Fail> {
    let entries = loads(rt.alloc())?;
    let mut records = Table::with_limit(rt.alloc(), 8)?;
    let mut operands = Table::with_limit(rt.alloc(), 6)?;
    let inputs = Inputs {
        records: &looped(),
        operands: &OPERANDS,
        images: &IMAGES,
        entries: &entries,
    };
    let full = adjust_body(inputs, &mut records, &mut operands);
    let table = TableName::Records;
    assert!(rt; full == Err(Refusal::Full { table }));
    assert!(rt; records.len() == 8 && operands.len() == 6);
    let mut few = Table::with_limit(rt.alloc(), 5)?;
    let full = adjust_body(inputs, &mut records, &mut few);
    let table = TableName::RecordOperands;
    assert!(rt; full == Err(Refusal::Full { table }));
    assert!(rt; records.len() == 4 && few.len() == 1);
    Ok(())
}

#[test]
fn records_that_are_not_one_block(rt: HostRuntime) -> Result<(), Fail> {
    let entries = loads(rt.alloc())?;
    let mut records = Table::with_limit(rt.alloc(), 9)?;
    let mut operands = Table::with_limit(rt.alloc(), 6)?;
    assert!(rt; operands.push(7) == Ok(()));
    let inputs = Inputs {
        records: &looped()[..9],
        operands: &OPERANDS,
        images: &IMAGES,
        entries: &entries,
    };
    let refused = adjust_body(inputs, &mut records, &mut operands);
    assert!(rt; refused == Err(Refusal::NotOneBlock { record: 9 }));
    assert!(rt; records.len() == 0 && operands.as_slice() == [7].as_slice());
    Ok(())
}
