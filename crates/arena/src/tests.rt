ghost use Rattle.std.specs.Prelude.{◌≡◌, MatchBool, slice_set};

use crate::*;
use std::test::Fail;

// A constant that begins as an expression.
#[derive(Clone, Copy, PartialEq)]
struct Constant {
    init: Handle,
}

#[derive(Clone, Copy, PartialEq)]
enum ExpressionKind {
    Const,
    Override,
    Runtime,
}

#[test]
fn values_come_in_the_order_of_handles(rt: HostRuntime) {
    let mut slots = [0u32; 2];
    let mut images = HandleVec::new(&mut slots);
    assert!(rt; images.insert(1, 7) == Err(InsertError::WrongHandle));
    assert!(rt; images.insert(0, 7) == Ok(()));
    assert!(rt; images.insert(0, 8) == Err(InsertError::WrongHandle));
    assert!(rt; images.insert(1, 9) == Ok(()));
    assert!(rt; images.insert(2, 8) == Err(InsertError::Full));
    assert!(rt; images.get(0) == Some(7) && images.get(1) == Some(9));
    assert!(rt; images.get(2) == None && images.as_slice() == [7, 9].as_slice());
}

#[test]
fn values_of_other_types(rt: HostRuntime) {
    let mut slots = [Constant { init: 5 }; 3];
    let mut constants = HandleVec::new(&mut slots);
    assert!(rt; constants.insert(0, Constant { init: 4 }) == Ok(()));
    assert!(rt; constants.get(0) == Some(Constant { init: 4 }));
    assert!(rt; constants.get(1) == None && constants.len() == 1);
    let mut slots = [ExpressionKind::Const, ExpressionKind::Runtime];
    assert!(rt; begin(&mut slots));
    assert!(rt; slots == [ExpressionKind::Override, ExpressionKind::Runtime]);
}

// What is inserted stands in the caller's own slice, and nothing else there changes.
fn begin(slots: &mut [ExpressionKind]) -> bool
    ensures { MatchBool result (slots.new ≡ slice_set slots.old 0 ExpressionKind.Override) (slots.new ≡ slots.old) }
{
    let mut kinds = HandleVec::new(slots);
    kinds.insert(0, ExpressionKind::Override).is_ok()
}

#[test]
fn ranges_end_before_the_absent_handle(rt: HostRuntime) {
    let range = Range::new_from_bounds(3, 5);
    assert!(rt; range.first_and_last() == Some((3, 5)));
    let mut met = [0u32; 3];
    let mut handles = HandleVec::new(&mut met);
    for (handle, next) in range.zip(0u32..) {
        assert!(rt; handles.insert(next, handle) == Ok(()));
    }
    assert!(rt; handles.as_slice() == [3, 4, 5].as_slice());
    assert!(rt; Range::new_from_bounds(3, 2).first_and_last() == None);
    assert!(rt;
        Range::new_from_bounds(ABSENT - 1, ABSENT).first_and_last()
            == Some((ABSENT - 1, ABSENT - 1))
    );
    assert!(rt; Range::new_from_bounds(ABSENT, ABSENT).first_and_last() == None);
}

#[test]
fn an_arena_refuses_what_does_not_fit(rt: HostRuntime) -> Result<(), Fail> {
    let mut arena = Arena::with_limits(rt.alloc(), 2, 3)?;
    let span = Span { start: 1, end: 2 };
    assert!(rt; arena.append(18, [1, 2, 3, 4], &[], span) == Ok(0));
    assert!(rt; arena.append(10, [0; 4], &[0, 0, 0, 0], span) == Err(FullTable::Operands));
    assert!(rt; arena.append(10, [5, 0, 0, 0], &[0, ABSENT], span) == Ok(1));
    assert!(rt; arena.append(10, [0; 4], &[0, 0], span) == Err(FullTable::Entries));
    assert!(rt; arena.kind(1) == Some(10) && arena.kind(2) == None);
    assert!(rt;
        arena.words(0) == Some([1, 2, 3, 4]) && arena.operand_list() == [0, ABSENT].as_slice()
    );
    assert!(rt;
        arena.operand(1, 1) == Some(ABSENT)
            && arena.operand(1, 2) == None
            && arena.operand(0, 0) == None
    );
    arena.clear();
    assert!(rt; arena.len() == 0 && arena.append(18, [0; 4], &[0, 0, 0], span) == Ok(0));
    Ok(())
}

#[test]
fn an_arena_in_the_memory_of_tables(rt: HostRuntime) -> Result<(), Fail> {
    let span = Span { start: 1, end: 2 };
    let entry = Entry {
        kind: 18,
        words: [0; 4],
        run: Run { at: 7, len: 9 },
        span,
    };
    let mut entries = Table::with_limit(rt.alloc(), 2)?;
    let mut operands = Table::with_limit(rt.alloc(), 3)?;
    assert!(rt; entries.push_all(&[entry, entry]) == Ok(()));
    assert!(rt; operands.push_all(&[4, 5]) == Ok(()));
    let Some(mut arena) = Arena::over(entries, operands) else {
        return Err(Fail::new("over"));
    };
    assert!(rt; arena.len() == 0 && arena.entry_room() == 2 && arena.operand_room() == 3);
    assert!(rt; arena.append(10, [5, 0, 0, 0], &[0, ABSENT], span) == Ok(0));
    let (entries, operands) = arena.into_tables();
    let run = Run { at: 0, len: 2 };
    assert!(rt; entries.get(0).map(|entry| entry.run) == Some(run));
    assert!(rt; entries.len() == 1 && entries.limit() == 2 && operands.limit() == 3);
    assert!(rt; operands.as_slice() == [0, ABSENT].as_slice());
    Ok(())
}

#[test]
fn errors_in_words(rt: HostRuntime) -> Result<(), Fail> {
    let heap = rt.alloc();
    let full = InsertError::Full;
    let operands = FullTable::Operands;
    let words = format!(in heap; "{NoRoom}, {full}, {operands}")?;
    assert!(rt;
        words.as_str()
            == "the table has no room, every slot has its value, no room for the operands"
    );
    Ok(())
}
