use arena::{ABSENT, Arena, Entry, Handle, Run, Span, Table};
use evaluator::{ExpressionKind, Folder, NewConstant, Nodes};
use kinds::Expression;
use layers::{Find, Keep, Whole};
use other_folders::{Padding, Trap};
use places::TableName;
use refusals::Refusal;
use std::alloc::{AllocError, Global};
use std::num::NonZeroU8;
use std::test::Fail;
use walking::{OldBody, SettledModule, WalkedBody, walk_body};

// An expression whose operands lie in a run from `at` on. Its span begins at 10 times its number.
fn entry(number: u32, kind: Expression, words: [u32; 4], at: u32, len: u32) -> Entry {
    let start = number.saturating_mul(10);
    let end = start.saturating_add(1);
    Entry {
        kind: kind as u8,
        words,
        run: Run { at, len },
        span: Span { start, end },
    }
}

fn literal(number: u32, bits: u32) -> Entry {
    entry(number, Expression::Literal, [3, bits, 0, 0], 0, 0)
}

// Two global literals, each the init of a constant. The second constant is that of the only override.
const CONSTANTS: [NewConstant; 2] = [
    NewConstant {
        init: 0,
        mapped: true,
    },
    NewConstant {
        init: 1,
        mapped: true,
    },
];

const SETTLED: [u32; 1] = [1];

fn over(globals: &[Entry]) -> SettledModule<'_> {
    SettledModule {
        constants: &CONSTANTS,
        globals: Nodes {
            entries: globals,
            operands: &[],
        },
        settled: &SETTLED,
    }
}

#[test]
fn a_body_is_walked_over(rt: HostRuntime) -> Result<(), Fail> {
    let globals = [literal(0, 20), literal(1, 22)];
    let operands = [1, 2, 1, 2, 4, 0, ABSENT, 6, 3];
    let entries = [
        entry(0, Expression::FunctionArgument, [0; 4], 0, 0),
        entry(1, Expression::Constant, [0; 4], 0, 0),
        entry(2, Expression::Override, [0, 7, 8, 9], 0, 0),
        entry(3, Expression::Binary, [0; 4], 0, 2),
        entry(4, Expression::Binary, [3, 5, 6, 7], 2, 2),
        entry(5, Expression::Unary, [0; 4], 4, 1),
        literal(6, 42),
        entry(7, Expression::ImageQuery, [0; 4], 5, 2),
        entry(8, Expression::Compose, [6, 0, 0, 0], 7, 2),
    ];
    let pile = Find {
        below: Whole { below: Keep },
    };
    let mut scratch = Table::with_limit(rt.alloc(), 9)?;
    let mut expressions = Arena::with_limits(rt.alloc(), 16, 16)?;
    let mut kinds = [ExpressionKind::Runtime; 16];
    let mut images = [ABSENT; 16];
    let walked = walk_body(
        &pile,
        OldBody {
            entries: &entries,
            operands: &operands,
        },
        over(&globals),
        &mut scratch,
        &mut expressions,
        &mut kinds,
        &mut images,
    );
    let want = WalkedBody {
        ended: Ok(()),
        kinds: 8,
        images: 9,
    };
    assert!(rt; walked == Some(want));
    // the literal 42 is the sum's, so those after it are sent one lower
    assert!(rt; images[..9] == [0, 1, 2, 3, 4, 5, 3, 6, 7]);
    let (constant, runtime) = (ExpressionKind::Const, ExpressionKind::Runtime);
    assert!(rt;
        kinds[..8]
            == [
                runtime, constant, constant, constant, runtime, runtime, runtime, constant
            ]
    );
    assert!(rt; expressions.len() == 8);
    // the override is the constant that it was settled to
    assert!(rt; expressions.kind(2) == Some(24) && expressions.words(2) == Some([1, 7, 8, 9]));
    // the sum of two constants is worked out, the quotient is kept
    assert!(rt; expressions.kind(3) == Some(18) && expressions.words(3) == Some([3, 42, 0, 0]));
    assert!(rt; expressions.get(3).map(|entry| entry.span) == Some(Span { start: 30, end: 31 }));
    assert!(rt; expressions.kind(4) == Some(10) && expressions.words(4) == Some([3, 5, 6, 7]));
    assert!(rt; expressions.operands(4) == Some([1, 2].as_slice()));
    assert!(rt; expressions.operands(5) == Some([4].as_slice()));
    assert!(rt; expressions.operands(6) == Some([0, ABSENT].as_slice()));
    assert!(rt; expressions.get(6).map(|entry| entry.span) == Some(Span { start: 70, end: 71 }));
    assert!(rt;
        expressions.kind(7) == Some(0) && expressions.operands(7) == Some([3, 3].as_slice())
    );
    Ok(())
}

// What a walk over a body left in tables with so much room: how it ended, how many entries there are, and the images.
#[derive(Clone, Copy, PartialEq)]
struct Left {
    walked: Option<WalkedBody>,
    entries: usize,
    images: [Handle; 4],
}

#[derive(Clone, Copy)]
struct Room {
    entries: u32,
    operands: u32,
    kinds: usize,
    images: usize,
}

const ENOUGH: Room = Room {
    entries: 8,
    operands: 8,
    kinds: 8,
    images: 4,
};

// A walk over a body under the two global literals.
fn within<F: Folder>(
    heap: Global,
    folder: &F,
    entries: &[Entry],
    operands: &[Handle],
    room: Room,
) -> Result<Left, AllocError> {
    let globals = [literal(0, 20), literal(1, 22)];
    let mut scratch = Table::with_limit(heap, operands.len())?;
    let mut expressions = Arena::with_limits(heap, room.entries, room.operands)?;
    let mut kinds = [ExpressionKind::Runtime; 8];
    let mut images = [ABSENT; 4];
    let walked = walk_body(
        folder,
        OldBody { entries, operands },
        over(&globals),
        &mut scratch,
        &mut expressions,
        &mut kinds[..room.kinds.min(8)],
        &mut images[..room.images.min(4)],
    );
    Ok(Left {
        walked,
        entries: expressions.len(),
        images,
    })
}

fn ended(ended: Result<(), Refusal>, kinds: usize, images: usize) -> Option<WalkedBody> {
    Some(WalkedBody {
        ended,
        kinds,
        images,
    })
}

#[test]
fn a_fault_is_told_with_the_handle_in_the_body(rt: HostRuntime) -> Result<(), Fail> {
    let pile = Padding {
        below: Trap {
            kind: Expression::Binary as u8,
            code: NonZeroU8::MAX,
            below: Keep,
        },
    };
    // a Binary over an argument is not asked about
    let operands = [0, 1, 0, 1, 1, 1];
    let entries = [
        entry(0, Expression::FunctionArgument, [0; 4], 0, 0),
        entry(1, Expression::Compose, [6, 0, 0, 0], 0, 0),
        entry(2, Expression::Binary, [0; 4], 2, 2),
        entry(3, Expression::Binary, [0; 4], 4, 2),
    ];
    let left = within(rt.alloc(), &pile, &entries, &operands, ENOUGH)?;
    let fault = Refusal::ConstantEvaluatorError {
        handle: 3,
        layer: 1,
        code: 255,
    };
    assert!(rt; left.walked == ended(Err(fault), 4, 3));
    // the Compose stands behind a ZeroValue
    assert!(rt; left.entries == 4 && left.images == [0, 2, 3, ABSENT]);
    Ok(())
}

#[test]
fn the_first_table_without_room(rt: HostRuntime) -> Result<(), Fail> {
    let pile = Find {
        below: Whole { below: Keep },
    };
    let operands = [0, 0, 0];
    let entries = [
        literal(0, 1),
        entry(1, Expression::Load, [0; 4], 0, 1),
        entry(2, Expression::Compose, [6, 0, 0, 0], 1, 2),
    ];
    let exact = Room {
        entries: 3,
        operands: 3,
        kinds: 3,
        images: 3,
    };
    let left = within(rt.alloc(), &pile, &entries, &operands, exact)?;
    assert!(rt; left.walked == ended(Ok(()), 3, 3) && left.images == [0, 1, 2, ABSENT]);
    for (room, table, kinds, images) in [
        (
            Room {
                entries: 2,
                ..exact
            },
            TableName::BodyEntries,
            2,
            2,
        ),
        (
            Room {
                entries: 1,
                ..exact
            },
            TableName::BodyEntries,
            1,
            1,
        ),
        (
            Room {
                operands: 2,
                ..exact
            },
            TableName::BodyOperands,
            2,
            2,
        ),
        (
            Room {
                operands: 0,
                ..exact
            },
            TableName::BodyOperands,
            1,
            1,
        ),
        (Room { kinds: 2, ..exact }, TableName::Kinds, 2, 2),
        (Room { kinds: 1, ..exact }, TableName::Kinds, 1, 1),
        (Room { images: 2, ..exact }, TableName::HandleTable, 3, 2),
        (
            Room {
                entries: 2,
                kinds: 2,
                ..exact
            },
            TableName::BodyEntries,
            2,
            2,
        ),
        (
            Room {
                operands: 1,
                kinds: 2,
                ..exact
            },
            TableName::BodyOperands,
            2,
            2,
        ),
    ] {
        let left = within(rt.alloc(), &pile, &entries, &operands, room)?;
        assert!(rt; left.walked == ended(Err(Refusal::Full { table }), kinds, images));
        assert!(rt; left.entries == kinds);
    }
    Ok(())
}

#[test]
fn a_damaged_body_is_walked_over(rt: HostRuntime) -> Result<(), Fail> {
    let operands = [7, 2];
    let entries = [
        entry(0, Expression::Override, [5, 0, 0, 0], 0, 0),
        entry(1, Expression::Constant, [9, 0, 0, 0], 0, 0),
        entry(2, Expression::Binary, [0; 4], 0, 900),
    ];
    let left = within(
        rt.alloc(),
        &Whole { below: Keep },
        &entries,
        &operands,
        ENOUGH,
    )?;
    assert!(rt; left.walked == ended(Ok(()), 3, 3) && left.images == [0, 1, 2, ABSENT]);
    Ok(())
}

#[test]
fn operands_that_cannot_be_mapped(rt: HostRuntime) -> Result<(), Fail> {
    let mut scratch = Table::with_limit(rt.alloc(), 1)?;
    let mut expressions = Arena::with_limits(rt.alloc(), 2, 2)?;
    let mut kinds = [ExpressionKind::Runtime; 2];
    let mut images = [ABSENT; 2];
    let operands = [0, 0];
    let old = OldBody {
        entries: &[],
        operands: &operands,
    };
    let walked = walk_body(
        &Keep,
        old,
        over(&[]),
        &mut scratch,
        &mut expressions,
        &mut kinds,
        &mut images,
    );
    assert!(rt; walked == None);
    Ok(())
}
