use crate::*;
use arena::{ABSENT, Arena, Handle, Span};
use evaluator::{
    Asked, Constants, Evaluated, ExpressionKind, ExpressionKindTracker, Fault, Folder, FullTable,
    NewConstant, Nodes, Tables,
};
use kinds::Expression;
use layers::{Find, Keep, Whole};
use std::alloc::{AllocError, Global};
use std::num::NonZeroU8;
use std::process::Abort;
use std::test::Fail;

const STANDING: Span = Span { start: 1, end: 2 };

const ASKED: Span = Span { start: 5, end: 9 };

const NO_CONSTANTS: Constants<'static> = Constants {
    list: &[],
    globals: None,
};

fn literal(ty: u32, bits: u32) -> Asked<'static> {
    Asked {
        kind: Expression::Literal as u8,
        words: [ty, bits, 0, 0],
        operands: &[],
        span: STANDING,
    }
}

fn constant(number: u32) -> Asked<'static> {
    Asked {
        kind: Expression::Constant as u8,
        words: [number, 0, 0, 0],
        operands: &[],
        span: STANDING,
    }
}

fn binary(operator: u32, operands: &[Handle]) -> Asked<'_> {
    Asked {
        kind: Expression::Binary as u8,
        words: [operator, 0, 0, 0],
        operands,
        span: ASKED,
    }
}

fn compose(operands: &[Handle]) -> Asked<'_> {
    Asked {
        kind: Expression::Compose as u8,
        words: [6, 0, 0, 0],
        operands,
        span: ASKED,
    }
}

fn unary(operands: &[Handle]) -> Asked<'_> {
    Asked {
        kind: Expression::Unary as u8,
        words: [0; 4],
        operands,
        span: ASKED,
    }
}

fn mapped(init: Handle) -> NewConstant {
    NewConstant { init, mapped: true }
}

// An answer, how many entries there are then, and the words of the last.
#[derive(Clone, Copy, PartialEq)]
struct Outcome {
    answer: Result<Evaluated, Fault>,
    len: usize,
    words: Option<[u32; 4]>,
}

// An expression at the end of these tables.
fn append(
    arena: &mut Arena,
    tracker: &mut ExpressionKindTracker<'_>,
    expr: Asked<'_>,
    kind: ExpressionKind,
) -> Result<Handle, FullTable> {
    let mut tables = Tables {
        expressions: arena,
        expression_kind_tracker: tracker,
    };
    tables.append_expr(expr, kind)
}

// What a folder answers over these tables.
fn ask<F: Folder>(
    folder: &F,
    arena: &mut Arena,
    tracker: &mut ExpressionKindTracker<'_>,
    constants: Constants<'_>,
    expr: Asked<'_>,
) -> Result<Evaluated, Fault> {
    let mut tables = Tables {
        expressions: arena,
        expression_kind_tracker: tracker,
    };
    tables.try_eval_and_append(folder, constants, expr)
}

// What a folder makes of an expression over tables of these Const entries.
fn over<F: Folder>(
    folder: &F,
    arena: &mut Arena,
    constants: Constants<'_>,
    entries: &[Asked<'_>],
    expr: Asked<'_>,
) -> Outcome {
    let mut slots = [ExpressionKind::Runtime; 8];
    let mut tracker = ExpressionKindTracker::new(&mut slots);
    arena.clear();
    for entry in entries {
        let _ = append(arena, &mut tracker, *entry, ExpressionKind::Const);
    }
    let answer = ask(folder, arena, &mut tracker, constants, expr);
    let len = arena.len();
    let words = arena.words((len as u32).saturating_sub(1));
    Outcome { answer, len, words }
}

// Adds the result of an operator on two literals after them, or answers otherwise and adds nothing.
fn works_out<F: Folder>(rt: &impl Abort, folder: &F, arena: &mut Arena) {
    for (operator, ty, left, right, want) in [
        (0, 3, 2_147_483_647, 1, 2_147_483_648),
        (0, 4, 4_294_967_295, 2, 1),
        (1, 3, 0, 1, 4_294_967_295),
        (1, 4, 0, 1, 4_294_967_295),
        (1, 4, 1, 0, 1),
        (1, 3, 2_147_483_648, 1, 2_147_483_647),
        (2, 4, 65_536, 65_536, 0),
        (2, 4, 123_456_789, 987_654_321, 4_227_814_277),
        // -5 times 7, and the least number times -1
        (2, 3, 4_294_967_291, 7, 4_294_967_261),
        (2, 3, 2_147_483_648, 4_294_967_295, 2_147_483_648),
    ] {
        let entries = [literal(ty, left), literal(ty, right)];
        let outcome = over(
            folder,
            arena,
            NO_CONSTANTS,
            &entries,
            binary(operator, &[0, 1]),
        );
        assert!(rt;
            outcome.answer == Ok(Evaluated::Folded(2)),
            "at {operator} {left} {right}"
        );
        assert!(rt;
            outcome.words == Some([ty, want, 0, 0]),
            "at {operator} {left} {right}"
        );
        assert!(rt; outcome.len == 3);
        assert!(rt; arena.kind(2) == Some(18) && arena.operands(2) == Some([].as_slice()));
    }
}

// Declines other operators, other types, and two types at once; and so with another number of operands.
fn leaves<F: Folder>(rt: &impl Abort, folder: &F, arena: &mut Arena) {
    for (operator, left, right) in [
        (0, literal(3, 1), literal(4, 1)),
        (2, literal(4, 1), literal(3, 1)),
        (3, literal(3, 6), literal(3, 2)),
        (4, literal(4, 6), literal(4, 4)),
        // 1.0 + 1.0 in F32, and 1 + 1 in Bool, U16, I64 and AbstractInt
        (0, literal(6, 0x3f80_0000), literal(6, 0x3f80_0000)),
        (0, literal(0, 1), literal(0, 1)),
        (0, literal(2, 1), literal(2, 1)),
        (0, literal(8, 1), literal(8, 1)),
        (0, literal(10, 1), literal(10, 1)),
    ] {
        let outcome = over(
            folder,
            arena,
            NO_CONSTANTS,
            &[left, right],
            binary(operator, &[0, 1]),
        );
        assert!(rt;
            outcome.answer == Ok(Evaluated::Declined) && outcome.len == 2,
            "at {operator}"
        );
    }
    let entries = [literal(3, 1), literal(3, 2)];
    let one = over(folder, arena, NO_CONSTANTS, &entries, binary(0, &[0]));
    assert!(rt; one.answer == Ok(Evaluated::Declined) && one.len == 2);
    let three = over(folder, arena, NO_CONSTANTS, &entries, binary(0, &[0, 1, 1]));
    assert!(rt; three.answer == Ok(Evaluated::Declined) && three.len == 2);
    let gap = over(
        folder,
        arena,
        NO_CONSTANTS,
        &entries,
        binary(0, &[0, ABSENT]),
    );
    assert!(rt; gap.answer == Ok(Evaluated::Declined) && gap.len == 2);
}

#[test]
fn piles_work_out_whole_numbers(rt: HostRuntime) -> Result<(), Fail> {
    let mut arena = Arena::with_limits(rt.alloc(), 8, 16)?;
    works_out(
        &rt,
        &Find {
            below: Whole { below: Keep },
        },
        &mut arena,
    );
    works_out(
        &rt,
        &Whole {
            below: Find { below: Keep },
        },
        &mut arena,
    );
    works_out(
        &rt,
        &Whole {
            below: Whole { below: Keep },
        },
        &mut arena,
    );
    leaves(
        &rt,
        &Find {
            below: Whole { below: Keep },
        },
        &mut arena,
    );
    leaves(
        &rt,
        &Whole {
            below: Find { below: Keep },
        },
        &mut arena,
    );
    leaves(
        &rt,
        &Whole {
            below: Whole { below: Keep },
        },
        &mut arena,
    );
    Ok(())
}

// A literal like an earlier one is answered by the first such; another is added.
fn finds<F: Folder>(rt: &impl Abort, folder: &F, arena: &mut Arena) {
    let entries = [literal(4, 7), literal(3, 7), literal(3, 7)];
    let first = over(folder, arena, NO_CONSTANTS, &entries, literal(3, 7));
    assert!(rt; first.answer == Ok(Evaluated::Folded(1)) && first.len == 3);
    let other = Asked {
        words: [3, 7, 0, 1],
        ..literal(3, 7)
    };
    let apart = over(folder, arena, NO_CONSTANTS, &entries, other);
    assert!(rt; apart.answer == Ok(Evaluated::Folded(3)) && apart.words == Some([3, 7, 0, 1]));
    // a result is not looked for, nor is a Compose
    let zero = [literal(4, 0), literal(4, 0)];
    let sum = over(folder, arena, NO_CONSTANTS, &zero, binary(0, &[0, 1]));
    assert!(rt; sum.answer == Ok(Evaluated::Folded(2)) && sum.len == 3);
    let composed = [literal(4, 0), compose(&[0])];
    let again = over(folder, arena, NO_CONSTANTS, &composed, compose(&[0]));
    assert!(rt; again.answer == Ok(Evaluated::Folded(2)) && again.len == 3);
}

#[test]
fn piles_answer_by_the_first_that_is_equal(rt: HostRuntime) -> Result<(), Fail> {
    let mut arena = Arena::with_limits(rt.alloc(), 8, 16)?;
    finds(
        &rt,
        &Find {
            below: Whole { below: Keep },
        },
        &mut arena,
    );
    finds(
        &rt,
        &Whole {
            below: Find { below: Keep },
        },
        &mut arena,
    );
    let twice = Whole {
        below: Whole { below: Keep },
    };
    let kept = over(
        &twice,
        &mut arena,
        NO_CONSTANTS,
        &[literal(3, 7)],
        literal(3, 7),
    );
    assert!(rt; kept.answer == Ok(Evaluated::Folded(1)) && kept.len == 2);
    assert!(rt; arena.entries().len() == 2);
    Ok(())
}

// A trap's fault, of an expression that the layers above it leave, comes up as it is.
fn faults<F: Folder>(rt: &impl Abort, folder: &F, arena: &mut Arena, expr: Asked<'_>, want: Fault) {
    let entries = [literal(6, 0), literal(6, 0)];
    let outcome = over(folder, arena, NO_CONSTANTS, &entries, expr);
    assert!(rt; outcome.answer == Err(want) && outcome.len == 2);
}

#[test]
fn a_fault_keeps_its_layer_and_its_code(rt: HostRuntime) -> Result<(), Fail> {
    let kind = Expression::Unary as u8;
    let seven = NonZeroU8::MIN.saturating_add(6);
    let mut arena = Arena::with_limits(rt.alloc(), 8, 16)?;
    let bottom = Trap {
        kind,
        code: seven,
        below: Keep,
    };
    let low = Fault::Layer { layer: 1, code: 7 };
    faults(&rt, &bottom, &mut arena, unary(&[0]), low);
    faults(
        &rt,
        &Whole {
            below: Find { below: bottom },
        },
        &mut arena,
        unary(&[0]),
        low,
    );
    faults(
        &rt,
        &Find {
            below: Whole { below: bottom },
        },
        &mut arena,
        unary(&[1]),
        low,
    );
    let middle = Trap {
        kind,
        code: NonZeroU8::MAX,
        below: Whole { below: Keep },
    };
    let high = Fault::Layer {
        layer: 2,
        code: 255,
    };
    faults(
        &rt,
        &Padding { below: middle },
        &mut arena,
        unary(&[0]),
        high,
    );
    faults(
        &rt,
        &Whole {
            below: Find {
                below: Padding { below: middle },
            },
        },
        &mut arena,
        unary(&[0]),
        high,
    );
    // the upper of two traps, and the lower where the upper leaves it
    let binaries = Trap {
        kind: Expression::Binary as u8,
        code: NonZeroU8::MIN,
        below: middle,
    };
    faults(
        &rt,
        &binaries,
        &mut arena,
        binary(0, &[0, 1]),
        Fault::Layer { layer: 3, code: 1 },
    );
    faults(&rt, &binaries, &mut arena, unary(&[0]), high);
    assert!(rt; bottom.layer() == 1 && middle.layer() == 2 && binaries.layer() == 3);
    assert!(rt;
        Find {
            below: Padding { below: middle }
        }
        .layer()
            == 4
            && Keep.layer() == 0
    );
    Ok(())
}

#[test]
fn a_trap_sees_only_what_comes_down(rt: HostRuntime) -> Result<(), Fail> {
    let mut arena = Arena::with_limits(rt.alloc(), 8, 16)?;
    let trap = Trap {
        kind: Expression::Binary as u8,
        code: NonZeroU8::MIN,
        below: Keep,
    };
    let entries = [literal(3, 20), literal(3, 22)];
    let sum = binary(0, &[0, 1]);
    let above = over(
        &Whole { below: trap },
        &mut arena,
        NO_CONSTANTS,
        &entries,
        sum,
    );
    assert!(rt; above.answer == Ok(Evaluated::Folded(2)) && above.words == Some([3, 42, 0, 0]));
    let below = over(&trap, &mut arena, NO_CONSTANTS, &entries, sum);
    assert!(rt; below.answer == Err(Fault::Layer { layer: 1, code: 1 }) && below.len == 2);
    // an equal literal is found above a trap on literals
    let literals = Trap {
        kind: Expression::Literal as u8,
        code: NonZeroU8::MIN,
        below: Keep,
    };
    let found = over(
        &Find { below: literals },
        &mut arena,
        NO_CONSTANTS,
        &entries,
        literal(3, 22),
    );
    assert!(rt; found.answer == Ok(Evaluated::Folded(1)) && found.len == 2);
    Ok(())
}

#[test]
fn padding_adds_two_or_answers_by_an_init(rt: HostRuntime) -> Result<(), Fail> {
    let mut arena = Arena::with_limits(rt.alloc(), 8, 16)?;
    let pile = Padding {
        below: Trap {
            kind: Expression::Splat as u8,
            code: NonZeroU8::MIN,
            below: Whole { below: Keep },
        },
    };
    let entries = [literal(3, 20), literal(3, 22)];
    let padded = over(&pile, &mut arena, NO_CONSTANTS, &entries, compose(&[1, 0]));
    assert!(rt; padded.answer == Ok(Evaluated::Folded(3)) && padded.len == 4);
    assert!(rt; arena.kind(2) == Some(26) && arena.words(2) == Some([6, 0, 0, 0]));
    assert!(rt;
        arena.operands(2) == Some([].as_slice()) && arena.operands(3) == Some([1, 0].as_slice())
    );
    assert!(rt; arena.kind(3) == Some(0) && arena.words(3) == Some([6, 0, 0, 0]));
    assert!(rt; arena.get(2).map(|entry| entry.span) == Some(ASKED));
    let sum = over(
        &pile,
        &mut arena,
        NO_CONSTANTS,
        &entries,
        binary(0, &[0, 1]),
    );
    assert!(rt; sum.answer == Ok(Evaluated::Folded(2)) && sum.words == Some([3, 42, 0, 0]));

    let list = [mapped(1), mapped(2)];
    let own = Constants {
        list: &list,
        globals: None,
    };
    let with_compose = [literal(3, 20), literal(3, 22), compose(&[0, 1])];
    let init = over(&pile, &mut arena, own, &with_compose, constant(0));
    assert!(rt; init.answer == Ok(Evaluated::Folded(1)) && init.len == 3);
    // a Compose is not pre-emit, so its constant is kept
    let kept = over(&pile, &mut arena, own, &with_compose, constant(1));
    assert!(rt; kept.answer == Ok(Evaluated::Folded(3)) && kept.words == Some([1, 0, 0, 0]));
    Ok(())
}

#[test]
fn what_is_no_constant_is_not_asked_about(rt: HostRuntime) -> Result<(), Fail> {
    let mut arena = Arena::with_limits(rt.alloc(), 8, 16)?;
    let argument = Asked {
        kind: Expression::FunctionArgument as u8,
        words: [0; 4],
        operands: &[],
        span: ASKED,
    };
    let trap = Trap {
        kind: argument.kind,
        code: NonZeroU8::MIN,
        below: Whole { below: Keep },
    };
    let mut slots = [ExpressionKind::Const; 8];
    let mut tracker = ExpressionKindTracker::new(&mut slots);
    assert!(rt;
        append(
            &mut arena,
            &mut tracker,
            literal(3, 1),
            ExpressionKind::Const
        ) == Ok(0)
    );
    assert!(rt;
        append(
            &mut arena,
            &mut tracker,
            literal(3, 2),
            ExpressionKind::Override
        ) == Ok(1)
    );
    assert!(rt;
        append(
            &mut arena,
            &mut tracker,
            literal(3, 3),
            ExpressionKind::Runtime
        ) == Ok(2)
    );
    for (expr, want) in [
        (argument, Evaluated::NotConst),
        (binary(0, &[0, 1]), Evaluated::NotConst),
        (binary(0, &[2, 0]), Evaluated::NotConst),
        (binary(0, &[0, 3]), Evaluated::NotConst),
        (unary(&[2]), Evaluated::NotConst),
        (unary(&[0]), Evaluated::Declined),
        (binary(3, &[0, 0]), Evaluated::Declined),
    ] {
        assert!(rt; ask(&trap, &mut arena, &mut tracker, NO_CONSTANTS, expr) == Ok(want));
        assert!(rt; arena.len() == 3);
    }
    assert!(rt;
        ask(
            &trap,
            &mut arena,
            &mut tracker,
            NO_CONSTANTS,
            binary(0, &[0, 0])
        ) == Ok(Evaluated::Folded(3))
    );
    assert!(rt;
        tracker.type_of(3) == ExpressionKind::Const && tracker.type_of(4) == ExpressionKind::Runtime
    );
    Ok(())
}

// What a pile answers over two literals in tables with so much room.
fn within<F: Folder>(
    heap: Global,
    folder: &F,
    entries: u32,
    operands: u32,
    slots: &mut [ExpressionKind],
    expr: Asked<'_>,
) -> Result<Outcome, AllocError> {
    let mut arena = Arena::with_limits(heap, entries, operands)?;
    let mut tracker = ExpressionKindTracker::new(slots);
    let _ = append(
        &mut arena,
        &mut tracker,
        literal(3, 1),
        ExpressionKind::Const,
    );
    let _ = append(
        &mut arena,
        &mut tracker,
        literal(3, 2),
        ExpressionKind::Const,
    );
    let answer = ask(folder, &mut arena, &mut tracker, NO_CONSTANTS, expr);
    let len = arena.len();
    let words = arena.words((len as u32).saturating_sub(1));
    Ok(Outcome { answer, len, words })
}

#[test]
fn room_for_one_entry_more_or_not(rt: HostRuntime) -> Result<(), Fail> {
    let pile = Find {
        below: Whole { below: Keep },
    };
    let mut slots = [ExpressionKind::Const; 8];
    let sum = binary(0, &[0, 1]);
    let full = within(rt.alloc(), &pile, 2, 0, &mut slots, sum)?;
    assert!(rt; full.answer == Err(Fault::Full(FullTable::Entries)) && full.len == 2);
    let fits = within(rt.alloc(), &pile, 3, 0, &mut slots, sum)?;
    assert!(rt; fits.answer == Ok(Evaluated::Folded(2)) && fits.words == Some([3, 3, 0, 0]));
    // what is found needs no room
    let found = within(rt.alloc(), &pile, 2, 0, &mut slots, literal(3, 2))?;
    assert!(rt; found.answer == Ok(Evaluated::Folded(1)) && found.len == 2);
    let declined = within(rt.alloc(), &pile, 2, 0, &mut slots, unary(&[0]))?;
    assert!(rt; declined.answer == Ok(Evaluated::Declined));
    Ok(())
}

#[test]
fn room_for_operands_and_for_kinds(rt: HostRuntime) -> Result<(), Fail> {
    let pile = Whole {
        below: Find { below: Keep },
    };
    let mut slots = [ExpressionKind::Const; 3];
    let composed = compose(&[0, 1]);
    let full = within(rt.alloc(), &pile, 8, 1, &mut slots, composed)?;
    assert!(rt; full.answer == Err(Fault::Full(FullTable::Operands)) && full.len == 2);
    let fits = within(rt.alloc(), &pile, 8, 2, &mut slots, composed)?;
    assert!(rt; fits.answer == Ok(Evaluated::Folded(2)) && fits.len == 3);
    let mut two = [ExpressionKind::Const; 2];
    let no_kind = within(rt.alloc(), &pile, 8, 2, &mut two, composed)?;
    assert!(rt; no_kind.answer == Err(Fault::Full(FullTable::Kinds)) && no_kind.len == 2);
    // the first of those that are full
    let first = within(rt.alloc(), &pile, 2, 1, &mut two, composed)?;
    assert!(rt; first.answer == Err(Fault::Full(FullTable::Entries)));
    let second = within(rt.alloc(), &pile, 3, 1, &mut two, composed)?;
    assert!(rt; second.answer == Err(Fault::Full(FullTable::Operands)));
    Ok(())
}

#[test]
fn two_entries_are_added_or_none(rt: HostRuntime) -> Result<(), Fail> {
    let pile = Padding {
        below: Trap {
            kind: Expression::Unary as u8,
            code: NonZeroU8::MAX,
            below: Keep,
        },
    };
    let mut slots = [ExpressionKind::Const; 8];
    let composed = compose(&[0, 1]);
    let full = within(rt.alloc(), &pile, 3, 2, &mut slots, composed)?;
    assert!(rt; full.answer == Err(Fault::Full(FullTable::Entries)) && full.len == 2);
    let fits = within(rt.alloc(), &pile, 4, 2, &mut slots, composed)?;
    assert!(rt; fits.answer == Ok(Evaluated::Folded(3)) && fits.len == 4);
    let no_operands = within(rt.alloc(), &pile, 4, 1, &mut slots, composed)?;
    assert!(rt;
        no_operands.answer == Err(Fault::Full(FullTable::Operands)) && no_operands.len == 2
    );
    let mut three = [ExpressionKind::Const; 3];
    let no_kinds = within(rt.alloc(), &pile, 4, 2, &mut three, composed)?;
    assert!(rt; no_kinds.answer == Err(Fault::Full(FullTable::Kinds)) && no_kinds.len == 2);
    // a fault comes before want of room
    let fault = within(rt.alloc(), &pile, 2, 0, &mut slots, unary(&[0]))?;
    assert!(rt;
        fault.answer
            == Err(Fault::Layer {
                layer: 1,
                code: 255
            })
    );
    Ok(())
}

#[test]
fn constants_are_seen_through(rt: HostRuntime) -> Result<(), Fail> {
    let pile = Find {
        below: Whole { below: Keep },
    };
    let mut arena = Arena::with_limits(rt.alloc(), 8, 16)?;
    let list = [mapped(0), mapped(1), mapped(2)];
    let own = Constants {
        list: &list,
        globals: None,
    };
    let chain = [literal(3, 20), constant(0), constant(1), constant(2)];
    let sum = over(&pile, &mut arena, own, &chain, binary(0, &[3, 0]));
    assert!(rt; sum.answer == Ok(Evaluated::Folded(4)) && sum.words == Some([3, 40, 0, 0]));
    let difference = over(&pile, &mut arena, own, &chain, binary(1, &[1, 3]));
    assert!(rt; difference.words == Some([3, 0, 0, 0]) && difference.len == 5);

    // from a body into the globals, which are then three constants deep
    let mut globals = Arena::with_limits(rt.alloc(), 8, 16)?;
    for entry in chain {
        assert!(rt;
            globals
                .append(entry.kind, entry.words, entry.operands, entry.span)
                .is_ok()
        );
    }
    let deep = [mapped(0), mapped(1), mapped(2), mapped(3)];
    let outer = Constants {
        list: &deep,
        globals: Some(Nodes::of(&globals)),
    };
    let entries = [constant(3), literal(3, 2)];
    let product = over(&pile, &mut arena, outer, &entries, binary(2, &[0, 1]));
    assert!(rt; product.answer == Ok(Evaluated::Folded(2)) && product.words == Some([3, 40, 0, 0]));
    // Padding answers by no init in a body
    let kept = over(
        &Padding { below: pile },
        &mut arena,
        outer,
        &[literal(3, 2)],
        constant(0),
    );
    assert!(rt; kept.answer == Ok(Evaluated::Folded(1)) && kept.len == 2);
    Ok(())
}

#[test]
fn damaged_constants_are_not_seen_through(rt: HostRuntime) -> Result<(), Fail> {
    let pile = Find {
        below: Whole { below: Keep },
    };
    let mut arena = Arena::with_limits(rt.alloc(), 8, 16)?;
    let entries = [constant(0), constant(1), literal(4, 5)];
    for list in [
        // each the other's init, each its own, one past the entries, one above the entry
        [mapped(1), mapped(0)],
        [mapped(0), mapped(1)],
        [mapped(ABSENT), mapped(ABSENT)],
        [mapped(2), mapped(2)],
    ] {
        let own = Constants {
            list: &list,
            globals: None,
        };
        let product = over(&pile, &mut arena, own, &entries, binary(2, &[1, 2]));
        assert!(rt; product.answer == Ok(Evaluated::Declined) && product.len == 3);
    }
    let nameless = over(
        &pile,
        &mut arena,
        NO_CONSTANTS,
        &entries,
        binary(2, &[2, 0]),
    );
    assert!(rt; nameless.answer == Ok(Evaluated::Declined) && nameless.len == 3);

    // the same among the globals of a body
    let mut globals = Arena::with_limits(rt.alloc(), 8, 16)?;
    for number in [0u32, 1] {
        assert!(rt; globals.append(24, [number, 0, 0, 0], &[], STANDING) == Ok(number));
    }
    let circle = [mapped(1), mapped(0)];
    let outer = Constants {
        list: &circle,
        globals: Some(Nodes::of(&globals)),
    };
    let product = over(&pile, &mut arena, outer, &entries, binary(2, &[1, 2]));
    assert!(rt; product.answer == Ok(Evaluated::Declined) && product.len == 3);
    Ok(())
}
