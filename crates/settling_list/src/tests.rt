use crate::{Answer, Case, Counts, Fault, Ours, Part, Pile, Reader, Sprung, Tally, agrees};
use arena::{ABSENT, Entry, Run, Span};
use evaluator::{ExpressionKind, NewConstant};
use ir::{Constant, Override, Size, Sizes, Source};
use refusals::{Axis, Refusal};
use rounding::{Scalar, ScalarKind};
use std::alloc::{AllocError, Global};
use std::num::NonZeroU8;
use std::process::Abort;
use std::test::Fail;

// A case that is accepted and one that is refused, with every sort of line.
const LIST: &str = "# two cases
case 0
pile keep whole
g 18 4 99 0 0 / 1 2 /
g 14 1 2 3 4 / 5 6 / 0 - - 0
c 0 1
o 7 'hops 1 4 0
o - x6dc3a9 3 1 -
v 1 -
z 1 2 3 4 5 / 0 - - - 1
k '7 4010000000000000
k x20 fff8000000000001
settle ok
G 18 4 99 0 0 / 1 2 /
G 14 1 2 3 4 / 5 6 / 0 - - 0
GK CC
C 0 1
O 0 -
V 1 -
Z 99 2 3 4 5
H 0 1
M 2 3
end
case 1
pile keep whole trap:24:9
z 1 1 1 0 0 / - - - - -
settle refused 15 2
GK
C
O
V
H
M
end
cases 2
";

// The cases of a list, or the line at fault and what is wrong with it.
fn read(heap: Global, list: &str) -> Result<Result<Vec<Case>, (u64, Fault)>, AllocError> {
    let mut reader = Reader::new(heap);
    let mut cases = Vec::new(heap);
    for line in list.lines() {
        match reader.put_line(line) {
            Ok(Some(case)) => cases.push(case)?,
            Ok(None) => {}
            Err(error) => return Ok(Err((error.line, error.fault))),
        }
    }
    match reader.finish() {
        Ok(_) => Ok(Ok(cases)),
        Err(error) => Ok(Err((error.line, error.fault))),
    }
}

fn size(value: u32, handle: Option<u32>) -> Size {
    Size { value, handle }
}

#[test]
fn a_list_is_read(rt: HostRuntime) -> Result<(), Fail> {
    let heap = rt.alloc();
    let Ok(cases) = read(heap, LIST)? else {
        return Err(Fail::new("refused"));
    };
    let [first, second] = cases.as_slice() else {
        return Err(Fail::new("not two cases"));
    };
    let literal = Entry {
        kind: 18,
        words: [4, 99, 0, 0],
        run: Run { at: 0, len: 0 },
        span: Span { start: 1, end: 2 },
    };
    let math = Entry {
        kind: 14,
        words: [1, 2, 3, 4],
        run: Run { at: 0, len: 4 },
        span: Span { start: 5, end: 6 },
    };
    let source = Source {
        entries: vec![in heap; literal, math]?,
        operands: vec![in heap; 0, ABSENT, ABSENT, 0]?,
        constants: vec![in heap; Constant { init: 0 }, Constant { init: 1 }]?,
        overrides: vec![in heap;
            Override {
                id: Some(7),
                name: Some(Run { at: 0, len: 4 }),
                scalar: Scalar {
                    kind: ScalarKind::Uint,
                    width: 4
                },
                init: Some(0),
            },
            Override {
                id: None,
                name: Some(Run { at: 4, len: 3 }),
                scalar: Scalar {
                    kind: ScalarKind::Bool,
                    width: 1
                },
                init: None,
            },
        ]?,
        names: Vec::from_slice(heap, b"hopsm\xc3\xa9")?,
        variables: vec![in heap; Some(1), None]?,
    };
    assert!(rt; first.source == source);
    assert_eq!(rt; first.pile, Pile::KeepWhole);
    let sizes = Sizes {
        workgroup: [size(1, Some(0)), size(2, None), size(3, None)],
        vertices: size(4, None),
        primitives: size(5, Some(1)),
    };
    assert_eq!(rt; first.sizes, sizes);
    let file =
        b"\x02\x00\x01\x017 \x00\x00\x00\x00\x00\x00\x10\x40\x01\x00\x00\x00\x00\x00\xf8\xff";
    assert!(rt; first.file.as_slice() == file.as_slice());
    let answer = Answer {
        ended: Ok([99, 2, 3, 4, 5]),
        entries: vec![in heap; literal, math]?,
        operands: vec![in heap; 0, ABSENT, ABSENT, 0]?,
        kinds: 2,
        constants: vec![in heap; 0, 1]?,
        overrides: vec![in heap; Some(0), None]?,
        variables: vec![in heap; Some(1), None]?,
        images: vec![in heap; 0, 1]?,
        settled: vec![in heap; 2, 3]?,
    };
    assert!(rt; first.answer == answer);
    let code = NonZeroU8::new(9).expect(&rt, "9");
    assert_eq!(rt; second.pile, Pile::KeepWholeTrap(Sprung { kind: 24, code }));
    assert!(rt; second.answer.ended == Err(Refusal::NegativeWorkgroupSize { axis: Axis::Z }));
    Ok(())
}

#[test]
fn damaged_lists_are_refused(rt: HostRuntime) -> Result<(), Fail> {
    let heap = rt.alloc();
    let damages = [
        ("case 0", "case 1", 2, Fault::WrongNumber),
        ("case 1", "case 0", 24, Fault::WrongNumber),
        ("pile keep whole\n", "", 22, Fault::NotOnce),
        ("pile keep whole", "pile whole keep", 3, Fault::BadPile),
        ("trap:24:9", "trap:24:0", 25, Fault::BadPile),
        ("g 18 4 99", "g 18 4", 4, Fault::BadEntry),
        ("g 18 4 99", "g 18 4 -", 4, Fault::BadNumber),
        ("g 18 4 99", "g 256 4 99", 4, Fault::BadNumber),
        ("0 - - 0\nc", "0 - - 4294967295\nc", 5, Fault::BadNumber),
        ("c 0 1", "c 0 -", 6, Fault::BadNumber),
        ("o 7 ", "o 65536 ", 7, Fault::BadOverride),
        ("'hops", "hops", 7, Fault::BadName),
        ("x6dc3a9", "x6dc3a", 8, Fault::BadName),
        ("x6dc3a9 3", "x6dc3a9 4", 8, Fault::BadOverride),
        ("z 1 2 3 4 5 / 0", "z 1 2 3 4 / 0", 10, Fault::BadSizes),
        ("4010000000000000", "401", 11, Fault::BadSetting),
        ("k '7", "k", 11, Fault::BadSetting),
        ("settle ok", "settle panic", 13, Fault::BadOutcome),
        ("settle ok\n", "", 13, Fault::OutOfPlace),
        ("GK CC", "GK CR", 16, Fault::BadKinds),
        ("C 0 1\n", "", 22, Fault::NotOnce),
        ("Z 99", "Z", 20, Fault::BadSizes),
        ("Z 99 2 3 4 5\n", "", 22, Fault::NotOnce),
        ("H 0 1", "H 0 1\nH 0 1", 22, Fault::NotOnce),
        ("M 2 3\nend", "M 2 3", 23, Fault::OutOfPlace),
        ("refused 15 2", "refused 15 3", 27, Fault::BadOutcome),
        ("refused 15 2", "refused 18 2", 27, Fault::BadOutcome),
        ("cases 2", "cases 3", 35, Fault::WrongCount),
        ("cases 2\n", "", 35, Fault::EndsTooSoon),
        ("cases 2", "cases 2\ncase 2", 36, Fault::OutOfPlace),
        ("case 1", "\ncase 1", 24, Fault::OutOfPlace),
    ];
    for (old, new, line, fault) in damages {
        let damaged = LIST.replace(heap, old, new)?;
        match read(heap, damaged.as_str())? {
            Ok(_) => assert!(rt; false, "{old} as {new} is read"),
            Err(error) => assert!(rt; error == (line, fault), "{old} as {new}: {error:?}"),
        }
    }
    Ok(())
}

fn mapped(init: u32) -> NewConstant {
    NewConstant { init, mapped: true }
}

// The first case of the list.
fn first_case(heap: Global) -> Result<Case, Fail> {
    let Ok(cases) = read(heap, LIST)? else {
        return Err(Fail::new("refused"));
    };
    match cases.into_iter().next() {
        Some(case) => Ok(case),
        None => Err(Fail::new("no case")),
    }
}

// Changes a part of an answer where nothing was refused.
fn change(part: Part, answer: &mut Answer) -> Result<(), AllocError> {
    match part {
        Part::Outcome | Part::Counts => answer.ended = Err(Refusal::NotFound { key: 1 }),
        Part::Entries => answer.operands.push(0)?,
        Part::Kinds => answer.kinds = 1,
        Part::Constants => answer.constants.push(0)?,
        Part::Overrides => answer.overrides.push(None)?,
        Part::Variables => answer.variables.push(None)?,
        Part::Sizes => answer.ended = Ok([99, 2, 3, 4, 6]),
        Part::Images => answer.images.push(0)?,
        Part::Settled => answer.settled.push(0)?,
    }
    Ok(())
}

// A settling that gives the answer of the first case, before each part of that answer in turn is changed.
#[test]
fn answers_are_compared(rt: HostRuntime) -> Result<(), Fail> {
    let heap = rt.alloc();
    let case = first_case(heap)?;
    let constants = [mapped(0), mapped(1)];
    let overrides = case.source.overrides.as_slice();
    let mut sizes = case.sizes;
    sizes.workgroup[0].value = 99;
    let ours = Ours {
        refused: None,
        entries: case.answer.entries.as_slice(),
        operands: case.answer.operands.as_slice(),
        kinds: &[ExpressionKind::Const; 2],
        constants: &constants,
        overrides,
        variables: case.answer.variables.as_slice(),
        sizes,
        images: case.answer.images.as_slice(),
        settled: case.answer.settled.as_slice(),
    };
    let mut tally = Tally::new();
    assert!(rt; tally.add(&case.answer, &ours) == None);
    assert!(rt; tally.is_same());
    for part in Part::ALL {
        let mut changed = first_case(heap)?;
        change(part, &mut changed.answer)?;
        let differs = match part {
            Part::Counts => Part::Outcome,
            _ => part,
        };
        assert!(rt;
            tally.add(&changed.answer, &ours) == Some(differs),
            "{part:?}"
        );
    }
    assert!(rt; !tally.is_same());
    let text = format!(in heap; "{tally}")?;
    let expected = "11 cases, 1 the same in all parts
  accepted 9
  refused with 6 2
  outcomes: 11 compared, 9 the same
  counts of what was written: 0 compared, 0 the same
  finished entries with their operands: 11 compared, 10 the same
  kinds: 11 compared, 10 the same
  constants: 11 compared, 10 the same
  overrides: 11 compared, 10 the same
  variable inits: 11 compared, 10 the same
  sizes: 9 compared, 8 the same
  handle tables: 11 compared, 10 the same
  overrides' constants: 11 compared, 10 the same
";
    assert_eq!(rt; text.as_str(), expected);
    Ok(())
}

// What was written before a refusal is counted.
#[test]
fn counts_are_compared(rt: HostRuntime) -> Result<(), Fail> {
    let heap = rt.alloc();
    let case = first_case(heap)?;
    let mut answer = case.answer;
    let refusal = Refusal::MissingValue { number: 1 };
    answer.ended = Err(refusal);
    let counts = Counts {
        entries: 2,
        operands: 4,
        kinds: 2,
        constants: 2,
        overrides: 2,
        variables: 2,
        images: 2,
        settled: 2,
    };
    let constants = [mapped(0), mapped(1)];
    let mut ours = Ours {
        refused: Some((refusal, counts)),
        entries: answer.entries.as_slice(),
        operands: answer.operands.as_slice(),
        kinds: &[ExpressionKind::Const; 2],
        constants: &constants,
        overrides: case.source.overrides.as_slice(),
        variables: answer.variables.as_slice(),
        sizes: case.sizes,
        images: answer.images.as_slice(),
        settled: answer.settled.as_slice(),
    };
    assert!(rt; Tally::new().add(&answer, &ours) == None);
    ours.refused = Some((refusal, Counts { kinds: 1, ..counts }));
    assert!(rt; agrees(Part::Counts, &answer, &ours) == Some(false));
    ours.refused = Some((Refusal::MissingValue { number: 0 }, counts));
    assert!(rt; agrees(Part::Outcome, &answer, &ours) == Some(false));
    assert!(rt; agrees(Part::Sizes, &answer, &ours) == None);
    Ok(())
}
