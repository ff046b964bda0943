use crate::{Shader, read_shader, write_shader};
use arena::{ABSENT, Entry, Run, Span};
use ir::{Body, Constant, Override, Size, Sizes, Source};
use rounding::{Scalar, ScalarKind};
use std::alloc::{AllocError, Global};
use std::test::Fail;

// Every form that is written: kinds by name and by number, words, runs, spans, names, sizes, raw operands and name bytes.
const WRITTEN: &str = r#"global Literal 4 3 / 7..8  # 0
global Literal 0 0 0 1  # 1
global Binary 2 : 0 1 / 0..4294967295  # 2
global 255 0 4294967295  # 3
global Compose 1 : 0 1 2 3  # 4
global Splat @4294967295+4294967295  # 5
global ZeroValue  # 6
global Math @0+0  # 7
global Math : 1 - - -  # 8
global-operands 0 1 2 3 4 5 6 7 8 9 10 11 12 13 14 -
global-operands 16
constant 0  # 0
constant -  # 1
override 7 hop_limit u32 init 3  # 0
override - "" sint8 -  # 1
override 65535 - bool init 4294967295  # 2
override - "a\x20b\x22\x5c\xff" f16 -  # 3
override - "-" f32 -  # 4
override - "@home" f64 -  # 5
override - @1+0 i32 -  # 6
override - @3+4294967295 i16 -  # 7
override - = u16 -  # 8
names "0123456789\x09bcdefghijklmnopqrstuv"
names "\x00"
variable -  # 0
variable 4294967295  # 1
size x 0 4
size z 64
size vertices 4294967295 4294967295
size primitives 1

body  # 0
entry FunctionArgument  # 0
entry Access : 0 0  # 1
entry-operands -
record Open  # 0
record Store : 0 1  # 1
record 25 @1+1  # 2
record Close  # 3
record-operands 7
local -  # 0
local 1  # 1
named 1  # 0
named -  # 1

body  # 1
"#;

#[test]
fn texts_come_back(rt: HostRuntime) -> Result<(), Fail> {
    let heap = rt.alloc();
    let shader = read_shader(heap, WRITTEN)?;
    let text = write_shader(heap, &shader)?;
    assert_eq!(rt; text.as_str(), WRITTEN);
    Ok(())
}

#[test]
fn loose_texts_are_read(rt: HostRuntime) -> Result<(), Fail> {
    let heap = rt.alloc();
    let loose =
        "# a comment\n\n size  z 7\n\tbody # one\nentry Load  0 0 0 0 : 3 / 0..0 # three\r\n  local -\nglobal 18 4 1\nlocal 0\nsize x 0\n";
    let shader = read_shader(heap, loose)?;
    let text = write_shader(heap, &shader)?;
    let tight =
        "global Literal 4 1  # 0\nsize z 7\n\nbody  # 0\nentry Load : 3  # 0\nlocal -  # 0\nlocal 0  # 1\n";
    assert_eq!(rt; text.as_str(), tight);
    Ok(())
}

// Numbers that look like chance, by a linear congruence.
#[derive(Drop)]
struct Chance(u32);

impl Chance {
    // A number below a bound.
    fn below(&mut self, bound: u32) -> u32 {
        self.0 = self.0.wrapping_mul(1664525).wrapping_add(1013904223);
        (self.0 >> 8).checked_rem(bound).unwrap_or(0)
    }

    // Mostly a small number, and now and then one of the largest.
    fn number(&mut self) -> u32 {
        match self.below(8) {
            0 => ABSENT,
            1 => 0xffff_fffe,
            bound => self.below(bound),
        }
    }

    fn byte(&mut self) -> u8 {
        (self.below(256) & 0xff) as u8
    }

    fn maybe(&mut self) -> Option<u32> {
        let number = self.number();
        if self.below(2) == 0 {
            Some(number)
        } else {
            None
        }
    }

    // A run that often begins where the one before it ended, which is then at its own end.
    fn run(&mut self, end: &mut u32) -> Run {
        let len = self.below(4);
        if self.below(4) == 0 {
            let at = self.number();
            return Run {
                at,
                len: self.number(),
            };
        }
        let at = *end;
        *end = end.saturating_add(len);
        Run { at, len }
    }

    fn entry(&mut self, end: &mut u32) -> Entry {
        let kind = if self.below(3) == 0 {
            self.byte()
        } else {
            self.byte() & 31
        };
        let words = [self.number(), self.number(), self.below(2), self.below(2)];
        let run = self.run(end);
        let start = self.below(2);
        Entry {
            kind,
            words,
            run,
            span: Span {
                start,
                end: self.below(2),
            },
        }
    }

    fn entries(&mut self, heap: Global) -> Result<Vec<Entry>, AllocError> {
        let mut entries = Vec::new(heap);
        let mut end = self.below(2);
        for _ in 0..self.below(8) {
            entries.push(self.entry(&mut end))?;
        }
        Ok(entries)
    }

    fn numbers(&mut self, heap: Global) -> Result<Vec<u32>, AllocError> {
        let mut numbers = Vec::new(heap);
        for _ in 0..self.below(24) {
            numbers.push(self.number())?;
        }
        Ok(numbers)
    }

    fn inits(&mut self, heap: Global) -> Result<Vec<Option<u32>>, AllocError> {
        let mut inits = Vec::new(heap);
        for _ in 0..self.below(4) {
            inits.push(self.maybe())?;
        }
        Ok(inits)
    }

    fn an_override(&mut self, end: &mut u32) -> Override {
        let kind = match self.below(4) {
            0 => ScalarKind::Sint,
            1 => ScalarKind::Uint,
            2 => ScalarKind::Float,
            _ => ScalarKind::Bool,
        };
        let width = self.byte() & 15;
        let name = self.run(end);
        let is_named = self.below(4) != 0;
        Override {
            id: if self.below(2) == 0 {
                Some(u16::from(self.byte()))
            } else {
                None
            },
            name: if is_named { Some(name) } else { None },
            scalar: Scalar { kind, width },
            init: self.maybe(),
        }
    }

    fn overrides(&mut self, heap: Global) -> Result<Vec<Override>, AllocError> {
        let mut overrides = Vec::new(heap);
        let mut end = 0;
        for _ in 0..self.below(8) {
            overrides.push(self.an_override(&mut end))?;
        }
        Ok(overrides)
    }

    fn names(&mut self, heap: Global) -> Result<Vec<u8>, AllocError> {
        let mut names = Vec::new(heap);
        for _ in 0..self.below(80) {
            names.push(self.byte())?;
        }
        Ok(names)
    }

    fn size(&mut self) -> Size {
        let value = self.number();
        Size {
            value,
            handle: self.maybe(),
        }
    }

    fn source(&mut self, heap: Global) -> Result<Source, AllocError> {
        let mut constants = Vec::new(heap);
        for _ in 0..self.below(4) {
            constants.push(Constant {
                init: self.number(),
            })?;
        }
        Ok(Source {
            entries: self.entries(heap)?,
            operands: self.numbers(heap)?,
            constants,
            overrides: self.overrides(heap)?,
            names: self.names(heap)?,
            variables: self.inits(heap)?,
        })
    }

    fn body(&mut self, heap: Global) -> Result<Body, AllocError> {
        Ok(Body {
            entries: self.entries(heap)?,
            operands: self.numbers(heap)?,
            records: self.entries(heap)?,
            record_operands: self.numbers(heap)?,
            locals: self.inits(heap)?,
            named: self.numbers(heap)?,
        })
    }

    fn shader(&mut self, heap: Global) -> Result<Shader, AllocError> {
        let mut bodies = Vec::new(heap);
        for _ in 0..self.below(4) {
            bodies.push(self.body(heap)?)?;
        }
        let x = self.size();
        let y = self.size();
        Ok(Shader {
            source: self.source(heap)?,
            sizes: Sizes {
                workgroup: [x, y, self.size()],
                vertices: self.size(),
                primitives: self.size(),
            },
            bodies,
        })
    }
}

// Damaged in many ways: unknown kinds, runs that overlap or lie outside their list, absent handles, names outside the name bytes.
#[test]
fn any_tables_come_back(rt: HostRuntime) -> Result<(), Fail> {
    let heap = rt.alloc();
    for seed in 0..300u32 {
        let shader = Chance(seed).shader(heap)?;
        let text = write_shader(heap, &shader)?;
        let again = read_shader(heap, text.as_str())?;
        assert!(rt; again == shader, "at {seed}");
        let text_again = write_shader(heap, &again)?;
        assert_eq!(rt; text_again.as_str(), text.as_str());
    }
    Ok(())
}

// What is said of a text that is not read.
fn error_of(heap: Global, text: &str) -> Result<String, Fail> {
    match read_shader(heap, text) {
        Ok(_) => Err(Fail::new("read")),
        Err(error) => Ok(format!(in heap; "{error}")?),
    }
}

#[test]
fn lines_are_refused(rt: HostRuntime) -> Result<(), Fail> {
    let heap = rt.alloc();
    let cases = [
        (
            "\n# x\nglobals 1",
            "line 3: no such item: global, constant, override, variable, size, names, body, entry, record, local, named, or the operands of a list, as global-operands",
        ),
        (
            "global 1\nnamed 0\nbody",
            "line 2: it belongs to a body, and no body is begun",
        ),
        ("global", "line 1: too few words"),
        ("constant", "line 1: too few words"),
        ("override 1 a u32", "line 1: too few words"),
        ("size x", "line 1: too few words"),
        ("body 1", "line 1: too many words"),
        ("variable 1 2", "line 1: too many words"),
        ("global 1 @0+0 1", "line 1: too many words"),
        ("override 1 a u32 - -", "line 1: too many words"),
        (
            "body\nrecord Binary",
            "line 2: the kind is neither the name of one nor a number from 0 to 255",
        ),
        (
            "global 256",
            "line 1: the kind is neither the name of one nor a number from 0 to 255",
        ),
        (
            "global 1 2 3 4 5 6",
            "line 1: after a kind stand up to four numbers, then : and operands or @AT+LEN, then / and START..END",
        ),
        (
            "global 1 / 1..2 : 3",
            "line 1: after a kind stand up to four numbers, then : and operands or @AT+LEN, then / and START..END",
        ),
        (
            "global 1 : 4294967295",
            "line 1: an operand or a handle is neither a number below 4294967295 nor -",
        ),
        (
            "global-operands 01",
            "line 1: an operand or a handle is neither a number below 4294967295 nor -",
        ),
        (
            "variable +1",
            "line 1: the init is neither - nor a number up to 4294967295",
        ),
        (
            "global 1 @1",
            "line 1: a run is not @AT+LEN, two numbers up to 4294967295",
        ),
        (
            "global 1 / 1",
            "line 1: a span is not START..END, two numbers up to 4294967295",
        ),
        (
            "override 65536 a u32 -",
            "line 1: the id is neither a number from 0 to 65535 nor -",
        ),
        (
            "override - a sint4 -",
            "line 1: no such scalar: bool, i16, u16, i32, u32, f16, f32 or f64, or as sint8 a kind and a width in bytes",
        ),
        (
            "override - a u32 3",
            "line 1: the init of an override is neither - nor init and a number up to 4294967295",
        ),
        (
            "names a",
            "line 1: a name in quotes is not printable text with \\xNN for every other byte, for a space, \" and \\",
        ),
        (
            "override - \"\\x5\" u32 -",
            "line 1: a name in quotes is not printable text with \\xNN for every other byte, for a space, \" and \\",
        ),
        (
            "size w 1",
            "line 1: no such size: x, y, z, vertices or primitives",
        ),
        (
            "size x -",
            "line 1: the value of a size is no number up to 4294967295",
        ),
        ("size x 0\nsize x 0", "line 2: a size is given twice"),
    ];
    for (text, expected) in cases {
        let said = error_of(heap, text)?;
        assert_eq!(rt; said.as_str(), expected);
    }
    Ok(())
}
