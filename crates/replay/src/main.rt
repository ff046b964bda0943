// Replays a stored list of conversions: for each double of the list and each of eight types of scalar, the crate
// `rounding` has to make the literal, or give the error, that naga's Rust gave. The list comes by standard input,
// and its first lines say how it was made and how a line reads.
#![tactic(auto)]

use anyhow::{Context, ensure};
use rounding::{ConversionError, Scalar, ScalarKind, map_value_to_literal};
use std::num::f64_from_bits_with_nan;
use std::{fmt, io};

// The columns of answers on a line, in the order of the literals' type numbers: a name, and the scalar's kind and
// width in bytes.
const COLUMNS: [(&str, ScalarKind, u8); 8] = [
    ("bool", ScalarKind::Bool, 1),
    ("i16", ScalarKind::Sint, 2),
    ("u16", ScalarKind::Uint, 2),
    ("i32", ScalarKind::Sint, 4),
    ("u32", ScalarKind::Uint, 4),
    ("f16", ScalarKind::Float, 2),
    ("f32", ScalarKind::Float, 4),
    ("f64", ScalarKind::Float, 8),
];

// Differences that are printed. All are counted.
const SHOWN: u64 = 20;

const MALFORMED: &str = "a line is not a double and eight answers";

// A literal by its type's number and its bits.
#[derive(Clone, Copy, PartialEq, Eq)]
struct Made {
    type_number: u32,
    bits: u64,
}

// What a conversion gave.
type Answer = Result<Made, ConversionError>;

// An answer as it is printed.
#[derive(Drop)]
struct Shown(Answer);

impl fmt::Display for Shown {
    fn fmt<W: fmt::Write>(&self, f: &mut fmt::Formatter<W>) -> fmt::Result {
        match self.0 {
            Ok(Made { type_number, bits }) => write!(f, "{bits:x} of type {type_number}"),
            Err(error) => write!(f, "!{}", error.code()),
        }
    }
}

// A bool is one hexadecimal digit, and any other type two for each byte.
fn digits_of(scalar: Scalar) -> usize {
    match scalar.width {
        1 => 1,
        width => 2 * width as usize,
    }
}

// The number that a word of just so many hexadecimal digits stands for.
fn hexadecimal(word: &str, digits: usize) -> Option<u64> {
    if word.len() != digits || word.starts_with('+') {
        return None;
    }
    u64::from_str_radix(word, 16).ok()
}

// An answer as the list writes it.
fn stored(word: &str, type_number: u32, scalar: Scalar) -> Option<Answer> {
    match word {
        "!9" => Some(Err(ConversionError::SrcNeedsToBeFinite)),
        "!10" => Some(Err(ConversionError::DstRangeTooSmall)),
        _ => {
            let bits = hexadecimal(word, digits_of(scalar))?;
            Some(Ok(Made { type_number, bits }))
        }
    }
}

fn convert(bits: u64, scalar: Scalar) -> Answer {
    let literal = map_value_to_literal(f64_from_bits_with_nan(bits), scalar)?;
    let [type_number, low, high] = literal.words();
    let bits = (u64::from(high) << 32) | u64::from(low);
    Ok(Made { type_number, bits })
}

#[derive(Default, Drop)]
struct Tally {
    lines: u64,
    doubles: u64,
    conversions: u64,
    different: u64,
}

impl Tally {
    // Passes over a comment, and compares what any other line holds.
    fn replay(&mut self, rt: &HostRuntime, line: &str) -> anyhow::Result<()> {
        self.lines = self.lines.saturating_add(1);
        if line.starts_with('#') {
            return Ok(());
        }
        let mut words = line.split_whitespace();
        let first = words.next().context(MALFORMED)?;
        let bits = hexadecimal(first, 16).context(MALFORMED)?;
        for (type_number, (name, kind, width)) in (0u32..).zip(COLUMNS) {
            let scalar = Scalar { kind, width };
            let word = words.next().context(MALFORMED)?;
            let expected = stored(word, type_number, scalar).context(MALFORMED)?;
            let given = convert(bits, scalar);
            self.conversions = self.conversions.saturating_add(1);
            if given != expected {
                self.differ(rt, bits, name, given, expected)?;
            }
        }
        ensure!(words.next().is_none(), "{MALFORMED}");
        self.doubles = self.doubles.saturating_add(1);
        Ok(())
    }

    fn differ(
        &mut self,
        rt: &HostRuntime,
        bits: u64,
        name: &str,
        given: Answer,
        expected: Answer,
    ) -> io::Result<()> {
        self.different = self.different.saturating_add(1);
        if self.different > SHOWN {
            return Ok(());
        }
        println!(rt;
            "line {}: {bits:016x} as {name} gives {}, and the Rust gave {}",
            self.lines,
            Shown(given),
            Shown(expected)
        )
    }

    fn finish(&self, rt: &HostRuntime) -> anyhow::Result<()> {
        println!(rt;
            "{} doubles, {} conversions compared with the Rust's answers, {} different",
            self.doubles, self.conversions, self.different
        )?;
        ensure!(self.doubles > 0, "the list has no double");
        ensure!(
            self.different == 0,
            "conversions differ from the Rust's answers"
        );
        Ok(())
    }
}

fn run(rt: &HostRuntime) -> anyhow::Result<()> {
    let mut tally = Tally::default();
    for line in rt.lines(rt.alloc()) {
        let text = line?;
        if let Err(error) = tally.replay(rt, text.as_str()) {
            println!(rt; "line {}: {error}", tally.lines)?;
            return Err(error);
        }
    }
    tally.finish(rt)
}

fn main(rt: HostRuntime) -> anyhow::Result<()> {
    run(&rt)
}
