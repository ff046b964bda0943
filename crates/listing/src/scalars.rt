// The names of scalars. Each scalar has one: those that literals have by type, as `i32`, and the
// others by kind and width in bytes, as `sint8`.
ghost use Rattle.std.specs.Prelude.{◌≡◌, ℕ, ◌<◌, ◌++◌, Some, decimal, MatchOption, ◌≢◌};
ghost use Rattle.std.specs.Option.{option_map};
ghost use Rattle.rounding.specs.declared.scalars.Scalar.{Scalar as Declared};
ghost use Rattle.listing.specs.Names.{kind_word, short_name, kind_name, scalar_name};

use rounding::{Scalar, ScalarKind};
use settings::read_decimal;
use std::fmt;

const KINDS: [ScalarKind; 4] = [
    ScalarKind::Sint,
    ScalarKind::Uint,
    ScalarKind::Float,
    ScalarKind::Bool,
];

// The widths that have names of their own.
const SHORT_WIDTHS: [u8; 4] = [1, 2, 4, 8];

// The word that stands before a width.
fn word_of(kind: ScalarKind) -> &'static str
    ensures { result.now ≡ kind_word kind }
{
    match kind {
        ScalarKind::Sint => "sint",
        ScalarKind::Uint => "uint",
        ScalarKind::Float => "float",
        ScalarKind::Bool => "bool",
    }
}

// The name by which literals have the type of this kind and width.
fn short_of(kind: ScalarKind, width: u8) -> Option<&'static str>
    ensures { option_map (λ s. s.now) result ≡ short_name kind width }
{
    match (kind, width) {
        (ScalarKind::Bool, 1) => Some("bool"),
        (ScalarKind::Sint, 2) => Some("i16"),
        (ScalarKind::Uint, 2) => Some("u16"),
        (ScalarKind::Sint, 4) => Some("i32"),
        (ScalarKind::Uint, 4) => Some("u32"),
        (ScalarKind::Float, 2) => Some("f16"),
        (ScalarKind::Float, 4) => Some("f32"),
        (ScalarKind::Float, 8) => Some("f64"),
        _ => None,
    }
}

// The width after the name of a kind.
fn read_width(word: &str, kind: &str) -> Option<u8>
    ensures { MatchOption result ((w : ℕ) → w < 256 → word.now ≢ kind.now ++ decimal w) (λ w. word.now ≡ kind.now ++ decimal w) }
{
    read_decimal(word.strip_prefix(kind)?)
}

// The width whose name of its own this is.
fn read_short(word: &str, kind: ScalarKind) -> Option<u8>
    ensures { MatchOption result ((w : ℕ) → short_name kind w ≢ Some word.now) (λ w. short_name kind w ≡ Some word.now) }
{
    SHORT_WIDTHS
        .iter()
        .copied()
        .find(|width| short_of(kind, *width) == Some(word))
}

// The width of the scalar of the kind that has this name.
fn read_kind(word: &str, kind: ScalarKind) -> Option<u8>
    ensures { MatchOption result ((w : ℕ) → w < 256 → word.now ≢ kind_name kind w) (λ w. word.now ≡ kind_name kind w) }
{
    if let Some(width) = read_short(word, kind) {
        return Some(width);
    }
    let width = read_width(word, word_of(kind))?;
    if short_of(kind, width).is_some() {
        None
    } else {
        Some(width)
    }
}

// The scalar that has this name.
pub fn read_scalar(word: &str) -> Option<Scalar>
    ensures { MatchOption result ((s : Declared) → s.width < 256 → word.now ≢ scalar_name s) (λ s. word.now ≡ scalar_name s) }
{
    for kind in KINDS {
        if let Some(width) = read_kind(word, kind) {
            return Some(Scalar { kind, width });
        }
    }
    None
}

// A scalar, shown by its name.
#[derive(Clone, Copy)]
pub struct ScalarName(pub Scalar);

impl fmt::Display for ScalarName {
    ghost output = { λ x. Some (scalar_name x.0) };

    fn fmt<W: fmt::Write>(&self, f: &mut fmt::Formatter<W>) -> fmt::Result {
        let Scalar { kind, width } = self.0;
        match short_of(kind, width) {
            Some(name) => f.write_str(name),
            None => {
                let word = word_of(kind);
                write!(f, "{word}{width}")
            }
        }
    }
}
