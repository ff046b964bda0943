// How the parts of a report look.
use crate::outcomes::Tally;
use listing::{ScalarName, ValueText};
use rounding::{Literal, Scalar};
use std::fmt;
use std::num::{f32_from_bits_with_nan, f32_to_f64_with_nan, f64_from_bits_with_nan};

// An override by its id, its name and its scalar.
#[derive(Clone, Copy)]
pub struct Label<'o> {
    pub id: Option<u16>,
    pub name: Option<&'o str>,
    pub scalar: Scalar,
}

impl fmt::Display for Label<'_> {
    fn fmt<W: fmt::Write>(&self, f: &mut fmt::Formatter<W>) -> fmt::Result {
        if let Some(id) = self.id {
            write!(f, "id {id}, ")?;
        }
        if let Some(name) = self.name {
            write!(f, "name {name}, ")?;
        }
        let scalar = ScalarName(self.scalar);
        write!(f, "{scalar}")
    }
}

// The number that a half's bits stand for.
pub(crate) fn half_value(bits: u16) -> f64 {
    let field = i32::from((bits >> 10) & 31);
    let mantissa = f64::from(bits & 1023);
    let size = if field == 0 {
        mantissa * 2.0f64.powi(-24)
    } else if field < 31 {
        (mantissa + 1024.0) * 2.0f64.powi(field - 25)
    } else if mantissa == 0.0 {
        f64::INFINITY
    } else {
        f64::NAN
    };
    if bits >= 0x8000 { -size } else { size }
}

// A literal by its type, its value and its bits.
#[derive(Clone, Copy)]
pub struct LiteralText(pub Literal);

fn put_float<W: fmt::Write>(f: &mut fmt::Formatter<W>, type_name: &str, value: f64) -> fmt::Result {
    let value = ValueText(value);
    write!(f, "{type_name} {value}")
}

fn put_value<W: fmt::Write>(f: &mut fmt::Formatter<W>, literal: Literal) -> fmt::Result {
    match literal {
        Literal::Bool(b) => write!(f, "bool {b}"),
        Literal::I16(i) => write!(f, "i16 {i}"),
        Literal::U16(u) => write!(f, "u16 {u}"),
        Literal::I32(i) => write!(f, "i32 {i}"),
        Literal::U32(u) => write!(f, "u32 {u}"),
        Literal::F16(bits) => put_float(f, "f16", half_value(bits)),
        Literal::F32(bits) => put_float(
            f,
            "f32",
            f32_to_f64_with_nan(f32_from_bits_with_nan(bits)),
        ),
        Literal::F64(bits) => put_float(f, "f64", f64_from_bits_with_nan(bits)),
        Literal::I64(i) => write!(f, "i64 {i}"),
        Literal::U64(u) => write!(f, "u64 {u}"),
        Literal::AbstractInt(i) => write!(f, "abstract int {i}"),
        Literal::AbstractFloat(bits) => put_float(
            f,
            "abstract float",
            f64_from_bits_with_nan(bits),
        ),
    }
}

fn put_bits<W: fmt::Write>(f: &mut fmt::Formatter<W>, literal: Literal) -> fmt::Result {
    let bits = literal.bits();
    let digits = match literal {
        Literal::Bool(_) => 1,
        Literal::I16(_) | Literal::U16(_) | Literal::F16(_) => 4,
        Literal::I32(_) | Literal::U32(_) | Literal::F32(_) => 8,
        _ => 16,
    };
    write!(f, "bits 0x{bits:0digits$x}")
}

impl fmt::Display for LiteralText {
    fn fmt<W: fmt::Write>(&self, f: &mut fmt::Formatter<W>) -> fmt::Result {
        put_value(f, self.0)?;
        f.write_str(", ")?;
        put_bits(f, self.0)
    }
}

// How many things there are, and what they are called.
#[derive(Clone, Copy)]
pub struct Many<'w>(pub usize, pub &'w str, pub &'w str);

impl fmt::Display for Many<'_> {
    fn fmt<W: fmt::Write>(&self, f: &mut fmt::Formatter<W>) -> fmt::Result {
        let n = self.0;
        let noun = if n == 1 { self.1 } else { self.2 };
        write!(f, "{n} {noun}")
    }
}

impl fmt::Display for Tally {
    fn fmt<W: fmt::Write>(&self, f: &mut fmt::Formatter<W>) -> fmt::Result {
        let overrides = Many(self.overrides, "override", "overrides");
        let literals = Many(self.literals, "literal", "literals");
        let inits = Many(self.inits, "init", "inits");
        let refused = self.refused;
        let untaken = Many(self.untaken, "key", "keys");
        write!(
            f,
            "{overrides}: {literals} made, {inits} kept, {refused} refused; {untaken} not taken"
        )
    }
}
