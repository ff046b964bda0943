// A pipeline value as a typed literal.
//
// naga's `map_value_to_literal`. A value for a scalar that no literal has, where naga panics, is
// refused first; then what is not finite, then what does not fit, as there.
ghost use Rattle.std.specs.Prelude.{◌≡◌, ◌*◌, ◌<◌, true, IfOk, Ok, Some};
ghost use Rattle.std.specs.Float.{NotNan, float_is_finite};
ghost use Rattle.std.specs.Int.{saturate_to_bits};
ghost use Rattle.rounding.specs.Formats.{sign_bit_of};
ghost use Rattle.rounding.specs.Doubles.{whole, truth};
ghost use Rattle.rounding.specs.Conversion.{code_of, told_as, Finite, Rounds, Becomes, Pinned};
ghost use Rattle.rounding.specs.Shifts.{Converted};

use crate::formats::{Format, HALF, SINGLE};
use crate::literals::Literal;
use crate::scalars::{Scalar, ScalarKind};
use std::num::TryFromIntError;
use std::{fmt, num};

// Why a value makes no literal, by the refusal's number. The first two names are naga's.
#[derive(Clone, Copy, PartialEq, Eq, Debug)]
pub enum ConversionError {
    SrcNeedsToBeFinite = 9,
    DstRangeTooSmall = 10,
    UnsupportedScalar = 11,
}

impl ConversionError {
    // The refusal's number.
    pub fn code(&self) -> u8
        ensures { result ≡ code_of self.now }
    {
        *self as u8
    }
}

// By hand, since `output` states the text.
impl fmt::Display for ConversionError {
    ghost output = { λ e. Some (told_as e) };

    fn fmt<W: fmt::Write>(&self, f: &mut fmt::Formatter<W>) -> fmt::Result {
        match self {
            ConversionError::SrcNeedsToBeFinite => write!(f, "the value is not finite"),
            ConversionError::DstRangeTooSmall => write!(f, "the value does not fit the type"),
            ConversionError::UnsupportedScalar => write!(f, "no literal has this scalar type"),
        }
    }
}

// The value, if it is finite.
fn finite(value: f64) -> Result<f64, ConversionError>
    ensures cases { Finite value result (result ≡ Ok value) }
    ensures finite { IfOk result (λ v. (v ≡ value) × NotNan v × (float_is_finite v ≡ true)) }
{
    if value.is_finite() {
        Ok(value)
    } else {
        Err(ConversionError::SrcNeedsToBeFinite)
    }
}

// The value without its fraction, or the end of 64 bits that it is past.
#[tactic(auto, using(crate::proofs::Floats::cast_is))]
fn whole_of(value: f64) -> Result<i64, ConversionError>
    ensures cases { Finite value result (result ≡ Ok (saturate_to_bits 63 (whole value))) }
    ensures finite { IfOk result (λ z. (z ≡ saturate_to_bits 63 (whole value)) × (float_is_finite value ≡ true)) }
{
    Ok(num::saturating_f64_to_i64(finite(value)?))
}

// The value without its fraction, if `T`, a type narrower than 64 bits, has it.
fn whole_as<T: TryFrom<i64, Error = TryFromIntError> + Drop>(
    value: f64,
) -> Result<T, ConversionError>
    ensures { Converted value T.try_from_gives result }
{
    T::try_from(whole_of(value)?).or(Err(ConversionError::DstRangeTooSmall))
}

// The pattern of the format's value that is nearest to `value`, with its sign.
fn rounded(value: f64, format: Format) -> Result<u64, ConversionError>
    ensures cases { Rounds value result format (λ p. p) }
    ensures bound { IfOk result (λ p. p < 2 * sign_bit_of format) }
{
    let value = finite(value)?;
    let pattern = format.nearest(value.abs().to_bits());
    if pattern >= format.infinity() {
        return Err(ConversionError::DstRangeTooSmall);
    }
    let sign = if value.is_sign_negative() {
        format.sign_bit()
    } else {
        0
    };
    Ok(sign + pattern)
}

// Every value but the zeros and the NaNs.
#[tactic(auto, using(crate::proofs::Conversions::truth_other, crate::proofs::Conversions::truth_zero))]
fn is_true(value: f64) -> bool
    ensures { result ≡ truth value }
{
    value != 0.0 && !value.is_nan()
}

// The literal of the scalar type.
fn literal_of(value: f64, scalar: Scalar) -> Result<Literal, ConversionError>
    ensures { Becomes scalar value result }
{
    match (scalar.kind, scalar.width) {
        (ScalarKind::Bool, 1) => Ok(Literal::Bool(is_true(value))),
        (ScalarKind::Sint, 2) => Ok(Literal::I16(whole_as(value)?)),
        (ScalarKind::Uint, 2) => Ok(Literal::U16(whole_as(value)?)),
        (ScalarKind::Sint, 4) => Ok(Literal::I32(whole_as(value)?)),
        (ScalarKind::Uint, 4) => Ok(Literal::U32(whole_as(value)?)),
        (ScalarKind::Float, 2) => Ok(Literal::F16(rounded(value, HALF)? as u16)),
        (ScalarKind::Float, 4) => Ok(Literal::F32(rounded(value, SINGLE)? as u32)),
        (ScalarKind::Float, 8) => Ok(Literal::F64(finite(value)?.to_bits())),
        _ => Err(ConversionError::UnsupportedScalar),
    }
}

// What the value becomes for the scalar.
#[tactic(auto, using(crate::proofs::Pinning::pinned))]
pub fn map_value_to_literal(value: f64, scalar: Scalar) -> Result<Literal, ConversionError>
    ensures { Pinned scalar value result }
{
    literal_of(value, scalar)
}
