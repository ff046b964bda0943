// The refusal of a value for a scalar that no literal has, and how literals are laid out in words.
// The many values are replayed by a program of their own.
use crate::conversion::{ConversionError, map_value_to_literal};
use crate::literals::Literal;
use crate::scalars::{Scalar, ScalarKind};
use std::process::Abort;

fn refused(rt: &impl Abort, kind: ScalarKind, width: u8, value: f64) {
    assert!(rt;
        map_value_to_literal(value, Scalar { kind, width })
            == Err(ConversionError::UnsupportedScalar)
    );
}

#[test]
fn other_scalars(rt: HostRuntime) {
    refused(&rt, ScalarKind::Sint, 8, 1.0);
    refused(&rt, ScalarKind::Uint, 1, 1.0);
    refused(&rt, ScalarKind::Bool, 4, 1.0);
    // before what is not finite, and before what does not fit
    refused(&rt, ScalarKind::Sint, 8, 0.0 / 0.0);
    refused(&rt, ScalarKind::Float, 16, 1.0e300);
}

#[test]
fn largest_single(rt: HostRuntime) {
    let scalar = Scalar {
        kind: ScalarKind::Float,
        width: 4,
    };
    // 2^128 - 2^103 lies halfway between the largest value and 2^128
    let tie = std::num::f64_from_bits_with_nan(0x47ef_ffff_f000_0000);
    let before = std::num::f64_from_bits_with_nan(0x47ef_ffff_efff_ffff);
    let after = std::num::f64_from_bits_with_nan(0x47ef_ffff_f000_0001);
    assert!(rt; map_value_to_literal(before, scalar) == Ok(Literal::F32(0x7f7f_ffff)));
    assert!(rt; map_value_to_literal(tie, scalar) == Err(ConversionError::DstRangeTooSmall));
    assert!(rt; map_value_to_literal(after, scalar) == Err(ConversionError::DstRangeTooSmall));
}

#[test]
fn in_words(rt: HostRuntime) {
    assert!(rt; Literal::I16(-2).words() == [1, 0xfffe, 0]);
    assert!(rt; Literal::I64(-2).words() == [8, 0xffff_fffe, 0xffff_ffff]);
    assert!(rt; Literal::F64(0x3ff0_0000_0000_0001).words() == [7, 1, 0x3ff0_0000]);
    assert!(rt; Literal::Bool(true).words() == [0, 1, 0]);
}
