use super::*;
use arena::{Run, Table};
use ir::{Override, Size, Sizes, Source};
use places::{Place, TableName};
use refusals::Refusal;
use rounding::{ConversionError, Literal, Scalar, ScalarKind};
use settings::{Setting, Settings, write};
use std::alloc::Global;
use std::test::Fail;
use walking::Valued;

// The name bytes of every module here.
const NAMES: [u8; 4] = *b"7abc";

const SEVEN: Option<Run> = Some(Run { at: 0, len: 1 });

const ABC: Option<Run> = Some(Run { at: 1, len: 3 });

const NO_SIZE: Size = Size {
    value: 1,
    handle: None,
};

const SIZES: Sizes = Sizes {
    workgroup: [NO_SIZE; 3],
    vertices: NO_SIZE,
    primitives: NO_SIZE,
};

fn known(id: Option<u16>, name: Option<Run>, kind: ScalarKind, width: u8) -> Override {
    Override {
        id,
        name,
        scalar: Scalar { kind, width },
        init: None,
    }
}

// A module that has nothing but overrides.
fn module(heap: Global, overrides: &[Override]) -> Result<Source, Fail> {
    let mut source = Source {
        entries: Vec::new(heap),
        operands: Vec::new(heap),
        constants: Vec::new(heap),
        overrides: Vec::new(heap),
        names: Vec::new(heap),
        variables: Vec::new(heap),
    };
    source.overrides.extend_from_slice(overrides)?;
    source.names.extend_from_slice(&NAMES)?;
    Ok(source)
}

fn file(heap: Global, settings: &[(&str, f64)]) -> Result<Vec<u8>, Fail> {
    let mut list = Vec::new(heap);
    for (key, value) in settings {
        list.push(Setting {
            key: key.as_bytes(),
            value: *value,
        })?;
    }
    Ok(write(heap, list.as_slice())?)
}

fn refusal(
    heap: Global,
    overrides: &[Override],
    settings: &[(&str, f64)],
) -> Result<Option<Refusal>, Fail> {
    let source = module(heap, overrides)?;
    let bytes = file(heap, settings)?;
    Ok(check_settling(bytes.as_slice(), &source, &SIZES).err())
}

// The values that a file gives, in a table of so many.
fn values(
    heap: Global,
    overrides: &[Override],
    settings: &[(&str, f64)],
    limit: usize,
) -> Result<Table<Valued>, Fail> {
    let source = module(heap, overrides)?;
    let bytes = file(heap, settings)?;
    let mut values = Table::with_limit(heap, limit)?;
    value_overrides(&Settings::read(bytes.as_slice())?, &source, &mut values);
    Ok(values)
}

fn is_given(value: Option<Valued>, given: Result<Literal, ConversionError>) -> bool {
    value.is_some_and(|value| value.given == Some(given))
}

#[test]
fn in_number_order(rt: HostRuntime) -> Result<(), Fail> {
    let heap = rt.alloc();
    let nameless = known(None, None, ScalarKind::Bool, 1);
    let out_of_range = Override {
        init: Some(0),
        ..nameless
    };
    let place = Place {
        table: TableName::Overrides,
        index: 0,
    };
    assert_eq!(rt;
        refusal(heap, &[out_of_range], &[("x", 1.0)])?,
        Some(Refusal::OutOfRange { place })
    );
    assert_eq!(rt;
        refusal(heap, &[nameless], &[("x", 1.0)])?,
        Some(Refusal::NotFound { key: 0 })
    );
    assert_eq!(rt;
        refusal(heap, &[nameless], &[])?,
        Some(Refusal::Nameless { number: 0 })
    );
    Ok(())
}

#[test]
fn file_before_tables(rt: HostRuntime) -> Result<(), Fail> {
    let source = module(rt.alloc(), &[known(None, None, ScalarKind::Bool, 1)])?;
    let refusal = check_settling(&[0, 0, 0], &source, &SIZES).err();
    assert_eq!(rt; refusal, Some(Refusal::MalformedSettings));
    Ok(())
}

#[test]
fn first_untaken_key(rt: HostRuntime) -> Result<(), Fail> {
    let by_name = known(None, ABC, ScalarKind::Bool, 1);
    let settings = [("abc", 1.0), ("x", 1.0), ("y", 1.0)];
    assert_eq!(rt;
        refusal(rt.alloc(), &[by_name], &settings)?,
        Some(Refusal::NotFound { key: 1 })
    );
    Ok(())
}

#[test]
fn id_before_name(rt: HostRuntime) -> Result<(), Fail> {
    let heap = rt.alloc();
    let both = known(Some(7), ABC, ScalarKind::Bool, 1);
    assert_eq!(rt; refusal(heap, &[both], &[("7", 1.0)])?, None);
    assert_eq!(rt;
        refusal(heap, &[both], &[("abc", 1.0)])?,
        Some(Refusal::NotFound { key: 0 })
    );
    Ok(())
}

#[test]
fn one_key_for_two(rt: HostRuntime) -> Result<(), Fail> {
    let heap = rt.alloc();
    let overrides = [
        known(None, SEVEN, ScalarKind::Uint, 4),
        known(None, ABC, ScalarKind::Uint, 4),
        known(Some(7), None, ScalarKind::Float, 8),
    ];
    let settings = [("abc", 2.5), ("7", 3.0)];
    assert_eq!(rt; refusal(heap, &overrides, &settings)?, None);
    let values = values(heap, &overrides, &settings, 3)?;
    assert!(rt; is_given(values.get(0), Ok(Literal::U32(3))));
    assert!(rt; is_given(values.get(1), Ok(Literal::U32(2))));
    assert!(rt; is_given(values.get(2), Ok(Literal::F64(0x4008_0000_0000_0000))));
    Ok(())
}

#[test]
fn no_value_and_no_literal(rt: HostRuntime) -> Result<(), Fail> {
    let heap = rt.alloc();
    let without = Override {
        init: Some(5),
        ..known(None, ABC, ScalarKind::Bool, 1)
    };
    let overrides = [without, known(Some(7), None, ScalarKind::Uint, 8)];
    let all = values(heap, &overrides, &[("7", 3.0)], 2)?;
    assert_eq!(rt;
        all.get(0),
        Some(Valued {
            given: None,
            init: Some(5)
        })
    );
    assert!(rt; is_given(all.get(1), Err(ConversionError::UnsupportedScalar)));
    let one = values(heap, &overrides, &[("7", 3.0)], 1)?;
    assert_eq!(rt; one.len(), 1);
    Ok(())
}
