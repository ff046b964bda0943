use crate::errors::ReportError;
use crate::literals::report_literals;
use crate::packing::{pack, unpack};
use crate::shown::half_value;
use rounding::ConversionError;
use settings::{SettingsError, WriteError};
use std::alloc::Global;
use std::test::Fail;

// The report on a text of settings and a text of overrides.
fn reported(heap: Global, settings: &str, overrides: &str) -> Result<String, Fail> {
    let packed = pack(heap, settings)?;
    let report = report_literals(heap, packed.bytes.as_slice(), overrides)?;
    Ok(report.text.clone()?)
}

// What is said where nothing was made.
fn error_of<T: Drop>(heap: Global, made: Result<T, ReportError>) -> Result<String, Fail> {
    match made {
        Ok(_) => Err(Fail::new("made")),
        Err(error) => Ok(format!(in heap; "{error}")?),
    }
}

#[test]
fn values_are_refused(rt: HostRuntime) -> Result<(), Fail> {
    let heap = rt.alloc();
    let overrides = "- a i32 -\n- b u16 init 5\n- c sint8 -\n";
    let said = reported(heap, "a = inf\nb = 70000\nc = 1\n", overrides)?;
    let finite = ConversionError::SrcNeedsToBeFinite;
    let range = ConversionError::DstRangeTooSmall;
    let scalar = ConversionError::UnsupportedScalar;
    let expected = format!(in heap;
        "override 0, name a, i32: key 0 `a` = inf, refusal 9, {finite}
override 1, name b, u16: key 1 `b` = 70000, refusal 10, {range}
override 2, name c, sint8: key 2 `c` = 1, refusal 11, {scalar}
3 overrides: 0 literals made, 0 inits kept, 3 refused; 0 keys not taken
"
    )?;
    assert_eq!(rt; said.as_str(), expected.as_str());
    Ok(())
}

#[test]
fn overrides_and_keys_are_refused(rt: HostRuntime) -> Result<(), Fail> {
    let heap = rt.alloc();
    let overrides = "7 a bool -\n- - u32 init 1\n- b f64 -\n- c f64 init 9\n";
    let said = reported(heap, "7 = NaN\na = 2\n07 = 3\n", overrides)?;
    let expected = "override 0, id 7, name a, bool: key 0 `7` = NaN, literal bool false, bits 0x0
override 1, u32: refusal 7, the override has neither an id nor a name
override 2, name b, f64: no value and no init, refusal 8, a value is missing
override 3, name c, f64: no value, init 9 kept
key 1 `a` = 2, refusal 6, no override takes it
key 2 `07` = 3, refusal 6, no override takes it
4 overrides: 1 literal made, 1 init kept, 2 refused; 2 keys not taken
";
    assert_eq!(rt; said.as_str(), expected);
    Ok(())
}

#[test]
fn files_are_refused(rt: HostRuntime) -> Result<(), Fail> {
    let heap = rt.alloc();
    let malformed = SettingsError::Malformed;
    let said = error_of(heap, report_literals(heap, b"\x01\x00", ""))?;
    assert_eq!(rt;
        said.as_str(),
        format!(in heap; "refusal 1, {malformed}")?.as_str()
    );
    let repeated = SettingsError::RepeatedKey { key: 1 };
    let said = error_of(
        heap,
        report_literals(heap, b"\x02\x00\x01\x01aa0000000011111111", ""),
    )?;
    assert_eq!(rt;
        said.as_str(),
        format!(in heap; "refusal 2, {repeated}")?.as_str()
    );
    Ok(())
}

#[test]
fn lines_of_overrides_are_refused(rt: HostRuntime) -> Result<(), Fail> {
    let heap = rt.alloc();
    let cases = [
        (
            "- a i32 -\n\n# x\n5 a i32\n",
            "line 4: too few words: an override is its id, name, scalar and init, with - for none",
        ),
        (
            "- a i32 init 1 2",
            "line 1: too many words: an override is its id, name, scalar and init",
        ),
        (
            "65536 a i32 -",
            "line 1: the id is neither a number from 0 to 65535 nor -",
        ),
        (
            "+5 a i32 -",
            "line 1: the id is neither a number from 0 to 65535 nor -",
        ),
        (
            "- a sint4 -",
            "line 1: no such scalar: bool, i16, u16, i32, u32, f16, f32 or f64, or as sint8 a kind and a width in bytes",
        ),
        (
            "- a i32 init 4294967295",
            "line 1: the init is neither - nor init and a number below 4294967295",
        ),
    ];
    for (text, expected) in cases {
        let said = error_of(heap, report_literals(heap, b"\x00\x00", text))?;
        assert_eq!(rt; said.as_str(), expected);
    }
    Ok(())
}

#[test]
fn lines_of_settings_are_refused(rt: HostRuntime) -> Result<(), Fail> {
    let heap = rt.alloc();
    let cases = [
        ("a = 1\nb 2", "line 2: no = between a key and its value"),
        (
            " = 2",
            "line 1: no key before the =: the empty key is written \"\"",
        ),
        (
            "\"\\xg0\" = 2",
            "line 1: the key in quotes is not printable text with \\xNN for every other byte",
        ),
        ("a = 1.2.3", "line 1: the value is not a number"),
    ];
    for (text, expected) in cases {
        let said = error_of(heap, pack(heap, text))?;
        assert_eq!(rt; said.as_str(), expected);
    }
    let repeated = WriteError::RepeatedKey { key: 1 };
    let said = error_of(heap, pack(heap, "# two lines\n\na = 1\n\"a\" = 2\n"))?;
    assert_eq!(rt;
        said.as_str(),
        format!(in heap; "line 4: {repeated}")?.as_str()
    );
    Ok(())
}

#[test]
fn texts_come_back(rt: HostRuntime) -> Result<(), Fail> {
    let heap = rt.alloc();
    let text = "\"\" = 1
ring size = -0.5
\"\\x3d\\x22\\x5c \\xff\\x00\" = NaN
\"#a\" = -inf
\" a\" = -0
b\\x = 1e300
c = 5e-324
";
    let packed = pack(heap, text)?;
    let said = unpack(heap, packed.bytes.as_slice())?;
    assert_eq!(rt; said.as_str(), text);
    let again = pack(heap, said.as_str())?;
    assert_eq!(rt; again.bytes.as_slice(), packed.bytes.as_slice());
    Ok(())
}

#[test]
fn halves(rt: HostRuntime) {
    assert_eq!(rt; half_value(0x3c00), 1.0);
    assert_eq!(rt; half_value(0x0001), 5.960464477539063e-8);
    assert_eq!(rt; half_value(0xfbff), -65504.0);
    assert_eq!(rt; half_value(0x2e66), 0.0999755859375);
    assert_eq!(rt; half_value(0x7c00), f64::INFINITY);
}

#[test]
fn halves_are_shown(rt: HostRuntime) -> Result<(), Fail> {
    let heap = rt.alloc();
    let settings = "a = 1\nb = 5.960464477539063e-8\nc = -65504\nd = 0.1\n";
    let overrides = "- a f16 -\n- b f16 -\n- c f16 -\n- d f16 -\n";
    let said = reported(heap, settings, overrides)?;
    let expected = "override 0, name a, f16: key 0 `a` = 1, literal f16 1, bits 0x3c00
override 1, name b, f16: key 1 `b` = 5.960464477539063e-8, literal f16 5.960464477539063e-8, bits 0x0001
override 2, name c, f16: key 2 `c` = -65504, literal f16 -65504, bits 0xfbff
override 3, name d, f16: key 3 `d` = 0.1, literal f16 0.0999755859375, bits 0x2e66
4 overrides: 4 literals made, 0 inits kept, 0 refused; 0 keys not taken
";
    assert_eq!(rt; said.as_str(), expected);
    Ok(())
}
