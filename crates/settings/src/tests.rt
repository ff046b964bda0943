use super::*;
use std::test::Fail;

// One key, "a", with the value 1.
const FILE: [u8; 12] = [1, 0, 1, b'a', 0, 0, 0, 0, 0, 0, 0xf0, 0x3f];

fn is_number(bytes: &[u8], number: u16) -> bool {
    matches!(read_key(bytes), Key::Number(n) if n == number)
}

fn refusal(file: &[u8]) -> Option<SettingsError> {
    Settings::read(file).err()
}

#[test]
fn numbers(rt: HostRuntime) {
    assert!(rt; is_number(b"0", 0));
    assert!(rt; is_number(b"7", 7));
    assert!(rt; is_number(b"65535", 65535));
}

#[test]
fn decimals(rt: HostRuntime) {
    assert_eq!(rt; read_decimal::<u8>("255"), Some(255));
    assert_eq!(rt; read_decimal::<u8>("256"), None);
    assert_eq!(rt; read_decimal::<u16>("256"), Some(256));
    assert_eq!(rt; read_decimal::<u32>("4294967295"), Some(4294967295));
    for word in ["", "+7", "07", "-1", "1 "] {
        assert_eq!(rt; read_decimal::<u32>(word), None);
    }
}

#[test]
fn names(rt: HostRuntime) {
    for name in ["", "007", "+7", "65536"] {
        assert!(rt; matches!(read_key(name.as_bytes()), Key::Name(_)));
    }
}

#[test]
fn one_setting(rt: HostRuntime) -> Result<(), Fail> {
    let settings = Settings::read(&FILE)?;
    let by_name = Identifier {
        id: None,
        name: Some(b"a"),
    };
    let by_id = Identifier {
        id: Some(7),
        name: Some(b"a"),
    };
    assert_eq!(rt; settings.len(), 1);
    assert_eq!(rt; settings.value_for(by_name), Some(1.0));
    assert_eq!(rt; settings.value_for(by_id), None);
    assert_eq!(rt; settings.every_key_taken(&[by_id, by_name]), Ok(()));
    assert_eq!(rt;
        settings.every_key_taken(&[by_id]),
        Err(SettingsError::NotFound { key: 0 })
    );
    Ok(())
}

#[test]
fn settings_in_order(rt: HostRuntime) -> Result<(), Fail> {
    let file = write(
        rt.alloc(),
        &[
            Setting {
                key: b"a",
                value: 1.0,
            },
            Setting {
                key: b"bc",
                value: -2.5,
            },
        ],
    )?;
    let mut settings = Settings::read(file.as_slice())?.iter();
    for (key, value) in [("a", 1.0), ("bc", -2.5)] {
        let setting = settings.next().expect(&rt, "a setting");
        assert_eq!(rt; setting.key, key.as_bytes());
        assert_eq!(rt; setting.value, value);
    }
    assert!(rt; settings.next().is_none());
    Ok(())
}

#[test]
fn short_and_long(rt: HostRuntime) {
    assert_eq!(rt; refusal(&[]), Some(SettingsError::Malformed));
    assert_eq!(rt; refusal(&FILE[0..11]), Some(SettingsError::Malformed));
    assert_eq!(rt; refusal(&[0, 0, 0]), Some(SettingsError::Malformed));
    assert_eq!(rt;
        refusal(&[2, 0, 0, 0, 0, 0, 0, 0, 0, 0, 0, 0, 0, 0, 0, 0, 0, 0, 0, 0]),
        Some(SettingsError::RepeatedKey { key: 1 })
    );
}

#[test]
fn written_and_read(rt: HostRuntime) -> Result<(), Fail> {
    let file = write(
        rt.alloc(),
        &[Setting {
            key: b"a",
            value: 1.0,
        }],
    )?;
    assert_eq!(rt; file.as_slice(), &FILE[0..12]);
    Ok(())
}
