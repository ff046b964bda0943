// A key with its value, as a report names them.
use listing::{ValueText, key_text};
use settings::Settings;
use std::alloc::{AllocError, Global};
use std::fmt::Write;

// The key and the value at `i`.
pub fn put_setting(
    out: &mut String,
    heap: Global,
    i: usize,
    key: &[u8],
    value: f64,
) -> Result<(), AllocError> {
    let key = key_text(heap, key)?;
    let value = ValueText(value);
    write!(out, "key {i} `{key}` = {value}")
}

// The setting whose key an override takes.
pub fn put_taken(
    out: &mut String,
    heap: Global,
    settings: &Settings<'_>,
    i: usize,
    value: f64,
) -> Result<(), AllocError> {
    match settings.key(i) {
        Some(key) => put_setting(out, heap, i, key, value),
        None => write!(out, "key {i} = {}", ValueText(value)),
    }
}
