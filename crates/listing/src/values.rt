// The text of a settings file: a line `key = value` for each setting.
use crate::faults::{Fault, ListingError, read_lines};
use crate::keys::read_key_text;
use std::alloc::Global;
use std::fmt;

#[derive(Drop)]
pub struct SettingLine {
    pub line: usize,
    pub key: Vec<u8>,
    pub value: f64,
}

fn read_setting(heap: Global, line: usize, words: &str) -> Result<SettingLine, Fault> {
    let (key, value) = words.split_once('=').ok_or(Fault::NoEquals)?;
    let key = read_key_text(heap, key.trim().as_bytes())?;
    let value = value.trim().parse::<f64>().map_err(|_| Fault::BadValue)?;
    Ok(SettingLine { line, key, value })
}

pub fn read_settings(heap: Global, text: &str) -> Result<Vec<SettingLine>, ListingError> {
    read_lines(heap, text, |line, words| read_setting(heap, line, words))
}

// A value, shown so that `parse` gives it back: with an exponent where it is very large or small.
#[derive(Clone, Copy)]
pub struct ValueText(pub f64);

impl fmt::Display for ValueText {
    fn fmt<W: fmt::Write>(&self, f: &mut fmt::Formatter<W>) -> fmt::Result {
        let value = self.0;
        let size = value.abs();
        if value.is_finite() && (size >= 1e16 || (size < 1e-4 && size > 0.0)) {
            write!(f, "{value:?}")
        } else {
            write!(f, "{value}")
        }
    }
}
