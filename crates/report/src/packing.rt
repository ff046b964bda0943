// A settings file from its text, and its text from a settings file.
ghost use Rattle.std.specs.Prelude.{IfOk};
ghost use Rattle.report.specs.Outcomes.{Told, Packs};

use crate::errors::{ReportError, TextError};
use crate::shown::Many;
use listing::{SettingLine, ValueText, key_text, read_settings};
use settings::{Setting, Settings, WriteError};
use std::alloc::{AllocError, Global};
use std::fmt;
use std::fmt::Write;

#[derive(Drop)]
pub struct Packed {
    pub settings: usize,
    pub bytes: Vec<u8>,
}

impl fmt::Display for Packed {
    fn fmt<W: fmt::Write>(&self, f: &mut fmt::Formatter<W>) -> fmt::Result {
        let settings = Many(self.settings, "setting", "settings");
        let bytes = Many(self.bytes.len(), "byte", "bytes");
        write!(f, "{settings}, {bytes}")
    }
}

// The line of the setting that is to blame.
fn blamed(lines: &[SettingLine], error: &WriteError) -> Option<usize> {
    match error {
        WriteError::KeyTooLong { key } | WriteError::RepeatedKey { key } => lines
            .get(*key)
            .map(|line| line.line),
        _ => None,
    }
}

fn lent(heap: Global, lines: &[SettingLine]) -> Result<Vec<Setting<'_>>, AllocError> {
    lines
        .iter()
        .map(|line| Setting {
            key: line.key.as_slice(),
            value: line.value,
        })
        .collect(heap)
}

// The settings file of a text.
pub fn pack(heap: Global, text: &str) -> Result<Packed, ReportError>
    ensures { IfOk result (λ p. Packs p.bytes.items p.settings) }
{
    let lines = read_settings(heap, text).map_err(|error| ReportError::Text(error.into()))?;
    let all = lent(heap, lines.as_slice()).map_err(|error| ReportError::Text(error.into()))?;
    let bytes = settings::write(heap, all.as_slice()).map_err(|error| ReportError::Unwritten {
        line: blamed(lines.as_slice(), &error),
        error,
    })?;
    Ok(Packed {
        settings: all.len(),
        bytes,
    })
}

fn settings_text(heap: Global, settings: &Settings<'_>) -> Result<String, TextError> {
    let mut out = String::new(heap);
    for Setting { key, value } in settings.iter() {
        let key = key_text(heap, key)?;
        let value = ValueText(value);
        writeln!(out, "{key} = {value}")?;
    }
    Ok(out)
}

// A line `key = value` for each setting, which `pack` reads.
pub fn unpack(heap: Global, file: &[u8]) -> Result<String, ReportError>
    ensures { Told file.now result }
{
    let settings = Settings::read(file)?;
    settings_text(heap, &settings).map_err(ReportError::Text)
}
