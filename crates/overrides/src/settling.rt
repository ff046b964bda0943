// Whether a settings file and a module can be settled: all that is refused before anything is written.
ghost use Rattle.std.specs.Prelude.{◌≡◌, vec_items};
ghost use Rattle.settings.specs.Reading.{given};
ghost use Rattle.ir.specs.Tables.{global};
ghost use Rattle.overrides.specs.Settling.{CheckedKeys, CheckedSettling, CheckedTables, refusal_of};

use crate::keys::first_untaken;
use ir::{Sizes, Source, check_source};
use refusals::Refusal;
use settings::{Settings, SettingsError};

// A refusal of a settings file among all refusals.
fn refusal_of(error: SettingsError) -> Refusal
    ensures { result ≡ refusal_of error }
{
    match error {
        SettingsError::Malformed => Refusal::MalformedSettings,
        SettingsError::RepeatedKey { key } => Refusal::RepeatedKey { key },
        SettingsError::NotFound { key } => Refusal::NotFound { key },
    }
}

// Accepts if some override takes each key.
fn check_keys(settings: &Settings<'_>, source: &Source) -> Result<(), Refusal>
    ensures { CheckedKeys (vec_items source.now.names) (vec_items source.now.overrides) (given settings.now).keys result }
{
    match first_untaken(settings, &source.overrides, &source.names) {
        Some(key) => Err(Refusal::NotFound { key }),
        None => Ok(()),
    }
}

// The tables and the keys. A table that is at fault is refused before any key is looked at, since names may lie nowhere then; an
// override that takes no key comes after them.
fn check_tables(settings: &Settings<'_>, source: &Source, sizes: &Sizes) -> Result<(), Refusal>
    ensures { CheckedTables (given settings.now).keys (global source.now sizes.now) result }
{
    match check_source(source, sizes) {
        Err(Refusal::Nameless { number }) => {
            check_keys(settings, source)?;
            Err(Refusal::Nameless { number })
        }
        Err(refusal) => Err(refusal),
        Ok(()) => check_keys(settings, source),
    }
}

// The settings of a file for a module: accepted exactly if no refusal applies to either, and else refused with the first that does,
// by number and then by place.
pub fn check_settling<'f>(
    file: &'f [u8],
    source: &Source,
    sizes: &Sizes,
) -> Result<Settings<'f>, Refusal>
    ensures { CheckedSettling file.now (global source.now sizes.now) result }
{
    let settings = Settings::read(file).map_err(refusal_of)?;
    check_tables(&settings, source, sizes)?;
    Ok(settings)
}
