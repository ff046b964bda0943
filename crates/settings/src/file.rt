ghost use Rattle.std.specs.Prelude.{◌≡◌, ℕ, ◌*◌, ◌≤◌, List, length, Some, sum, Option};
ghost use Rattle.settings.specs.First.{Least, Holds};
ghost use Rattle.settings.specs.Layout.{Distinct};
ghost use Rattle.settings.specs.Keys.{Takes};
ghost use Rattle.settings.specs.Walks.{keys_left, settings_left, settings_of};
ghost use Rattle.settings.specs.Reading.{given, CutInto, Read, KeyAt, Only, value_at, AllTaken};

use crate::MOST_SETTINGS;
use crate::error::SettingsError;
use crate::iter::{Iter, double_of};
use crate::keys::{Keys, first_repeated};
use crate::naming::{Identifier, is_taken, takes};

// A settings file that was read, as parts of its bytes.
// No model: it is `Copy`, and lists of settings do not give its parts back.
#[derive(Clone, Copy)]
pub struct Settings<'f> {
    keys: Keys<'f>,
    values: &'f [[u8; 8]],
}

impl<'f> Settings<'f> {
    // The settings of a file in which no key is repeated.
    pub fn read(file: &'f [u8]) -> Result<Settings<'f>, SettingsError>
        ensures { Read file.now result }
    {
        let settings = Settings::cut(file).ok_or(SettingsError::Malformed)?;
        match first_repeated(settings.keys) {
            Some(key) => Err(SettingsError::RepeatedKey { key }),
            None => Ok(settings),
        }
    }

    // The parts of a file that is neither short, long nor over its limit.
    fn cut(file: &'f [u8]) -> Option<Settings<'f>>
        ensures { CutInto file.now result }
    {
        let (head, rest) = file.split_first_chunk()?;
        let count = usize::from(u16::from_le_bytes(*head));
        if count > MOST_SETTINGS {
            return None;
        }
        let (lengths, rest) = rest.split_at_checked(count)?;
        let (bytes, rest) = rest.split_at_checked(total(lengths))?;
        if rest.len() != 8 * count {
            return None;
        }
        let (values, _) = rest.as_chunks();
        Some(Settings {
            keys: Keys { lengths, bytes },
            values,
        })
    }

    // The number of keys.
    pub fn len(&self) -> usize
        ensures { result ≡ length (given self.now).keys }
    {
        self.keys.lengths.len()
    }

    // The keys, in order.
    pub fn keys(&self) -> Keys<'f>
        ensures { keys_left result ≡ (given self.now).keys }
    {
        self.keys
    }

    // The key at `i`.
    pub fn key(&self, i: usize) -> Option<&'f [u8]>
        ensures { KeyAt (given self.now).keys i result }
    {
        self.keys().nth(i)
    }

    // The value beside the key at `i`.
    pub fn value(&self, i: usize) -> Option<f64>
        ensures { result ≡ value_at (given self.now) (Some i) }
    {
        self.values.get(i).map(double_of)
    }

    // The settings, in order.
    pub fn iter(&self) -> Iter<'f>
        ensures { settings_left result ≡ settings_of (given self.now) }
    {
        Iter {
            keys: self.keys,
            values: self.values,
        }
    }

    // The key that an override takes.
    // From the front: a map would need memory, and this call cannot fail.
    pub fn find(&self, who: Identifier<'_>) -> Option<usize>
        ensures first { Least (Holds (Takes who.entry) (given self.now).keys) result }
        ensures only { Distinct (given self.now).keys → Only (Holds (Takes who.entry) (given self.now).keys) result }
    {
        self.keys().position(|key| takes(who, key))
    }

    // The value beside the key that an override takes.
    pub fn value_for(&self, who: Identifier<'_>) -> Option<f64>
        ensures { (k : Option ℕ) × Least (Holds (Takes who.entry) (given self.now).keys) k × (result ≡ value_at (given self.now) k) }
    {
        self.value(self.find(who)?)
    }

    // Accepts if some override takes each key, and refuses with the first key that none takes.
    pub fn every_key_taken(&self, overrides: &[Identifier<'_>]) -> Result<(), SettingsError>
        ensures { AllTaken (given self.now).keys overrides.now result }
    {
        match self.keys().position(|key| !is_taken(key, overrides)) {
            Some(key) => Err(SettingsError::NotFound { key }),
            None => Ok(()),
        }
    }
}

// The number of bytes of keys with these lengths.
fn total(lengths: &[u8]) -> usize
    requires { length lengths.now ≤ 4096 }
    ensures { result ≡ sum lengths.now }
{
    lengths.iter().map(|length| usize::from(*length)).sum()
}
