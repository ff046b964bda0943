ghost use Rattle.std.specs.Prelude.{◌≡◌, map, from_bits};
ghost use Rattle.std.specs.Float.{binary64};
ghost use Rattle.std.specs.Iterator.{YieldsFirstBy, item_count};
ghost use Rattle.settings.specs.Layout.{number_of};
ghost use Rattle.settings.specs.Walks.{keys_left, settings_left, settings_of};

use crate::keys::Keys;
use crate::writing::Setting;
use std::num::f64_from_bits_with_nan;

// The settings of a file, one after the other.
#[derive(Clone, Copy)]
pub struct Iter<'f> {
    pub(crate) keys: Keys<'f>,
    pub(crate) values: &'f [[u8; 8]],
}

impl<'f> Iterator for Iter<'f> {
    type Item = Setting<'f>;

    ghost next_gives = { YieldsFirstBy (λ s. (s.key.now, s.value)) settings_left };

    ghost remaining = { item_count settings_left };

    fn next(&mut self) -> Option<Setting<'f>> {
        let key = self.keys.next()?;
        let value = double_of(self.values.split_off_first()?);
        Some(Setting { key, value })
    }
}

// The double of eight bytes, the lowest first.
pub(crate) fn double_of(bytes: &[u8; 8]) -> f64
    ensures { result ≡ from_bits binary64 (number_of bytes.now) }
{
    f64_from_bits_with_nan(u64::from_le_bytes(*bytes))
}
