// Settings files: the doubles that overrides are given, each under a key.
//
// A file is a count of at most `MOST_SETTINGS`, as two bytes, the lowest first; so many lengths of keys, a byte each;
// the keys, one after the other; and so many doubles, eight bytes each, the lowest first. Nothing follows.
#![tactic(auto)]

mod decimals;
mod error;
mod file;
mod iter;
mod keys;
mod naming;
#[cfg(test)]
mod tests;
mod writing;

pub const MOST_SETTINGS: usize = 4096;

pub const LONGEST_KEY: usize = 255;

pub use decimals::{Decimal, read_decimal};
pub use error::SettingsError;
pub use file::Settings;
pub use iter::Iter;
pub use keys::Keys;
pub use naming::{Identifier, Key, is_taken, read_key, takes};
pub use writing::{Setting, WriteError, write};
