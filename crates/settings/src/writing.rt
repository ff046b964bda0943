ghost use Rattle.std.specs.Prelude.{◌≡◌, ◌^◌, ◌<◌, ◌≤◌, ◌++◌, map, length, IfOk, IfErr, Some, None, OnOk, from_bits, to_bits};
ghost use Rattle.std.specs.Float.{binary64};
ghost use Rattle.std.specs.List.{flat_map, AllByRecursion};
ghost use Rattle.settings.specs.First.{Least};
ghost use Rattle.settings.specs.Layout.{Distinct, Encodes, bytes_of, encode};
ghost use Rattle.settings.specs.Written.{keys_of, value_bits_of, given_by, TooLong, Refused, Restored, ValuesBack, ReadsBack, write_words};

use crate::keys::{KeysOf, first_repeated};
use crate::{LONGEST_KEY, MOST_SETTINGS};
use std::alloc::{AllocError, Global};
use std::error::Error;
use std::fmt;
use std::num::f64_to_bits_with_nan;

// What a file says under one key.
#[derive(Clone, Copy)]
pub struct Setting<'k> {
    pub key: &'k [u8],
    pub value: f64,
}

// Why settings are not written.
#[derive(Clone, Copy, PartialEq, Eq, Debug)]
pub enum WriteError {
    TooManySettings,
    KeyTooLong { key: usize },
    RepeatedKey { key: usize },
    OutOfMemory,
}

// By hand, since `output` states the text.
impl fmt::Display for WriteError {
    ghost output = { λ e. Some (write_words e) };

    fn fmt<W: fmt::Write>(&self, f: &mut fmt::Formatter<W>) -> fmt::Result {
        match self {
            WriteError::TooManySettings => write!(f, "there are more than 4096 settings"),
            WriteError::KeyTooLong { key } => write!(f, "key {key} has more than 255 bytes"),
            WriteError::RepeatedKey { key } => write!(f, "key {key} is equal to an earlier key"),
            WriteError::OutOfMemory => write!(
                f,
                "there is not enough memory for the settings file"
            ),
        }
    }
}

impl Error for WriteError {}

// The settings file of these settings.
pub fn write(heap: Global, settings: &[Setting<'_>]) -> Result<Vec<u8>, WriteError>
    ensures encodes { IfOk result (λ v. Encodes v.items (given_by settings.now)) }
    ensures distinct { IfOk result (λ v. Distinct (keys_of settings.now)) }
    ensures values_back { IfOk result (λ v. ValuesBack settings.now) }
    ensures reads_back { IfOk result (λ v. ReadsBack v.items (given_by settings.now)) }
    ensures refuses { IfErr result (Refused settings.now) }
{
    if settings.len() > MOST_SETTINGS {
        return Err(WriteError::TooManySettings);
    }
    if let Some(key) = first_too_long(settings) {
        return Err(WriteError::KeyTooLong { key });
    }
    if let Some(key) = first_repeated(KeysOf { settings }) {
        return Err(WriteError::RepeatedKey { key });
    }
    encoded(heap, settings).map_err(|_| WriteError::OutOfMemory)
}

// The first key that is too long for its length to be a byte.
fn first_too_long(settings: &[Setting<'_>]) -> Option<usize>
    ensures { Least (TooLong (keys_of settings.now)) result }
{
    settings
        .iter()
        .map(|setting| setting.key)
        .position(|key| key.len() > LONGEST_KEY)
}

fn encoded(heap: Global, settings: &[Setting<'_>]) -> Result<Vec<u8>, AllocError>
    requires few { length settings.now ≤ 4096 }
    requires short { Least (TooLong (keys_of settings.now)) None }
    ensures bytes { IfOk result (λ v. v.items ≡ encode (given_by settings.now)) }
    ensures doubles { IfOk result (λ v. AllByRecursion (λ b. b < 2 ^ 64) (value_bits_of settings.now)) }
    ensures restored { IfOk result (λ v. AllByRecursion Restored settings.now) }
{
    let mut file = Vec::new(heap);
    file.extend_from_slice(&(settings.len() as u16).to_le_bytes())?;
    push_lengths(&mut file, settings)?;
    push_keys(&mut file, settings)?;
    push_values(&mut file, settings)?;
    Ok(file)
}

fn push_lengths(file: &mut Vec<u8>, settings: &[Setting<'_>]) -> Result<(), AllocError>
    requires { Least (TooLong (keys_of settings.now)) None }
    ensures { OnOk result (file.new.items ≡ file.old.items ++ map length (keys_of settings.now)) }
{
    // A loop: of `try_for_each` the check found neither that the cast fits nor what the calls leave in the file.
    for setting in settings {
        file.push(setting.key.len() as u8)?;
    }
    Ok(())
}

fn push_keys(file: &mut Vec<u8>, settings: &[Setting<'_>]) -> Result<(), AllocError>
    ensures { OnOk result (file.new.items ≡ file.old.items ++ flat_map (λ k. k) (keys_of settings.now)) }
{
    // A loop: of `try_for_each` the check did not find what the calls leave in the file.
    for setting in settings {
        file.extend_from_slice(setting.key)?;
    }
    Ok(())
}

// The bits of a double, which stand for no other.
fn bits_of(value: f64) -> u64
    ensures bits { result ≡ to_bits binary64 value }
    ensures back { from_bits binary64 (to_bits binary64 value) ≡ value }
{
    f64_to_bits_with_nan(value)
}

fn push_values(file: &mut Vec<u8>, settings: &[Setting<'_>]) -> Result<(), AllocError>
    ensures bytes { OnOk result (file.new.items ≡ file.old.items ++ flat_map (bytes_of 8) (value_bits_of settings.now)) }
    ensures doubles { OnOk result (AllByRecursion (λ b. b < 2 ^ 64) (value_bits_of settings.now)) }
    ensures restored { OnOk result (AllByRecursion Restored settings.now) }
{
    // A loop, for the same reason.
    for setting in settings {
        file.extend_from_slice(&bits_of(setting.value).to_le_bytes())?;
    }
    Ok(())
}
