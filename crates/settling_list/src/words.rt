// The words of a list.
ghost use Rattle.std.specs.Prelude.{◌<◌, IfSome};

use crate::faults::Fault;
use arena::{ABSENT, Handle};
use settings::read_decimal;
use std::alloc::Global;

pub(crate) fn read_number(word: &str) -> Result<u32, Fault> {
    read_decimal(word).ok_or(Fault::BadNumber)
}

pub(crate) fn read_byte(word: &str) -> Result<u8, Fault> {
    read_decimal(word).ok_or(Fault::BadNumber)
}

// A handle where none is written -. The number of the absent handle is not written.
pub(crate) fn read_handle(word: &str) -> Result<Handle, Fault> {
    if word == "-" {
        return Ok(ABSENT);
    }
    let handle = read_number(word)?;
    if handle == ABSENT {
        return Err(Fault::BadNumber);
    }
    Ok(handle)
}

pub(crate) fn read_init(word: &str) -> Result<Option<Handle>, Fault> {
    let handle = read_handle(word)?;
    Ok((handle != ABSENT).then_some(handle))
}

pub(crate) fn push_numbers(numbers: &mut Vec<u32>, words: &[&str]) -> Result<(), Fault> {
    for word in words {
        numbers.push(read_number(word)?)?;
    }
    Ok(())
}

pub(crate) fn push_handles(handles: &mut Vec<Handle>, words: &[&str]) -> Result<(), Fault> {
    for word in words {
        handles.push(read_handle(word)?)?;
    }
    Ok(())
}

pub(crate) fn push_inits(inits: &mut Vec<Option<Handle>>, words: &[&str]) -> Result<(), Fault> {
    for word in words {
        inits.push(read_init(word)?)?;
    }
    Ok(())
}

// Five numbers, the sizes in the order of their places.
pub(crate) fn read_five(words: &[&str]) -> Result<[u32; 5], Fault> {
    match words {
        [x, y, z, vertices, primitives] => Ok([
            read_number(x)?,
            read_number(y)?,
            read_number(z)?,
            read_number(vertices)?,
            read_number(primitives)?,
        ]),
        _ => Err(Fault::BadSizes),
    }
}

// What a hexadecimal digit in small letters stands for.
fn digit(byte: u8) -> Option<u8>
    ensures { IfSome result (λ d. d < 16) }
{
    match byte {
        b'0'..=b'9' => Some(byte - b'0'),
        b'a'..=b'f' => Some(byte - b'a' + 10),
        _ => None,
    }
}

// The byte that two hexadecimal digits stand for.
fn read_pair(pair: &[u8]) -> Option<u8> {
    match pair {
        [high, low] => Some(16 * digit(*high)? + digit(*low)?),
        _ => None,
    }
}

fn push_pairs(bytes: &mut Vec<u8>, digits: &[u8]) -> Result<(), Fault> {
    for pair in digits.chunks(2) {
        bytes.push(read_pair(pair).ok_or(Fault::BadName)?)?;
    }
    Ok(())
}

// The bytes of a name, at the end of others. Gives how many they are.
pub(crate) fn push_name(bytes: &mut Vec<u8>, word: &str) -> Result<usize, Fault> {
    let before = bytes.len();
    match word.as_bytes() {
        [b'\'', plain @ ..] => bytes.extend_from_slice(plain)?,
        [b'x', digits @ ..] => push_pairs(bytes, digits)?,
        _ => return Err(Fault::BadName),
    }
    Ok(bytes.len().saturating_sub(before))
}

// The bits that 16 hexadecimal digits stand for.
pub(crate) fn read_bits(word: &str) -> Option<u64> {
    if word.len() != 16 || !word.bytes().all(|byte| digit(byte).is_some()) {
        return None;
    }
    u64::from_str_radix(word, 16).ok()
}

// The words of a line.
pub(crate) fn split<'l>(heap: Global, line: &'l str) -> Result<Vec<&'l str>, Fault> {
    Ok(line.split_whitespace().collect(heap)?)
}
