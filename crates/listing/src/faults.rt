// What is wrong with a line, and which line it is.
ghost use Rattle.std.specs.Prelude.{◌≡◌};
ghost use Rattle.listing.specs.declared.faults.Fault.TheVariants.{OutOfMemory as NoMemory};

use std::alloc::{AllocError, AllocFailed, Global};
use thiserror::Error;

#[derive(Clone, Copy, PartialEq, Eq, Debug, Error)]
pub enum Fault {
    #[error("too few words: an override is its id, name, scalar and init, with - for none")]
    TooFewWords,
    #[error("too many words: an override is its id, name, scalar and init")]
    TooManyWords,
    #[error("the id is neither a number from 0 to 65535 nor -")]
    BadId,
    #[error("no such scalar: bool, i16, u16, i32, u32, f16, f32 or f64, or as sint8 a kind and a width in bytes")]
    BadScalar,
    #[error("the init is neither - nor init and a number below 4294967295")]
    BadInit,
    #[error("no = between a key and its value")]
    NoEquals,
    #[error("no key before the =: the empty key is written \"\"")]
    NoKey,
    #[error("a key with other bytes than plain text, a space at an end or # in front stands in quotes")]
    NotPlain,
    #[error("the key in quotes is not printable text with \\xNN for every other byte")]
    BadQuotes,
    #[error("the value is not a number")]
    BadValue,
    #[error("memory ran out")]
    OutOfMemory,
}

// By hand, since the clause of `read_key_text` names this error.
impl From<AllocError> for Fault {
    ghost from_gives = { λ _ r. r ≡ NoMemory };

    fn from(_e: AllocError) -> Fault {
        Fault::OutOfMemory
    }
}

impl<T: Drop> From<AllocFailed<T>> for Fault {
    ghost from_gives = { λ _ r. r ≡ NoMemory };

    fn from(_e: AllocFailed<T>) -> Fault {
        Fault::OutOfMemory
    }
}

// The first line is 1.
#[derive(Clone, Copy, PartialEq, Eq, Debug, Error)]
#[error("line {line}: {fault}")]
pub struct ListingError {
    pub line: usize,
    pub fault: Fault,
}

// A line that says nothing: it is blank, or a comment.
fn is_skipped(line: &str) -> bool {
    line.trim_start().starts_with('#') || line.trim().is_empty()
}

// What is read of each line that says something and of its number, or the first fault.
pub(crate) fn read_lines<T: Drop, F: Fn(usize, &str) -> Result<T, Fault>>(
    heap: Global,
    text: &str,
    read: F,
) -> Result<Vec<T>, ListingError>
    requires { F.IsAlwaysCallable read }
{
    let mut all = Vec::new(heap);
    for (line, words) in (1..).zip(text.lines()) {
        if !is_skipped(words) {
            read(line, words)
                .and_then(|x| Ok(all.push(x)?))
                .map_err(|fault| ListingError { line, fault })?;
        }
    }
    Ok(all)
}
