// What is wrong with a line of a list, and which line it is.
use std::alloc::{AllocError, AllocFailed};
use thiserror::Error;

#[derive(Clone, Copy, PartialEq, Eq, Debug, Error)]
pub enum Fault {
    #[error("no such line here")]
    OutOfPlace,
    #[error("the number of the case is not the next")]
    WrongNumber,
    #[error("the list has another number of cases")]
    WrongCount,
    #[error("the list ends before its last line, `cases` and their number")]
    EndsTooSoon,
    #[error("something that stands in a case once is missing or repeated")]
    NotOnce,
    #[error("an entry is not a kind, four words, / START END / and operands")]
    BadEntry,
    #[error("an override is not id, name, kind, width and init")]
    BadOverride,
    #[error("the sizes are not five numbers, / and five handles")]
    BadSizes,
    #[error("a setting is not a key of up to 255 bytes and 16 hexadecimal digits, or there are more than 65535")]
    BadSetting,
    #[error("no such pile")]
    BadPile,
    #[error("no such outcome")]
    BadOutcome,
    #[error("a kind of a finished entry is not C")]
    BadKinds,
    #[error("neither a number up to 4294967295 nor, where there may be none, -")]
    BadNumber,
    #[error("a name is neither ' and its characters nor x and pairs of hexadecimal digits")]
    BadName,
    #[error("a list is longer than 4294967295")]
    TooLong,
    #[error("memory ran out")]
    OutOfMemory,
}

impl From<AllocError> for Fault {
    fn from(_e: AllocError) -> Fault {
        Fault::OutOfMemory
    }
}

impl<T: Drop> From<AllocFailed<T>> for Fault {
    fn from(_e: AllocFailed<T>) -> Fault {
        Fault::OutOfMemory
    }
}

// The first line is 1.
#[derive(Clone, Copy, PartialEq, Eq, Debug, Error)]
#[error("line {line}: {fault}")]
pub struct ListError {
    pub line: u64,
    pub fault: Fault,
}
