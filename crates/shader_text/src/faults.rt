// What is wrong with a line of a listing, and which line it is.
ghost use Rattle.std.specs.Prelude.{◌≡◌};
ghost use Rattle.shader_text.specs.declared.faults.Fault.TheVariants.{OutOfMemory as NoMemory};

use std::alloc::{AllocError, AllocFailed};
use thiserror::Error;

#[derive(Clone, Copy, PartialEq, Eq, Debug, Error)]
pub enum Fault {
    #[error("no such item: global, constant, override, variable, size, names, body, entry, record, local, named, or the operands of a list, as global-operands")]
    NoSuchItem,
    #[error("it belongs to a body, and no body is begun")]
    NoBody,
    #[error("too few words")]
    TooFewWords,
    #[error("too many words")]
    TooManyWords,
    #[error("the kind is neither the name of one nor a number from 0 to 255")]
    BadKind,
    #[error("after a kind stand up to four numbers, then : and operands or @AT+LEN, then / and START..END")]
    BadWord,
    #[error("an operand or a handle is neither a number below 4294967295 nor -")]
    BadHandle,
    #[error("the init is neither - nor a number up to 4294967295")]
    BadInit,
    #[error("a run is not @AT+LEN, two numbers up to 4294967295")]
    BadRun,
    #[error("a span is not START..END, two numbers up to 4294967295")]
    BadSpan,
    #[error("the id is neither a number from 0 to 65535 nor -")]
    BadId,
    #[error("no such scalar: bool, i16, u16, i32, u32, f16, f32 or f64, or as sint8 a kind and a width in bytes")]
    BadScalar,
    #[error("the init of an override is neither - nor init and a number up to 4294967295")]
    BadOverrideInit,
    #[error("a name in quotes is not printable text with \\xNN for every other byte, for a space, \" and \\")]
    BadQuotes,
    #[error("no such size: x, y, z, vertices or primitives")]
    NoSuchSize,
    #[error("the value of a size is no number up to 4294967295")]
    BadValue,
    #[error("a size is given twice")]
    RepeatedSize,
    #[error("a list is longer than 4294967295")]
    TooLong,
    #[error("memory ran out")]
    OutOfMemory,
}

// By hand, since the clause of `read_name_text` names this error.
impl From<AllocError> for Fault {
    ghost from_gives = { λ _ r. r ≡ NoMemory };

    fn from(_e: AllocError) -> Fault {
        Fault::OutOfMemory
    }
}

impl<T: Drop> From<AllocFailed<T>> for Fault {
    ghost from_gives = { λ _ r. r ≡ NoMemory };

    fn from(_e: AllocFailed<T>) -> Fault {
        Fault::OutOfMemory
    }
}

// The first line is 1.
#[derive(Clone, Copy, PartialEq, Eq, Debug, Error)]
#[error("line {line}: {fault}")]
pub struct ShaderError {
    pub line: usize,
    pub fault: Fault,
}
