// Why there is no report.
ghost use Rattle.std.specs.Prelude.{◌≡◌};
ghost use Rattle.report.specs.declared.errors.ReportError.TheVariants.{Settings as Unread};

use listing::ListingError;
use settings::{SettingsError, WriteError};
use std::alloc::AllocError;
use std::fmt;
use thiserror::Error;

// Why a text was not read, or not made.
#[derive(Debug, Drop, Error)]
pub enum TextError {
    // A line of a text was not understood.
    #[error(transparent)]
    Listing(#[from] ListingError),
    #[error("memory ran out")]
    OutOfMemory(#[from(alloc)] AllocError),
}

#[derive(Debug, Drop, Error)]
pub enum ReportError {
    // The settings file was refused.
    #[error("refusal {code}, {error}", code = .0.code(), error = .0)]
    Settings(SettingsError),
    #[error(transparent)]
    Text(TextError),
    // The settings of a text make no file; the line is that of the setting which is to blame.
    #[error("{place}{error}", place = Place(*.line))]
    Unwritten {
        line: Option<usize>,
        error: WriteError,
    },
}

// A report is written to a String, which fails only for want of memory.
impl From<fmt::Error> for TextError {
    fn from(_e: fmt::Error) -> TextError {
        TextError::OutOfMemory(AllocError)
    }
}

// By hand, since the clause `Told` names this variant.
impl From<SettingsError> for ReportError {
    ghost from_gives = { λ e r. r ≡ Unread e };

    fn from(error: SettingsError) -> ReportError {
        ReportError::Settings(error)
    }
}

// The line in front of a message, if it is known.
#[derive(Clone, Copy)]
struct Place(Option<usize>);

impl fmt::Display for Place {
    fn fmt<W: fmt::Write>(&self, f: &mut fmt::Formatter<W>) -> fmt::Result {
        match self.0 {
            Some(line) => write!(f, "line {line}: "),
            None => Ok(()),
        }
    }
}
