ghost use Rattle.std.specs.Prelude.{◌≡◌, Some};
ghost use Rattle.settings.specs.Codes.{code_of, words_of};

use std::error::Error;
use std::fmt;

// Why a settings file, or the overrides of it, are refused.
#[derive(Clone, Copy, PartialEq, Eq, Debug)]
pub enum SettingsError {
    Malformed,
    RepeatedKey { key: usize },
    NotFound { key: usize },
}

impl SettingsError {
    // The refusal's number. An arm each: `as` takes no enum whose variants hold something.
    pub fn code(&self) -> u8
        ensures { result ≡ (code_of self.now).0 }
    {
        match self {
            SettingsError::Malformed => 1,
            SettingsError::RepeatedKey { .. } => 2,
            SettingsError::NotFound { .. } => 6,
        }
    }
}

// By hand, since `output` states the text.
impl fmt::Display for SettingsError {
    ghost output = { λ e. Some (words_of e) };

    fn fmt<W: fmt::Write>(&self, f: &mut fmt::Formatter<W>) -> fmt::Result {
        match self {
            SettingsError::Malformed => write!(
                f,
                "the settings file is short, long or over its limit"
            ),
            SettingsError::RepeatedKey { key } => write!(f, "key {key} is equal to an earlier key"),
            SettingsError::NotFound { key } => write!(f, "no override takes key {key}"),
        }
    }
}

impl Error for SettingsError {}
