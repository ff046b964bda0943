// What becomes of an override under a settings file, and how often each thing happened.
ghost use Rattle.std.specs.Prelude.{◌≡◌, ◌+◌, min, MatchOption};
ghost use Rattle.settings.specs.Reading.{given};
ghost use Rattle.report.specs.Outcomes.{TakesValue, NoValue, Resolved, refusal_code, counted, more};

use rounding::{ConversionError, Literal, Scalar, map_value_to_literal};
use settings::{Identifier, Settings};
use thiserror::Error;

#[derive(Clone, Copy, PartialEq, Debug)]
pub enum Outcome {
    // The value of the key became a literal.
    Made {
        key: usize,
        value: f64,
        literal: Literal,
    },
    // No key gives a value, and the init stays.
    Kept {
        init: u32,
    },
}

// Why an override is refused.
#[derive(Clone, Copy, PartialEq, Debug, Error)]
pub enum Unresolved {
    // The value of the key makes no literal.
    #[error("{error}")]
    Refused {
        key: usize,
        value: f64,
        error: ConversionError,
    },
    // No key gives a value, and there is no init.
    #[error("a value is missing")]
    MissingValue,
    #[error("the override has neither an id nor a name")]
    NoIdentifier,
}

impl Unresolved {
    // The refusal's number. An arm each: `as` takes no enum whose variants hold something.
    pub fn code(&self) -> u8
        ensures { result ≡ refusal_code self.now }
    {
        match self {
            Unresolved::Refused { error, .. } => error.code(),
            Unresolved::MissingValue => 8,
            Unresolved::NoIdentifier => 7,
        }
    }
}

// The key that an override takes, and its value.
fn taken(settings: &Settings<'_>, who: Identifier<'_>) -> Option<(usize, f64)>
    ensures { MatchOption result (NoValue (given settings.now) who.entry) (λ x. TakesValue (given settings.now) who.entry x.0 x.1) }
{
    let key = settings.find(who)?;
    let value = settings.value(key)?;
    Some((key, value))
}

// What becomes of the override that is known so, has this scalar type and this init.
pub fn resolve(
    settings: &Settings<'_>,
    who: Identifier<'_>,
    scalar: Scalar,
    init: Option<u32>,
) -> Result<Outcome, Unresolved>
    ensures { Resolved (given settings.now) who.entry scalar init result }
{
    if who.id.is_none() && who.name.is_none() {
        return Err(Unresolved::NoIdentifier);
    }
    let Some((key, value)) = taken(settings, who) else {
        let kept = init.map(|init| Outcome::Kept { init });
        return kept.ok_or(Unresolved::MissingValue);
    };
    // No `map` and `map_err`: with the two closures it is not proved what becomes of the value.
    match map_value_to_literal(value, scalar) {
        Ok(literal) => Ok(Outcome::Made {
            key,
            value,
            literal,
        }),
        Err(error) => Err(Unresolved::Refused { key, value, error }),
    }
}

#[derive(Clone, Copy, PartialEq, Eq, Debug, Default)]
pub struct Tally {
    pub overrides: usize,
    pub literals: usize,
    pub inits: usize,
    pub refused: usize,
    pub untaken: usize,
}

impl Tally {
    pub(crate) fn count(&mut self, outcome: &Result<Outcome, Unresolved>)
        ensures { self.new ≡ counted self.old outcome.now }
    {
        self.overrides = self.overrides.saturating_add(1);
        match outcome {
            Ok(Outcome::Made { .. }) => self.literals = self.literals.saturating_add(1),
            Ok(Outcome::Kept { .. }) => self.inits = self.inits.saturating_add(1),
            Err(_) => self.refused = self.refused.saturating_add(1),
        }
    }

    pub(crate) fn count_untaken(&mut self)
        ensures { self.new ≡ record { overrides = self.old.overrides; literals = self.old.literals; inits = self.old.inits; refused = self.old.refused; untaken = more self.old.untaken } }
    {
        self.untaken = self.untaken.saturating_add(1);
    }

    // How many overrides and keys were refused.
    pub fn refusals(&self) -> usize
        ensures { result ≡ min (self.now.refused + self.now.untaken) 18446744073709551615 }
    {
        self.refused.saturating_add(self.untaken)
    }
}
