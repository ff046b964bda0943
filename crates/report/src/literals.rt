// The report of a settings file against a module's overrides.
ghost use Rattle.std.specs.Prelude.{◌≡◌};
ghost use Rattle.report.specs.Outcomes.{Told};

use crate::errors::{ReportError, TextError};
use crate::outcomes::{Outcome, Tally, Unresolved, resolve};
use crate::shown::{Label, LiteralText};
use crate::taken::{put_setting, put_taken};
use listing::{OverrideLine, read_overrides};
use settings::{Identifier, Setting, Settings, SettingsError, is_taken};
use std::alloc::Global;
use std::fmt::Write;

#[derive(Drop)]
pub struct Report {
    pub text: String,
    pub tally: Tally,
}

// A report as it is written.
#[derive(Drop)]
struct Writer<'s> {
    heap: Global,
    settings: &'s Settings<'s>,
    text: String,
    tally: Tally,
}

impl<'s> Writer<'s> {
    fn new(heap: Global, settings: &'s Settings<'s>) -> Writer<'s>
        ensures { result.tally ≡ record { overrides = 0; literals = 0; inits = 0; refused = 0; untaken = 0 } }
    {
        Writer {
            heap,
            settings,
            text: String::new(heap),
            tally: Tally::default(),
        }
    }

    fn put_outcome(&mut self, outcome: &Outcome) -> Result<(), TextError> {
        match *outcome {
            Outcome::Made {
                key,
                value,
                literal,
            } => {
                put_taken(&mut self.text, self.heap, self.settings, key, value)?;
                let literal = LiteralText(literal);
                writeln!(self.text, ", literal {literal}")?;
            }
            Outcome::Kept { init } => writeln!(self.text, "no value, init {init} kept")?,
        }
        Ok(())
    }

    fn put_refusal(&mut self, error: &Unresolved) -> Result<(), TextError> {
        match *error {
            Unresolved::Refused { key, value, .. } => {
                put_taken(&mut self.text, self.heap, self.settings, key, value)?;
                self.text.push_str(", ")?;
            }
            Unresolved::MissingValue => self.text.push_str("no value and no init, ")?,
            Unresolved::NoIdentifier => {}
        }
        let code = error.code();
        writeln!(self.text, "refusal {code}, {error}")?;
        Ok(())
    }

    fn put_override(&mut self, i: usize, line: &OverrideLine) -> Result<(), TextError> {
        let outcome = resolve(self.settings, line.identifier(), line.scalar, line.init);
        let label = Label {
            id: line.id,
            name: line.name.as_deref(),
            scalar: line.scalar,
        };
        write!(self.text, "override {i}, {label}: ")?;
        match &outcome {
            Ok(outcome) => self.put_outcome(outcome)?,
            Err(error) => self.put_refusal(error)?,
        }
        self.tally.count(&outcome);
        Ok(())
    }

    fn put_untaken(&mut self, who: &[Identifier<'_>]) -> Result<(), TextError> {
        for (i, Setting { key, value }) in (0..).zip(self.settings.iter()) {
            if !is_taken(key, who) {
                put_setting(&mut self.text, self.heap, i, key, value)?;
                let code = SettingsError::NotFound { key: i }.code();
                writeln!(self.text, ", refusal {code}, no override takes it")?;
                self.tally.count_untaken();
            }
        }
        Ok(())
    }

    fn finish(self) -> Result<Report, TextError> {
        let Writer {
            heap: _,
            settings: _,
            mut text,
            tally,
        } = self;
        writeln!(text, "{tally}")?;
        Ok(Report { text, tally })
    }
}

fn put_report(heap: Global, settings: &Settings<'_>, overrides: &str) -> Result<Report, TextError> {
    let lines = read_overrides(heap, overrides)?;
    let mut writer = Writer::new(heap, settings);
    for (i, line) in lines.iter().enumerate() {
        writer.put_override(i, line)?;
    }
    let who: Vec<Identifier<'_>> = lines.iter().map(|line| line.identifier()).collect(heap)?;
    writer.put_untaken(who.as_slice())?;
    writer.finish()
}

// A line for each override, one for each key that no override takes, and a summary.
pub fn report_literals(heap: Global, file: &[u8], overrides: &str) -> Result<Report, ReportError>
    ensures { Told file.now result }
{
    let settings = Settings::read(file)?;
    put_report(heap, &settings, overrides).map_err(ReportError::Text)
}
