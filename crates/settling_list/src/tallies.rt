// How many cases were compared, and how many answers are the same.
use crate::cases::Answer;
use crate::comparing::{Ours, Part, agrees};
use std::fmt;

// How often a part was compared, and how often it was the same.
#[derive(Clone, Copy, PartialEq, Eq, Debug, Default)]
struct Compared {
    compared: u64,
    same: u64,
}

// The counts of a list, with those of its outcomes by the numbers of the refusals; 0 stands for none.
#[derive(Clone, Copy, PartialEq, Eq, Debug)]
pub struct Tally {
    cases: u64,
    same: u64,
    outcomes: [u64; 18],
    parts: [Compared; 10],
}

fn outcome_of(answer: &Answer) -> u8 {
    match answer.ended {
        Ok(_) => 0,
        Err(refusal) => refusal.code(),
    }
}

// Counts a part.
fn count(part: &mut Compared, same: bool) {
    part.compared = part.compared.saturating_add(1);
    part.same = part.same.saturating_add(u64::from(same));
}

impl Tally {
    pub fn new() -> Tally {
        Tally {
            cases: 0,
            same: 0,
            outcomes: [0; 18],
            parts: [Compared::default(); 10],
        }
    }

    // Compares all parts of an answer. Gives the first that differs.
    pub fn add(&mut self, answer: &Answer, ours: &Ours<'_>) -> Option<Part> {
        let mut first = None;
        for (part, counted) in Part::ALL.iter().zip(self.parts.iter_mut()) {
            if let Some(same) = agrees(*part, answer, ours) {
                count(counted, same);
                if !same && first.is_none() {
                    first = Some(*part);
                }
            }
        }
        self.cases = self.cases.saturating_add(1);
        self.same = self.same.saturating_add(u64::from(first.is_none()));
        if let Some(outcome) = self.outcomes.get_mut(outcome_of(answer) as usize) {
            *outcome = outcome.saturating_add(1);
        }
        first
    }

    // Whether there was a case, and every answer was the same.
    pub fn is_same(&self) -> bool {
        self.cases > 0 && self.same == self.cases
    }
}

impl fmt::Display for Tally {
    fn fmt<W: fmt::Write>(&self, f: &mut fmt::Formatter<W>) -> fmt::Result {
        writeln!(
            f,
            "{} cases, {} the same in all parts",
            self.cases, self.same
        )?;
        for (code, count) in self.outcomes.iter().enumerate() {
            match code {
                _ if *count == 0 => {}
                0 => writeln!(f, "  accepted {count}")?,
                _ => writeln!(f, "  refused with {code} {count}")?,
            }
        }
        for (part, counted) in Part::ALL.iter().zip(self.parts) {
            let Compared { compared, same } = counted;
            writeln!(
                f,
                "  {}: {compared} compared, {same} the same",
                part.words()
            )?;
        }
        Ok(())
    }
}
