// Stored settlings: cases with the answers that were got for them, read from a list, and held against what this repository's own
// settling gives.
#![tactic(auto)]

mod answers;
mod cases;
mod comparing;
mod faults;
mod modules;
mod piles;
mod reading;
mod refusal_values;
mod tallies;
#[cfg(test)]
mod tests;
mod words;

pub use cases::{Answer, Case};
pub use comparing::{Counts, Ours, Part, agrees};
pub use faults::{Fault, ListError};
pub use piles::{Pile, Sprung};
pub use reading::Reader;
pub use tallies::Tally;
