// What each command says, as text made from the bytes and the texts that it reads.
#![tactic(auto)]

mod errors;
mod literals;
mod outcomes;
mod packing;
mod shown;
mod taken;
#[cfg(test)]
mod tests;

pub use errors::{ReportError, TextError};
pub use literals::{Report, report_literals};
pub use outcomes::{Outcome, Tally, Unresolved, resolve};
pub use packing::{Packed, pack, unpack};
pub use shown::{Label, LiteralText, Many};
pub use taken::{put_setting, put_taken};
