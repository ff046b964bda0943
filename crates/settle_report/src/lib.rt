// What `settle` says: the finished tables as a listing, what each override became, and the refusal of a settling.
#![tactic(auto)]

mod changes;
mod refused;
mod settled;
mod settling;
mod sizes;
mod tables;
#[cfg(test)]
mod tests;
mod told;

pub use changes::Changes;
pub use refused::report_refused;
pub use settled::{Settling, report_settled};
pub use settling::{Report, SettleReportError, report_settling};
pub use tables::{FinishedTables, finished_shader, write_finished};
pub use told::{identifier, outcomes};
