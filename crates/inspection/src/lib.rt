// What is said of a shader: whether its tables are well formed, and what they hold.
#![tactic(auto)]

mod counts;
mod errors;
mod listings;
#[cfg(test)]
mod tests;
mod texts;
mod verdicts;

pub use counts::{first_with, kind_counts};
pub use errors::InspectionError;
pub use listings::{Report, report_listing, report_shader, rewrite_listing};
pub use texts::put_source_refusal;
pub use verdicts::{Tally, Verdicts, check_shader};
