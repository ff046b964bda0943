// The tables of a module and of a body, and their checks: whatever they hold, the answer is the first thing that is wrong.
#![tactic(auto)]

mod body;
mod source;
mod tables;
mod tests;

pub use body::check_body;
pub use source::check_source;
pub use tables::{Body, Constant, Override, Record, Size, Sizes, Source};
pub use tests::is_malformed;
