// Tables by handle: ranges of handles, values kept by handle in lent storage, tables with a limit, and the entries of an arena with
// their operand list. Uses no other crate of the repository.
#![tactic(auto)]

mod arena;
mod entry;
mod handle_vec;
mod range;
mod table;
#[cfg(test)]
mod tests;

pub use arena::{Arena, FullTable};
pub use entry::{ABSENT, Entry, Handle, Run, Span};
pub use handle_vec::{HandleVec, InsertError};
pub use range::Range;
pub use table::{NoRoom, Table};
