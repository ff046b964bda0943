// What `fold` says of a listing: what each expression of a module without overrides becomes under a pile of folders.
#![tactic(auto)]

mod piles;
mod report;
mod trees;

pub use piles::Pile;
pub use report::{FoldReportError, report_folds};
pub use trees::put_node;
