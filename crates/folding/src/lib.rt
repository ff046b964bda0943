// Folding the entries of a module that has no overrides.
#![tactic(auto)]

mod folds;

pub use folds::{FoldError, Folded, fold_source};
