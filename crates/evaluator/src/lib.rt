// The evaluator of constant expressions behind an interface: the tables that it adds to, the kinds of expression, and what every
// folder promises.
#![tactic(auto)]

mod evaluation;
mod expression_kind;
mod folder;
mod tables;

pub use evaluation::Evaluated;
pub use expression_kind::{ExpressionKind, ExpressionKindTracker};
pub use folder::{Fault, Folder, needs_pre_emit};
pub use tables::{Asked, Constants, FullTable, NewConstant, Nodes, Tables};
