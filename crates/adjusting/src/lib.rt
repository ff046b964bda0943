// The records of a body, rewritten for its finished entries: each operand sent to its image, and each Emit made anew of what is still
// to be emitted.
#![tactic(auto)]

mod body;
mod emits;
mod statements;
#[cfg(test)]
mod tests;
mod work;

pub use body::{adjust_body, bodies_stand, examples_stand, stretches_stand};
pub use emits::Counts;
pub use work::Inputs;
