// Two more folders, for tests: what is generic over folders is tried on them too.
#![tactic(auto)]

mod padding;
#[cfg(test)]
mod tests;
mod trap;

pub use padding::Padding;
pub use trap::Trap;
