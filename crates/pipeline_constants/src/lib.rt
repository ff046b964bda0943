// Settling a module: naga's `process_overrides`. A settings file gives values to overrides; each becomes a constant, and the global
// expressions are built anew with all that a folder can work out.
#![tactic(auto)]

ghost use Rattle.pipeline_constants.specs.Once.{SettlesOnce};

mod closing;
mod copying;
mod finished;
mod full;
mod images;
mod module;
mod room;
mod settled;
mod settling;
mod sizes;
mod slots;
mod walk;

pub use finished::{Finished, Written};
pub use module::Module;
pub use room::Room;
pub use settled::{Refused, Settled};

// What can be relied on whatever is settled: a file and a module have one answer.
pub fn settling_stands()
    ensures once { SettlesOnce }
{}
