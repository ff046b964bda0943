// Walking over entries, one after the other: overrides settled, constants mapped, operands sent to their images, the folder asked. A
// module's entries first, and then those of bodies under the settled module.
#![tactic(auto)]

mod bodies;
mod body_entries;
mod body_work;
mod entries;
mod images;
mod modules;
mod overrides;
mod work;

pub use bodies::{OldBody, WalkedBody, walk_body};
pub use body_work::SettledModule;
pub use modules::{Old, Walked, walk_entries};
pub use overrides::Valued;
