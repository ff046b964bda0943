// The folders that come with the library: Keep at the bottom, Whole and Find over any folder; and the literal behind an entry,
// seen through constants.
#![tactic(auto)]

ghost use Rattle.layers.specs.Examples.{Examples};

mod find;
mod keep;
mod values;
mod whole;

pub use find::Find;
pub use keep::Keep;
pub use values::{Value, literal_behind};
pub use whole::Whole;

// What the folders say of expressions over small tables.
#[tactic(auto, using(crate::proofs::Examples::examples))]
pub fn examples_stand()
    ensures { Examples }
{}
