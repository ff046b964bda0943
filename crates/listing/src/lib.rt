// The texts that planners write and read: the overrides of a module, and the settings for them.
#![tactic(auto)]

mod faults;
mod keys;
mod overrides;
mod scalars;
mod values;

pub use faults::{Fault, ListingError};
pub use keys::{key_text, read_key_text};
pub use overrides::{OverrideLine, read_overrides};
pub use scalars::{ScalarName, read_scalar};
pub use values::{SettingLine, ValueText, read_settings};
