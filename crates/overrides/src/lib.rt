// What a settings file says of the overrides of a module: whether the two can be settled, and the value of each override.
//
// It brings the keys of `settings`, the tables of `ir` and the conversion of `rounding` together. A walk over the module reads
// what is given here.
#![tactic(auto)]

ghost use Rattle.overrides.specs.Standing.{NoneWithoutKey, SettlingAccepts, ValuedIsValues, ValuedOnce};

mod keys;
mod settling;
#[cfg(test)]
mod tests;
mod values;

pub use settling::check_settling;
pub use values::value_overrides;

// What a walk can rely on: the tables are accepted, the overrides with their values are those of the module and hold well-formed
// literals, there is one list of values, and only an override that takes no key is without one.
pub fn values_stand()
    ensures accepted { SettlingAccepts }
    ensures values { ValuedIsValues }
    ensures once { ValuedOnce }
    ensures none { NoneWithoutKey }
{}
