// From a pipeline value, a double, to a typed literal.
//
// `map_value_to_literal` is naga's function of that name; its rule is in specs/Conversion.antt. It
// relies on nothing but `std`. Whoever settles overrides sees this promise alone.
#![tactic(auto)]

ghost use Rattle.rounding.specs.Formats.{StandIns};
ghost use Rattle.rounding.specs.Nearest.{NearestIsOne};
ghost use Rattle.rounding.specs.Doubles.{UnitsExact};
ghost use Rattle.rounding.specs.Agrees.{Agrees};
ghost use Rattle.rounding.specs.Examples.{Examples};

mod conversion;
mod formats;
mod literals;
mod scalars;
#[cfg(test)]
mod tests;

pub use conversion::{ConversionError, map_value_to_literal};
pub use literals::Literal;
pub use scalars::{Scalar, ScalarKind};

// What the contracts' words mean: one value at most is nearest, the infinities stand for 2^16 and
// 2^128, patterns are read as the logic's account of IEEE 754 reads them, and a finite double is
// exactly so many units.
pub fn formats_stand()
    ensures one { NearestIsOne }
    ensures stand_ins { StandIns }
    ensures agrees { Agrees }
    ensures exact { UnitsExact }
{}

// The worked examples hold of the definitions that `map_value_to_literal` is proved against.
#[tactic(auto, using(crate::proofs::Examples::examples))]
pub fn examples_stand()
    ensures { Examples }
{}
