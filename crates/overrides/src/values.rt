// The values that a settings file gives to the overrides of a module.
ghost use Rattle.std.specs.Prelude.{◌≡◌, ◌≤◌, length, vec_items};
ghost use Rattle.settings.specs.Reading.{given};
ghost use Rattle.arena.specs.Items.{Stays, items, limit};
ghost use Rattle.overrides.specs.Values.{ConvertedIf, GivenTo, ValuedAs, ValuedBy, ValuedFor};

use crate::keys::identifier;
use arena::Table;
use ir::{Override, Source};
use rounding::{ConversionError, Literal, Scalar, map_value_to_literal};
use settings::Settings;
use walking::Valued;

// The value that is given to an override.
fn given_to(settings: &Settings<'_>, item: &Override, names: &[u8]) -> Option<f64>
    ensures { GivenTo (given settings.now) names.now item.now result }
{
    settings.value_for(identifier(item, names))
}

// What a value becomes for a scalar, where there is one.
fn converted(value: Option<f64>, scalar: Scalar) -> Option<Result<Literal, ConversionError>>
    ensures { ConvertedIf scalar value result }
{
    Some(map_value_to_literal(value?, scalar))
}

// An override with its value, as a literal, and its init.
fn valued(settings: &Settings<'_>, item: &Override, names: &[u8]) -> Valued
    ensures { ValuedAs (given settings.now) names.now item.now result }
{
    let given = converted(given_to(settings, item, names), item.scalar);
    Valued {
        given,
        init: item.init,
    }
}

// Each override of a module with its value, in order: as many as the table may hold, in place of what it held before.
pub fn value_overrides(settings: &Settings<'_>, source: &Source, values: &mut Table<Valued>)
    ensures values { ValuedBy (given settings.now) (vec_items source.now.names) (vec_items source.now.overrides) values.old values.new }
    ensures all { length (vec_items source.now.overrides) ≤ limit values.old
        → ValuedFor (given settings.now) (vec_items source.now.names) (vec_items source.now.overrides) (items values.new) }
    ensures stays { Stays values.old values.new }
{
    values.clear();
    for item in &source.overrides {
        if values.push(valued(settings, item, &source.names)).is_err() {
            return;
        }
    }
}
