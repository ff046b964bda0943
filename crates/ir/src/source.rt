// The check of a module's tables.
ghost use Rattle.std.specs.Prelude.{◌≡◌};
ghost use Rattle.ir.specs.Tables.{global_shape, global_range, global, sizes_of};
ghost use Rattle.ir.specs.Views.{global_below};
ghost use Rattle.ir.specs.Checks.{CheckedSource};

use crate::tables::{Size, Sizes, Source};
use crate::tests::{
    NameOutside, RangeOf, Shape, ShapeOf, first_misnamed, first_nameless, first_outside,
};
use operands::{Sort, least_lacking, least_not_below};
use places::{Faults, TableName, limited, over};
use refusals::Refusal;

// The most entries or constants.
pub(crate) const ENTRIES: usize = 65536;
// The most overrides.
const OVERRIDES: usize = 4096;

// What is checked of a module.
#[derive(Clone, Copy)]
struct Module<'m> {
    source: &'m Source,
    sizes: &'m Sizes,
}

impl<'m> Faults for ShapeOf<Module<'m>> {
    ghost at = { λ s. global_shape (global s.tables.source.now s.tables.sizes.now) };

    fn least_in(&self, table: TableName) -> Option<usize> {
        let source = self.tables.source;
        let sort = Sort::Expressions;
        let operands = source.operands.len();
        let names = source.names.len();
        match table {
            TableName::GlobalEntries => limited(
                ENTRIES,
                &source.entries,
                &Shape { sort, operands },
            ),
            TableName::GlobalOperands => least_lacking(sort, &source.entries, &source.operands),
            TableName::Constants => over(ENTRIES, source.constants.len()),
            TableName::Overrides => limited(OVERRIDES, &source.overrides, &NameOutside { names }),
            _ => None,
        }
    }
}

impl<'m> Faults for RangeOf<Module<'m>> {
    ghost at = { λ s. global_range (global_below (global s.tables.source.now s.tables.sizes.now)) };

    fn least_in(&self, table: TableName) -> Option<usize> {
        let Module { source, sizes } = self.tables;
        let bound = source.entries.len();
        match table {
            TableName::GlobalEntries => first_misnamed(&source.entries, source, true),
            TableName::GlobalOperands => least_not_below(&source.entries, &source.operands),
            TableName::Constants => first_outside(&source.constants, bound),
            TableName::Overrides => first_outside(&source.overrides, bound),
            TableName::VariableInits => first_outside(&source.variables, bound),
            TableName::Sizes => first_outside(&sizes.all(), bound),
            _ => None,
        }
    }
}

impl Sizes {
    // The five sizes in the order of their places.
    pub fn all(&self) -> [Size; 5]
        ensures { result ≡ sizes_of self.now }
    {
        let [x, y, z] = self.workgroup;
        [x, y, z, self.vertices, self.primitives]
    }
}

// Whether a module's tables are well formed: accepted exactly if no refusal applies to them, and else refused with the first that
// does, by number and then by place. Nothing past a table's limit is looked at. Apart from `check_body`, since the third check asks and
// refuses something else.
pub fn check_source(source: &Source, sizes: &Sizes) -> Result<(), Refusal>
    ensures { CheckedSource (global source.now sizes.now) result }
{
    let tables = Module { source, sizes };
    places::check(&ShapeOf { tables }).map_err(|place| Refusal::Misshapen { place })?;
    places::check(&RangeOf { tables }).map_err(|place| Refusal::OutOfRange { place })?;
    match first_nameless(&source.overrides) {
        Some(number) => Err(Refusal::Nameless { number }),
        None => Ok(()),
    }
}
