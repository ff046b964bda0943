// The finished tables of a settling, and their listing.
ghost use Rattle.std.specs.Prelude.{◌≡◌, None, IfOk};
ghost use Rattle.settle_report.specs.Listed.{Listed, listed_constants};

use arena::{Entry, Handle};
use evaluator::NewConstant;
use ir::{Constant, Override, Size, Sizes, Source};
use shader_text::{Shader, write_shader};
use std::alloc::{AllocError, Global};

// What a settling has finished: its images are those of the old handles, and `settled` has the constant of each override.
#[derive(Clone, Copy)]
pub struct FinishedTables<'t> {
    pub entries: &'t [Entry],
    pub operands: &'t [Handle],
    pub constants: &'t [NewConstant],
    pub overrides: &'t [Override],
    pub variables: &'t [Option<Handle>],
    pub images: &'t [Handle],
    pub settled: &'t [u32],
}

// A size as its value alone: the expression that gave it is none of the finished ones.
fn value_alone(size: Size) -> Size
    ensures { result ≡ record { value = size.value; handle = None } }
{
    Size {
        value: size.value,
        handle: None,
    }
}

// The constants as a listing has them.
fn listed_constants(heap: Global, constants: &[NewConstant]) -> Result<Vec<Constant>, AllocError>
    ensures { IfOk result (λ cs. cs.items ≡ listed_constants constants.now) }
{
    constants
        .iter()
        .map(|constant| Constant {
            init: constant.init,
        })
        .collect(heap)
}

// The finished tables as those of a shader without bodies. The names are those of the module, which the overrides still mean.
pub fn finished_shader(
    heap: Global,
    tables: FinishedTables<'_>,
    names: &[u8],
    sizes: &Sizes,
) -> Result<Shader, AllocError>
    ensures { IfOk result (λ s. Listed tables.entry names.now sizes.now s) }
{
    let source = Source {
        entries: Vec::from_slice(heap, tables.entries)?,
        operands: Vec::from_slice(heap, tables.operands)?,
        constants: listed_constants(heap, tables.constants)?,
        overrides: Vec::from_slice(heap, tables.overrides)?,
        names: Vec::from_slice(heap, names)?,
        variables: Vec::from_slice(heap, tables.variables)?,
    };
    let [x, y, z] = sizes.workgroup;
    let sizes = Sizes {
        workgroup: [value_alone(x), value_alone(y), value_alone(z)],
        vertices: value_alone(sizes.vertices),
        primitives: value_alone(sizes.primitives),
    };
    Ok(Shader {
        source,
        sizes,
        bodies: Vec::new(heap),
    })
}

// The listing of the finished tables.
pub fn write_finished(
    heap: Global,
    tables: FinishedTables<'_>,
    names: &[u8],
    sizes: &Sizes,
) -> Result<String, AllocError> {
    let shader = finished_shader(heap, tables, names, sizes)?;
    write_shader(heap, &shader)
}
