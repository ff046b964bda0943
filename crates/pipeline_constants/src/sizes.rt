// The sizes, by the literals behind their handles.
ghost use Rattle.std.specs.Prelude.{◌≡◌, ◌∷◌, [], map};
ghost use Rattle.ir.specs.Tables.{sizes_of};
ghost use Rattle.pipeline_constants.specs.Sizings.{admitted, number_behind, number_of, numbers_below, size_at, sizing};
ghost use Rattle.refusals.specs.declared.Refusal.TheVariants.{NegativeWorkgroupSize, NegativeMeshOutputMax};
ghost use Rattle.walking.specs.Images.{image_of};

use crate::images::image_of;
use arena::Handle;
use evaluator::{NewConstant, Nodes};
use ir::{Size, Sizes};
use layers::{Value, literal_behind};
use refusals::{Axis, MeshOutput, Refusal};

// The types of the literals that a size may be.
const I32: u32 = 3;

const U32: u32 = 4;

// The numbers that a literal of this type may give a size lie below this.
fn numbers_below(ty: u32) -> u64
    ensures { result ≡ numbers_below ty }
{
    match ty {
        U32 => 0x1_0000_0000,
        I32 => 0x8000_0000,
        _ => 0,
    }
}

fn number_of(value: Value) -> Option<u32>
    ensures { result ≡ number_of value }
{
    if value.bits < numbers_below(value.ty) {
        Some(value.bits as u32)
    } else {
        None
    }
}

// Where the handles of sizes are looked up: the finished entries with their constants, and the image of each old handle.
#[derive(Clone, Copy)]
pub(crate) struct Lookup<'a> {
    pub(crate) nodes: Nodes<'a>,
    pub(crate) constants: &'a [NewConstant],
    pub(crate) images: &'a [Handle],
}

impl Lookup<'_> {
    ghost use Rattle.pipeline_constants.specs.Lookups.{SizeAs, SizedAs, looked_in};

    // The number behind a handle's image, unless it is below the least.
    fn number_behind(self, least: u32, handle: Handle) -> Option<u32>
        ensures { result ≡ number_behind (looked_in self.entry) least handle }
    {
        let image = image_of(self.images, handle);
        let value = literal_behind(self.nodes, self.constants, image)?;
        let number = number_of(value)?;
        (number >= least).then_some(number)
    }

    // A size, as the literal behind its handle says. Without a handle it stays.
    fn size(self, size: Size, least: u32, refusal: Refusal) -> Result<Size, Refusal>
        ensures { SizeAs refusal size (size_at (looked_in self.entry) least size) result }
    {
        let Some(handle) = size.handle else {
            return Ok(size);
        };
        let value = self.number_behind(least, handle).ok_or(refusal)?;
        Ok(Size { value, ..size })
    }

    fn axis(self, size: Size, axis: Axis) -> Result<Size, Refusal>
        ensures { SizeAs (NegativeWorkgroupSize axis) size (size_at (looked_in self.entry) 1 size) result }
    {
        self.size(size, 1, Refusal::NegativeWorkgroupSize { axis })
    }

    fn mesh(self, size: Size, which: MeshOutput) -> Result<Size, Refusal>
        ensures { SizeAs (NegativeMeshOutputMax which) size (size_at (looked_in self.entry) 0 size) result }
    {
        self.size(size, 0, Refusal::NegativeMeshOutputMax { which })
    }

    // All five, or the refusal of the first that has no number.
    pub(crate) fn sizes(self, sizes: &Sizes) -> Result<Sizes, Refusal>
        ensures { SizedAs (sizing (looked_in self.entry) 0 (sizes_of sizes.now)) result }
    {
        let [x, y, z] = sizes.workgroup;
        let workgroup = [
            self.axis(x, Axis::X)?,
            self.axis(y, Axis::Y)?,
            self.axis(z, Axis::Z)?,
        ];
        let vertices = self.mesh(sizes.vertices, MeshOutput::Vertices)?;
        let primitives = self.mesh(sizes.primitives, MeshOutput::Primitives)?;
        Ok(Sizes {
            workgroup,
            vertices,
            primitives,
        })
    }
}
