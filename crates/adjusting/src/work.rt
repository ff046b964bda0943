// The tables that records are read from and written to.
ghost use Rattle.std.specs.Prelude.{◌≡◌, ◌+◌, ◌*◌, ◌<◌, ◌≤◌, min, [], ◌∷◌, ◌++◌, length};
ghost use Rattle.arena.specs.Items.{items, limit, Stays};
ghost use Rattle.arena.specs.Nodes.{cut, nodes, operand_total};
ghost use Rattle.arena.specs.Tiles.{Tiled};
ghost use Rattle.walking.specs.Images.{image_of, images_of};
ghost use Rattle.refusals.specs.declared.Refusal.TheVariants.{Full};

use arena::{ABSENT, Arena, Entry, Handle, Run, Span, Table};
use ir::Record;
use places::TableName;
use refusals::Refusal;

// What is read: the records of a body over their operand list, the image of each of the body's handles, and the entries that the images
// are handles of.
#[derive(Clone, Copy)]
pub struct Inputs<'a> {
    pub records: &'a [Record],
    pub operands: &'a [Handle],
    pub images: &'a [Handle],
    pub entries: &'a Arena,
}

// How far the rewriting has come: the next record, the finished records over their operand list, how many handles these emit, and how
// many were struck. The tables are lent, so no memory is wanted.
#[derive(Drop)]
pub(crate) struct Work<'a, 'r, 'o> {
    pub(crate) inputs: Inputs<'a>,
    pub(crate) records: &'r mut Table<Entry>,
    pub(crate) operands: &'o mut Table<Handle>,
    pub(crate) next: usize,
    pub(crate) emitted: u64,
    pub(crate) struck: u64,
    ghost total: { length (items operands.now) ≡ operand_total (nodes (items records.now) (items operands.now)) },
    ghost tiled: { Tiled (items records.now) (length (items operands.now)) },
    ghost placed: { length (items operands.now) ≤ 4294967295 },
    ghost short: { length inputs.records.now ≤ 65536 },
    ghost within: { next ≤ length inputs.records.now },
    ghost few: { emitted + struck ≤ next * 4294967296 },
}

// The operands that lie in a run.
pub(crate) fn cut(operands: &[Handle], run: Run) -> &[Handle]
    ensures { result.now ≡ cut run operands.now }
{
    let from = operands.len().min(run.at as usize);
    let rest = &operands[from..];
    &rest[..rest.len().min(run.len as usize)]
}

// The image of a handle; the absent one stays.
pub(crate) fn image_of(images: &[Handle], handle: Handle) -> Handle
    ensures { result ≡ image_of images.now handle }
{
    if handle == ABSENT {
        ABSENT
    } else {
        images.get(handle as usize).copied().unwrap_or(ABSENT)
    }
}

// The images of these operands, at the end of a list that has room for them.
fn push_images(images: &[Handle], run: &[Handle], operands: &mut Table<Handle>)
    requires { length (items operands.old) + length run.now ≤ limit operands.old }
    ensures items { items operands.new ≡ items operands.old ++ images_of images.now run.now }
    ensures stays { Stays operands.old operands.new }
{
    for operand in run {
        let _ = operands.push(image_of(images, *operand));
    }
}

// A record at the end of a table that has room for it.
fn push_record(item: Entry, records: &mut Table<Entry>)
    requires { length (items records.old) < limit records.old }
    ensures items { items records.new ≡ items records.old ++ item ∷ [] }
    ensures stays { Stays records.old records.new }
{
    let _ = records.push(item);
}

impl Work<'_, '_, '_> {
    ghost use Rattle.adjusting.specs.Rules.{add};
    ghost use Rattle.adjusting.specs.Works.{Stepped};

    // How many operands more there is room for. The place of an operand has 32 bits.
    fn operand_room(&self) -> usize
        ensures { result + length (items self.now.operands.now) ≡ min (limit self.now.operands.now) 4294967295 }
    {
        self.operands.limit().min(Handle::MAX as usize) - self.operands.len()
    }

    // A record at the end, with the images of these operands. Where a table has no room, nothing is written.
    pub(crate) fn push(
        &mut self,
        kind: u8,
        words: [u32; 4],
        operands: &[Handle],
        span: Span,
    ) -> Result<(), Refusal>
        ensures { Stepped (λ r s. add r (record { kind = kind; words = words; operands = images_of self.old.inputs.images.now operands.now; span = span }) s) self.old self.new result }
    {
        if self.records.room() == 0 {
            return Err(full(TableName::Records));
        }
        if self.operand_room() < operands.len() {
            return Err(full(TableName::RecordOperands));
        }
        let run = Run {
            at: self.operands.len() as u32,
            len: operands.len() as u32,
        };
        push_images(self.inputs.images, operands, self.operands);
        push_record(
            Entry {
                kind,
                words,
                run,
                span,
            },
            self.records,
        );
        Ok(())
    }
}

// The refusal for a table without room.
fn full(table: TableName) -> Refusal
    ensures { result ≡ Full table }
{
    Refusal::Full { table }
}
