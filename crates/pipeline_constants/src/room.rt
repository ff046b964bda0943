// How many items each finished table of a module may hold.
ghost use Rattle.std.specs.Prelude.{◌≡◌, length, vec_items};
ghost use Rattle.pipeline_constants.specs.Rooms.{most, within};

use ir::Source;

// A limit for each table. Of the variables there are never more than the module has.
#[derive(Clone, Copy, PartialEq, Eq, Debug)]
pub struct Room {
    pub entries: u32,
    pub operands: u32,
    pub constants: u32,
    pub overrides: u32,
    pub variables: usize,
    pub handles: u32,
    pub settled: u32,
    pub kinds: u32,
}

// The most entries, constants, handles and kinds that a table holds; the most operands; the most overrides.
const ENTRIES: u32 = 65536;

const OPERANDS: u32 = 262144;

const OVERRIDES: u32 = 4096;

impl Room {
    // As much as the tables of any module may hold.
    pub fn most() -> Room
        ensures { result ≡ most }
    {
        Room {
            entries: ENTRIES,
            operands: OPERANDS,
            constants: ENTRIES,
            overrides: OVERRIDES,
            variables: usize::MAX,
            handles: ENTRIES,
            settled: OVERRIDES,
            kinds: ENTRIES,
        }
    }

    // No more than tables may hold, nor than this module has variables.
    pub(crate) fn within(self, source: &Source) -> Room
        ensures { result ≡ within self (length (vec_items source.now.variables)) }
    {
        Room {
            entries: self.entries.min(ENTRIES),
            operands: self.operands.min(OPERANDS),
            constants: self.constants.min(ENTRIES),
            overrides: self.overrides.min(OVERRIDES),
            variables: self.variables.min(source.variables.len()),
            handles: self.handles.min(ENTRIES),
            settled: self.settled.min(OVERRIDES),
            kinds: self.kinds.min(ENTRIES),
        }
    }
}
