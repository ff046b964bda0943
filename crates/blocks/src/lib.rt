// A body is a flat list of records that is exactly one block: Open, statements, Close. Some kinds of record ask for blocks after
// them, which the table of kinds says. Blocks nest at most 64 deep, the outermost being the first.
#![tactic(auto)]

ghost use Rattle.std.specs.Prelude.{◌≡◌, ℕ, List, [], ◌∷◌, Decides, slice_index_or};
ghost use Rattle.arena.specs.Nodes.{nodes};
ghost use Rattle.blocks.specs.declared.Role.TheVariants.{Opening, Closing, Doing};
ghost use Rattle.blocks.specs.Blocks.{blocks_after_of, role_by, opens, closes, Blocked};
ghost use Rattle.blocks.specs.Depth.{Deepest};
ghost use Rattle.blocks.specs.Stack.{stack, Taken};
ghost use Rattle.blocks.specs.Examples.{Examples};

use arena::Entry;
use arrayvec::ArrayVec;
use kinds::Statement;

// How many blocks may be open at once.
const MAX_DEPTH: usize = 64;

// What a record does to the blocks: open one, close one, or ask for some after it.
#[derive(Clone, Copy)]
pub enum Role {
    Opening,
    Closing,
    Doing(u32),
}

impl Role {
    // How many blocks it opens.
    fn opens(self) -> usize
        ensures { result ≡ opens self }
    {
        usize::from(matches!(self, Role::Opening))
    }

    // How many blocks it closes.
    fn closes(self) -> usize
        ensures { result ≡ closes self }
    {
        usize::from(matches!(self, Role::Closing))
    }
}

// How many blocks stand after a record of a kind whose word 0 is this; an unknown kind asks for none.
#[tactic(auto, unfolding(crate::specs::Blocks::blocks_after_of))]
pub fn blocks_after(kind: u8, word: u32) -> u32
    ensures { result ≡ blocks_after_of kind word }
{
    kinds::record_kind(kind).map_or(0, |row| row.after.blocks(word))
}

pub fn role_of(record: &Entry) -> Role
    ensures { result ≡ role_by «record».now.kind (slice_index_or «record».now.words 0 0) }
{
    match Statement::try_from(record.kind) {
        Ok(Statement::Open) => Role::Opening,
        Ok(Statement::Close) => Role::Closing,
        _ => Role::Doing(blocks_after(record.kind, record.words[0])),
    }
}

// How many blocks are still to come in the innermost open block, and in each around it from the outermost on, the body being first.
#[derive(Drop)]
struct Nest {
    owed: u32,
    around: ArrayVec<u32, MAX_DEPTH>,
}

impl Nest {
    // The body owes one block.
    fn new() -> Nest
        ensures { stack result ≡ 1 ∷ [] }
    {
        Nest {
            owed: 1,
            around: ArrayVec::new(),
        }
    }

    fn done(&self) -> bool
        ensures { Decides result (stack self.now ≡ 0 ∷ []) }
    {
        self.owed == 0 && self.around.is_empty()
    }

    fn open(&mut self) -> Option<()>
        ensures { Taken Opening self.old self.new result }
    {
        let rest = self.owed.checked_sub(1)?;
        self.around.try_push(rest).ok()?;
        self.owed = 0;
        Some(())
    }

    fn close(&mut self) -> Option<()>
        ensures { Taken Closing self.old self.new result }
    {
        if self.owed != 0 {
            return None;
        }
        self.owed = self.around.pop()?;
        Some(())
    }

    fn ask(&mut self, count: u32) -> Option<()>
        ensures { Taken (Doing count) self.old self.new result }
    {
        if self.owed != 0 || self.around.is_empty() {
            return None;
        }
        self.owed = count;
        Some(())
    }

    // Takes a record, if it may stand there.
    fn take(&mut self, role: Role) -> Option<()>
        ensures { Taken role self.old self.new result }
    {
        match role {
            Role::Opening => self.open(),
            Role::Closing => self.close(),
            Role::Doing(count) => self.ask(count),
        }
    }
}

// The first record at fault, or the number of records where they end too soon; none if the records are one block.
pub fn check_blocks(records: &[Entry]) -> Option<usize>
    ensures { (os : List ℕ) → Blocked (nodes records.now os) result }
{
    let mut nest = Nest::new();
    // No `position`: with a closure that changes the nest its exits are not proved.
    for (i, record) in records.iter().enumerate() {
        if nest.take(role_of(record)).is_none() {
            return Some(i);
        }
    }
    if nest.done() {
        None
    } else {
        Some(records.len())
    }
}

// How many blocks are open at once at most, whatever the records are.
pub fn deepest(records: &[Entry]) -> usize
    ensures { (os : List ℕ) → Deepest (nodes records.now os) result }
{
    let mut opened: usize = 0;
    let mut closed: usize = 0;
    let mut deepest: usize = 0;
    for record in records {
        let role = role_of(record);
        opened += role.opens();
        closed += role.closes();
        deepest = deepest.max(opened.saturating_sub(closed));
    }
    deepest
}

// The definitions of weaving and of sight, tried on small bodies.
pub fn examples_stand()
    ensures { Examples }
{}
