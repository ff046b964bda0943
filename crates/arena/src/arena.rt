// Entries with their operands.
ghost use Rattle.std.specs.Prelude.{◌≡◌, ◌+◌, ◌≤◌, [], length, IfSome, IfOk, MatchOption};
ghost use Rattle.std.specs.List.{slice_get};
ghost use Rattle.std.specs.Option.{option_map};
ghost use Rattle.arena.specs.Items.{items as held, limit as bound};
ghost use Rattle.arena.specs.Nodes.{Within, node, nodes, operand_at, operand_total};
ghost use Rattle.arena.specs.Tiles.{Tiled};

use crate::entry::{Entry, Handle, Run, Span};
use crate::table::Table;
use std::alloc::{AllocError, Global};
use thiserror::Error;

// Entries, and the list that their operands lie in. An entry is never changed once it is appended, so a handle always means the
// same node. What an arena says is its nodes; where the runs lie is its own affair, but for `tiled`.
#[derive(Drop)]
pub struct Arena {
    entries: Table<Entry>,
    operands: Table<Handle>,
    ghost total: { length (held operands) ≡ operand_total (nodes (held entries) (held operands)) },
    ghost tiled: { Tiled (held entries) (length (held operands)) },
    ghost small: { (bound entries ≤ 4294967295) × (bound operands ≤ 4294967295) },
}

// The table of an arena that had no room.
#[derive(Clone, Copy, PartialEq, Eq, Debug, Error)]
pub enum FullTable {
    #[error("no room for one more entry")]
    Entries,
    #[error("no room for the operands")]
    Operands,
}

impl Arena {
    ghost use Rattle.arena.specs.Appends.{Appended, Over, SameLimits, TooLarge, entries_of, operands_of, nodes_of, entry_limit, operand_limit};

    // An arena with no entry, which has the memory for all that it may hold.
    pub fn with_limits(heap: Global, entries: u32, operands: u32) -> Result<Arena, AllocError>
        ensures { IfOk result (λ a. (nodes_of a ≡ []) × (entry_limit a ≡ entries) × (operand_limit a ≡ operands)) }
    {
        let entries = Table::with_limit(heap, entries as usize)?;
        let operands = Table::with_limit(heap, operands as usize)?;
        Ok(Arena { entries, operands })
    }

    // An arena with no entry, in the memory of two tables, whatever they held. None where a limit is larger than a handle's
    // largest number.
    pub fn over(mut entries: Table<Entry>, mut operands: Table<Handle>) -> Option<Arena>
        ensures { MatchOption result (TooLarge entries operands) (λ a. Over entries operands a) }
    {
        let numbers = Handle::MAX as usize;
        if entries.limit() > numbers || operands.limit() > numbers {
            return None;
        }
        entries.clear();
        operands.clear();
        Some(Arena { entries, operands })
    }

    // One node more, for the next handle. Where a table has no room, the first such table, and nothing is written. The kind is a
    // byte, as an entry's is.
    pub fn append(
        &mut self,
        kind: u8,
        words: [u32; 4],
        operands: &[Handle],
        span: Span,
    ) -> Result<Handle, FullTable>
        ensures cases { Appended (record { kind = kind; words = words; operands = operands.now; span = span }) self.old self.new result }
        ensures limits { SameLimits self.old self.new }
    {
        if self.entries.room() == 0 {
            return Err(FullTable::Entries);
        }
        if self.operands.room() < operands.len() {
            return Err(FullTable::Operands);
        }
        let handle = self.entries.len() as u32;
        let run = Run {
            at: self.operands.len() as u32,
            len: operands.len() as u32,
        };
        self.operands.extend_reserved(operands);
        self.entries.push_reserved(Entry {
            kind,
            words,
            run,
            span,
        });
        Ok(handle)
    }

    // How many entries there are, which is also the next handle.
    pub fn len(&self) -> usize
        ensures value { result ≡ length (nodes_of self.now) }
        ensures bound { result ≤ entry_limit self.now }
    {
        self.entries.len()
    }

    // How many entries more it takes.
    pub fn entry_room(&self) -> usize
        ensures { result + length (nodes_of self.now) ≡ entry_limit self.now }
    {
        self.entries.room()
    }

    // How many operands more it takes.
    pub fn operand_room(&self) -> usize
        ensures { result + operand_total (nodes_of self.now) ≡ operand_limit self.now }
    {
        self.operands.room()
    }

    // The entry of a handle, if there is one.
    pub fn get(&self, handle: Handle) -> Option<Entry>
        ensures value { result ≡ slice_get (entries_of self.now) handle }
        ensures node { option_map (node (operands_of self.now)) result ≡ slice_get (nodes_of self.now) handle }
        ensures run { IfSome result (λ e. e.run.at + e.run.len ≤ length (operands_of self.now)) }
    {
        self.entries.get(handle as usize)
    }

    // The kind of an entry.
    pub fn kind(&self, handle: Handle) -> Option<u8>
        ensures { result ≡ option_map (λ n. n.kind) (slice_get (nodes_of self.now) handle) }
    {
        Some(self.get(handle)?.kind)
    }

    // The words of an entry.
    pub fn words(&self, handle: Handle) -> Option<[u32; 4]>
        ensures { result ≡ option_map (λ n. n.words) (slice_get (nodes_of self.now) handle) }
    {
        Some(self.get(handle)?.words)
    }

    // The operands of an entry, in the order of its slots.
    pub fn operands(&self, handle: Handle) -> Option<&[Handle]>
        ensures { option_map (λ s. s.now) result ≡ option_map (λ n. n.operands) (slice_get (nodes_of self.now) handle) }
    {
        let run = self.get(handle)?.run;
        let at = run.at as usize;
        Some(&self.operands.as_slice()[at..at + run.len as usize])
    }

    // The operand at a slot of an entry, if it has the slot.
    pub fn operand(&self, handle: Handle, slot: u32) -> Option<Handle>
        ensures { result ≡ operand_at (nodes_of self.now) handle slot }
    {
        self.operands(handle)?.get(slot as usize).copied()
    }

    // Every entry, by handle. Their runs tile the operand list.
    pub fn entries(&self) -> &[Entry]
        ensures value { result.now ≡ entries_of self.now }
        ensures tiled { Tiled (entries_of self.now) (length (operands_of self.now)) }
    {
        self.entries.as_slice()
    }

    // The list that the runs of the entries lie in.
    pub fn operand_list(&self) -> &[Handle]
        ensures { result.now ≡ operands_of self.now }
    {
        self.operands.as_slice()
    }

    // Takes every entry out, and keeps the memory.
    pub fn clear(&mut self)
        ensures nodes { nodes_of self.new ≡ [] }
        ensures limits { SameLimits self.old self.new }
    {
        self.entries.clear();
        self.operands.clear();
    }

    // The entries, and the list that their runs lie in, as tables of their own.
    pub fn into_tables(self) -> (Table<Entry>, Table<Handle>)
        ensures entries { held result.0 ≡ entries_of self }
        ensures operands { held result.1 ≡ operands_of self }
        ensures limits { (bound result.0 ≡ entry_limit self) × (bound result.1 ≡ operand_limit self) }
        ensures tiled { Tiled (held result.0) (length (held result.1)) }
        ensures total { length (held result.1) ≡ operand_total (nodes (held result.0) (held result.1)) }
    {
        let Arena {
            entries,
            operands,
            ..
        } = self;
        (entries, operands)
    }
}
