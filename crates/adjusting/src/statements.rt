// The records of a body, block by block.
ghost use Rattle.std.specs.Prelude.{◌≡◌, ◌+◌, ◌<◌, ◌≤◌, ◌∷◌, ℕ, List, length, Decides, IfOk, Some};
ghost use Rattle.arena.specs.Nodes.{Node, node};
ghost use Rattle.blocks.specs.Blocks.{role_given_to};
ghost use Rattle.blocks.specs.declared.Role.TheVariants.{Closing, Doing};
ghost use Rattle.adjusting.specs.Rules.{add_all, emits_now, finished, strikes_now};

use crate::emits::Counts;
use crate::work::{Work, cut};
use blocks::{Role, blocks_after, role_of};
use ir::Record;
use kinds::Statement;
use refusals::Refusal;

// What a record counts that is no Emit.
const NOTHING: Counts = Counts {
    emitted: 0,
    struck: 0,
};

impl Work<'_, '_, '_> {
    ghost use Rattle.adjusting.specs.Works.{Stepped, entries_of};
    ghost use Rattle.adjusting.specs.Places.{Adjusted, BlockFrom, BlockTo, Passed, StmtFrom, StmtTo, left_of};

    // What a record becomes, and what it counts.
    fn write(&mut self, old: Record) -> Result<Counts, Refusal>
        ensures wrote { Stepped (λ r s. add_all r (finished self.old.inputs.images.now (entries_of self.old.inputs) (node self.old.inputs.operands.now old)) s) self.old self.new result }
        ensures counts { IfOk result (λ counts. (counts.emitted ≡ emits_now self.old.inputs.images.now (entries_of self.old.inputs) (node self.old.inputs.operands.now old))
            × (counts.struck ≡ strikes_now self.old.inputs.images.now (entries_of self.old.inputs) (node self.old.inputs.operands.now old)) × (counts.emitted + counts.struck ≤ 4294967296)) }
    {
        if Statement::try_from(old.kind) == Ok(Statement::Emit) {
            return self.adjust_emit(old);
        }
        let run = cut(self.inputs.operands, old.run);
        self.push(old.kind, old.words, run, old.span)?;
        Ok(NOTHING)
    }

    // One record, without the blocks after it.
    fn adjust_record(&mut self) -> Result<(), Refusal>
        requires { self.old.next < length self.old.inputs.records.now }
        ensures { Adjusted Passed self.old self.new result }
    {
        let old = self.inputs.records[self.next];
        let counts = self.write(old)?;
        self.emitted += counts.emitted;
        self.struck += counts.struck;
        self.next += 1;
        Ok(())
    }

    // Whether the next record is a Close.
    fn closes(&self) -> bool
        requires { self.now.next < length self.now.inputs.records.now }
        ensures { (n : Node) (ns : List Node) → left_of self.now ≡ n ∷ ns → Decides result (role_given_to n ≡ Closing) }
    {
        matches!(role_of(&self.inputs.records[self.next]), Role::Closing)
    }

    // How many blocks stand after the next record.
    fn blocks_due(&self) -> u32
        requires { self.now.next < length self.now.inputs.records.now }
        ensures { (n : Node) (ns : List Node) (count : ℕ) → left_of self.now ≡ n ∷ ns → role_given_to n ≡ Doing count → result ≡ count }
    {
        let old = self.inputs.records[self.next];
        blocks_after(old.kind, old.words[0])
    }

    // One block: its Open, its statements, its Close. At most `depth` blocks are nested in it, itself being the first.
    #[cycle(blocks)]
    pub(crate) fn adjust_block(&mut self, depth: u32) -> Result<(), Refusal>
        requires { BlockFrom depth (left_of self.old) }
        ensures { Adjusted (BlockTo depth) self.old self.new result }
    {
        self.adjust_record()?;
        while !self.closes() {
            self.adjust_stmt(depth - 1)?;
        }
        self.adjust_record()
    }

    // One record with the blocks after it.
    #[cycle(blocks)]
    fn adjust_stmt(&mut self, depth: u32) -> Result<(), Refusal>
        requires { StmtFrom depth (left_of self.old) }
        ensures { Adjusted (StmtTo depth) self.old self.new result }
    {
        let count = self.blocks_due();
        self.adjust_record()?;
        for _ in 0..count {
            self.adjust_block(depth)?;
        }
        Ok(())
    }
}
