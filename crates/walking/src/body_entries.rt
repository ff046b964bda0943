// A body's entries, one after the other.
ghost use Rattle.std.specs.Prelude.{◌≡◌};
ghost use Rattle.arena.specs.Nodes.{cut, node};
ghost use Rattle.arena.specs.Items.{items};
ghost use Rattle.evaluator.specs.Views.{node_of};
ghost use Rattle.walking.specs.BodyWalks.{body_asked, body_one, body_walk, kept};
ghost use Rattle.walking.specs.BodyWorks.{BodyGave, BodyKept, BodyStepped, body_of, body_room, body_state_of};
ghost use Rattle.walking.specs.Fulls.{body_full, body_refusal_of};
ghost use Rattle.walking.specs.Images.{images_of, mapped};
ghost use Rattle.walking.specs.States.{note_image};

use crate::body_work::BodyWork;
use crate::entries::evaluate;
use crate::images::{adjust, cut, kind_now, words_now};
use crate::work::append;
use arena::{Entry, Handle, Run, Span};
use evaluator::{Asked, Constants, Evaluated, ExpressionKind, Fault, Folder, FullTable};
use places::TableName;
use refusals::Refusal;

impl BodyWork<'_, '_, '_, '_, '_, '_, '_, '_> {
    // Each operand of a run sent to its image; absent ones stay.
    fn adjust(&mut self, run: Run)
        ensures mapped { BodyKept self.old self.new }
        ensures scratch { items self.new.scratch.now ≡ images_of (body_state_of self.old).images (cut run self.old.operands.now) }
    {
        let operands = cut(self.operands, run);
        adjust(self.images.as_slice(), operands, self.scratch);
    }

    // An entry at the end of the table, as Runtime. It stands for itself.
    fn keep(&mut self, kind: u8, words: [u32; 4], span: Span) -> Result<Handle, Refusal>
        ensures { BodyGave (λ r s. kept r (record { kind = kind; words = words; operands = items self.old.scratch.now; span = span }) s) self.old self.new result }
    {
        let expr = Asked {
            kind,
            words,
            operands: self.scratch.as_slice(),
            span,
        };
        append(self.expressions, self.kinds, expr, ExpressionKind::Runtime).map_err(full)
    }

    // What stands for an expression, whose operands are sent to their images by now: the folder's answer, or else the expression
    // itself.
    #[tactic(auto, unfolding(crate::specs::BodyWalks::body_asked))]
    fn write<F: Folder>(
        &mut self,
        folder: &F,
        kind: u8,
        words: [u32; 4],
        span: Span,
    ) -> Result<Handle, Refusal>
        ensures { BodyGave (λ r s. body_asked (F.verdict folder.now) r (record { kind = kind; words = words; operands = items self.old.scratch.now; span = span }) s) self.old self.new result }
    {
        let handle = self.images.len() as u32;
        let expr = Asked {
            kind,
            words,
            operands: self.scratch.as_slice(),
            span,
        };
        let constants = Constants {
            list: self.over.constants,
            globals: Some(self.over.globals),
        };
        let evaluated = evaluate(folder, self.expressions, self.kinds, constants, expr).map_err(
            |fault| refused(handle, fault),
        )?;
        match evaluated {
            Evaluated::Folded(answer) => Ok(answer),
            _ => self.keep(kind, words, span),
        }
    }

    // The image of the next old handle.
    fn note_image(&mut self, image: Handle) -> Result<(), Refusal>
        ensures { BodyStepped (λ r s. note_image r image s) self.old self.new result }
    {
        self.images.push(image).map_err(|_| Refusal::Full {
            table: TableName::HandleTable,
        })
    }

    // An entry's image is what stands for it.
    fn walk_one<F: Folder>(&mut self, folder: &F, entry: Entry) -> Result<(), Refusal>
        ensures { BodyStepped (λ r s. body_one (F.verdict folder.now) r (node self.old.operands.now entry) s) self.old self.new result }
    {
        self.adjust(entry.run);
        let words = words_now(self.over.settled, entry.kind, entry.words);
        let image = self.write(folder, kind_now(entry.kind), words, entry.span)?;
        self.note_image(image)
    }

    // Every entry, in order.
    #[tactic(auto, using(crate::proofs::BodyLefts::body_step))]
    pub(crate) fn walk<F: Folder>(&mut self, folder: &F) -> Result<(), Refusal>
        ensures { BodyStepped (λ r s. body_walk (F.verdict folder.now) r (body_of self.old) s) self.old self.new result }
    {
        for entry in self.entries {
            self.walk_one(folder, *entry)?;
        }
        Ok(())
    }
}

// The refusal for a full table of a body's.
fn full(table: FullTable) -> Refusal
    ensures { result ≡ body_full table }
{
    let table = match table {
        FullTable::Entries => TableName::BodyEntries,
        FullTable::Operands => TableName::BodyOperands,
        FullTable::Kinds => TableName::Kinds,
    };
    Refusal::Full { table }
}

// A folder's fault, at a body's old handle.
fn refused(handle: Handle, fault: Fault) -> Refusal
    ensures { result ≡ body_refusal_of handle fault }
{
    match fault {
        Fault::Layer { layer, code } => Refusal::ConstantEvaluatorError {
            handle,
            layer,
            code,
        },
        Fault::Full(table) => full(table),
    }
}
