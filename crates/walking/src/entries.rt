// Entries, one after the other.
ghost use Rattle.std.specs.Prelude.{◌≡◌, slice_index};
ghost use Rattle.arena.specs.Nodes.{cut, node};
ghost use Rattle.arena.specs.Items.{items};
ghost use Rattle.evaluator.specs.Consulted.{TriedIn};
ghost use Rattle.evaluator.specs.Views.{constants_of, node_of};
ghost use Rattle.walking.specs.Images.{images_of, kind_now, mapped, words_now};
ghost use Rattle.walking.specs.Modules.{walk_module};
ghost use Rattle.walking.specs.Walks.{ask_mapped, prepared, walk, walk_all, walk_one};
ghost use Rattle.walking.specs.Works.{Consulted, Mapped, Stepped, old_of, state_of};
ghost use Rattle.walking.specs.Fulls.{refusal_of};

use crate::images::{adjust, cut, kind_now, words_now};
use crate::overrides::Valued;
use crate::work::{Work, full};
use arena::{Arena, Entry, Handle, Run, Span};
use evaluator::{Asked, Constants, Evaluated, ExpressionKindTracker, Fault, Folder, Tables};
use kinds::Expression;
use refusals::Refusal;

impl Work<'_, '_, '_, '_, '_, '_, '_, '_, '_, '_> {
    // Each operand of a run sent to its image; absent ones stay.
    fn adjust(&mut self, run: Run)
        ensures mapped { Mapped (λ s. s) self.old self.new }
        ensures scratch { items self.new.scratch.now ≡ images_of (state_of self.old).images (cut run self.old.operands.now) }
    {
        let operands = cut(self.operands, run);
        adjust(self.images.as_slice(), operands, self.scratch);
    }

    // Asks the folder about an expression, whose operands are sent to their images by now.
    fn consult<F: Folder>(
        &mut self,
        folder: &F,
        kind: u8,
        words: [u32; 4],
        span: Span,
    ) -> Result<Handle, Refusal>
        ensures { Consulted (F.verdict folder.now) (record { kind = kind; words = words; operands = items self.old.scratch.now; span = span }) self.old self.new result }
    {
        let handle = self.images.len() as u32;
        let expr = Asked {
            kind,
            words,
            operands: self.scratch.as_slice(),
            span,
        };
        let constants = Constants {
            list: self.constants.as_slice(),
            globals: None,
        };
        let evaluated = evaluate(folder, self.expressions, self.kinds, constants, expr).map_err(
            |fault| refused(handle, fault),
        )?;
        match evaluated {
            Evaluated::Folded(answer) => Ok(answer),
            Evaluated::Declined => Err(Refusal::ConstantEvaluatorError {
                handle,
                layer: 0,
                code: 0,
            }),
            Evaluated::NotConst => Err(Refusal::RuntimeExpr { handle }),
        }
    }

    // An entry's image is what the folder answers for it.
    fn ask<F: Folder>(&mut self, folder: &F, entry: Entry) -> Result<(), Refusal>
        ensures { Stepped (λ r s. ask_mapped (F.verdict folder.now) r (node self.old.operands.now entry) s) self.old self.new result }
    {
        self.adjust(entry.run);
        let words = words_now(self.settled.as_slice(), entry.kind, entry.words);
        let answer = self.consult(folder, kind_now(entry.kind), words, entry.span)?;
        self.note_image(answer)
    }

    // What has to stand before an entry is asked about.
    fn prepare(&mut self, overrides: &[Valued], entry: Entry) -> Result<(), Refusal>
        ensures { Stepped (λ r s. prepared r overrides.now entry.kind (slice_index entry.words 0) s) self.old self.new result }
    {
        let number = entry.words[0];
        match Expression::try_from(entry.kind) {
            Ok(Expression::Override) => self.settle_up_to(overrides, number),
            Ok(Expression::Constant) => {
                self.map_constant(number as usize);
                Ok(())
            }
            _ => Ok(()),
        }
    }

    fn walk_one<F: Folder>(
        &mut self,
        folder: &F,
        overrides: &[Valued],
        entry: Entry,
    ) -> Result<(), Refusal>
        ensures { Stepped (λ r s. walk_one (F.verdict folder.now) r overrides.now (node self.old.operands.now entry) s) self.old self.new result }
    {
        self.prepare(overrides, entry)?;
        self.ask(folder, entry)
    }

    // Every entry, in order.
    #[tactic(auto, using(crate::proofs::Lefts::walk_step))]
    fn walk<F: Folder>(&mut self, folder: &F, overrides: &[Valued]) -> Result<(), Refusal>
        ensures { Stepped (λ r s. walk (F.verdict folder.now) r overrides.now (old_of self.old) s) self.old self.new result }
    {
        for entry in self.entries {
            self.walk_one(folder, overrides, *entry)?;
        }
        Ok(())
    }

    // Every entry, and then the overrides that no entry has settled.
    fn walk_all<F: Folder>(&mut self, folder: &F, overrides: &[Valued]) -> Result<(), Refusal>
        ensures { Stepped (λ r s. walk_all (F.verdict folder.now) r overrides.now (old_of self.old) s) self.old self.new result }
    {
        self.walk(folder, overrides)?;
        self.settle_rest(overrides)
    }

    // And then the constants that are left.
    pub(crate) fn walk_module<F: Folder>(
        &mut self,
        folder: &F,
        overrides: &[Valued],
    ) -> Result<(), Refusal>
        ensures { Stepped (λ r s. walk_module (F.verdict folder.now) r overrides.now (old_of self.old) s) self.old self.new result }
    {
        self.walk_all(folder, overrides)?;
        self.map_rest();
        Ok(())
    }
}

// Asks the folder about an expression, over tables that are lent.
pub(crate) fn evaluate<F: Folder>(
    folder: &F,
    expressions: &mut Arena,
    kinds: &mut ExpressionKindTracker<'_>,
    constants: Constants<'_>,
    expr: Asked<'_>,
) -> Result<Evaluated, Fault>
    ensures tried { TriedIn (F.verdict folder.now) (constants_of constants.entry) (node_of expr.entry) expressions.old kinds.old expressions.new kinds.new result }
    ensures lender { kinds.new.inner.slots.ghost_name ≡ kinds.old.inner.slots.ghost_name }
{
    let mut tables = Tables {
        expressions,
        expression_kind_tracker: kinds,
    };
    tables.try_eval_and_append(folder, constants, expr)
}

// A folder's fault, at an old handle.
fn refused(handle: Handle, fault: Fault) -> Refusal
    ensures { result ≡ refusal_of handle fault }
{
    match fault {
        Fault::Layer { layer, code } => Refusal::ConstantEvaluatorError {
            handle,
            layer,
            code,
        },
        Fault::Full(table) => full(table),
    }
}
