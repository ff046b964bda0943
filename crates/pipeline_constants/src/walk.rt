// The walk over a module's entries, in the finished tables.
ghost use Rattle.std.specs.Prelude.{◌≡◌, ◌≤◌, length, vec_items};
ghost use Rattle.arena.specs.Appends.{SameLimits};
ghost use Rattle.arena.specs.Items.{limit as bound};

use crate::finished::Finished;
use arena::{Arena, Handle, Table};
use evaluator::{ExpressionKind, Folder, NewConstant};
use ir::Source;
use walking::{Old, Valued, Walked, walk_entries};

impl Finished {
    ghost use Rattle.pipeline_constants.specs.Walks.{WalkedOver, Walking};

    // A walk over a module's entries, after its constants. What the tables held before of entries, images and overrides' constants is gone.
    pub(crate) fn walk<F: Folder>(
        self,
        folder: &F,
        source: &Source,
        values: &[Valued],
        scratch: &mut Table<Handle>,
        kinds: &mut Vec<ExpressionKind>,
    ) -> (Finished, Walked)
        requires wide { length (vec_items source.now.operands) ≤ bound scratch.old }
        requires small { (length (vec_items self.images.values) ≤ 65536) × (bound self.constants ≤ 65536) }
        requires recordable { length (vec_items kinds.old) ≡ bound self.kinds }
        requires numbered { (bound self.entries ≤ 65536) × (bound self.operands ≤ 262144) }
        ensures walked { Walking (F.verdict folder.now) source.now values.now self result.0 result.1 }
        ensures wide { length (vec_items source.now.operands) ≤ bound scratch.new }
        ensures places { length (vec_items kinds.new) ≡ length (vec_items kinds.old) }
    {
        let Finished {
            entries,
            operands,
            mut constants,
            overrides,
            variables,
            mut images,
            mut settled,
            kinds: mut recorded,
        } = self;
        let Some(mut expressions) = Arena::over(entries, operands) else {
            unreachable!()
        };
        let old = Old {
            entries: source.entries.as_slice(),
            operands: source.operands.as_slice(),
            overrides: values,
        };
        let walked = Finished::walk_vecs(
            folder,
            old,
            scratch,
            &mut expressions,
            kinds,
            &mut recorded,
            &mut constants,
            &mut images.values,
            &mut settled.values,
        );
        images.written = walked.images;
        settled.written = walked.settled;
        let (entries, operands) = expressions.into_tables();
        let finished = Finished {
            entries,
            operands,
            constants,
            overrides,
            variables,
            images,
            settled,
            kinds: recorded,
        };
        (finished, walked)
    }

    // A walk in the memory of vectors.
    fn walk_vecs<F: Folder>(
        folder: &F,
        old: Old<'_>,
        scratch: &mut Table<Handle>,
        expressions: &mut Arena,
        kinds: &mut Vec<ExpressionKind>,
        recorded: &mut Table<ExpressionKind>,
        constants: &mut Table<NewConstant>,
        images: &mut Vec<Handle>,
        settled: &mut Vec<u32>,
    ) -> Walked
        requires wide { length old.operands.now ≤ bound scratch.old }
        requires small { (length (vec_items images.old) ≤ 65536) × (bound constants.old ≤ 65536) }
        requires recordable { length (vec_items kinds.old) ≤ bound recorded.old }
        ensures walked { WalkedOver (F.verdict folder.now) old.entry expressions.old (vec_items kinds.old) constants.old (vec_items images.old) (vec_items settled.old)
            expressions.new recorded.new constants.new (vec_items images.new) (vec_items settled.new) result }
        ensures limits { SameLimits expressions.old expressions.new × (bound constants.new ≡ bound constants.old) × (bound recorded.new ≡ bound recorded.old) }
        ensures places { (length (vec_items kinds.new) ≡ length (vec_items kinds.old)) × (length (vec_items images.new) ≡ length (vec_items images.old)) × (length (vec_items settled.new) ≡ length (vec_items settled.old)) }
        ensures wide { length old.entry.operands.now ≤ bound scratch.new }
    {
        match walk_entries(
            folder,
            old,
            scratch,
            expressions,
            kinds.as_mut_slice(),
            recorded,
            constants,
            images.as_mut_slice(),
            settled.as_mut_slice(),
        ) {
            Some(walked) => walked,
            None => unreachable!(),
        }
    }
}
