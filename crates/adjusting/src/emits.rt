// An Emit, made anew: its handles are sent to their images, and each longest stretch of what is still to be emitted becomes an Emit.
ghost use Rattle.std.specs.Prelude.{◌≡◌, ◌+◌, ◌<◌, ◌≤◌, min, [], ◌∷◌, length, IfOk, ◌==◌};
ghost use Rattle.arena.specs.Nodes.{node_with};
ghost use Rattle.blocks.specs.Weave.{emits};
ghost use Rattle.adjusting.specs.Emits.{sent_to, kept, struck, emit_of, emits_of};
ghost use Rattle.adjusting.specs.Rules.{add, add_all};

use crate::work::{Work, image_of};
use arena::{Entry, Handle, Range};
use evaluator::needs_pre_emit;
use kinds::Statement;
use refusals::Refusal;

// How many handles are emitted, and how many were struck, every naming counted.
#[derive(Clone, Copy, PartialEq, Eq, Debug)]
pub struct Counts {
    pub emitted: u64,
    pub struck: u64,
}

// The open stretch goes on with this handle.
fn goes_on(range: Range, image: Handle) -> bool
    ensures { result ≡ (image == range.end) }
{
    image == range.index_range().end
}

impl Work<'_, '_, '_> {
    ghost use Rattle.adjusting.specs.Works.{Stepped, entries_of};
    ghost use Rattle.adjusting.specs.Turns.{Counted, Extended, opened};

    // Where an emitted handle goes, unless it is struck.
    #[tactic(auto, unfolding(crate::specs::Emits::sent_to))]
    fn sent_to(&self, handle: Handle) -> Option<Handle>
        ensures { result ≡ sent_to self.now.inputs.images.now (entries_of self.now.inputs) handle }
    {
        let image = image_of(self.inputs.images, handle);
        let kind = self.inputs.entries.kind(image)?;
        (!needs_pre_emit(kind)).then_some(image)
    }

    // An Emit of the open stretch, if there is one.
    fn emit(&mut self, old: Entry, stretch: Option<Range>) -> Result<(), Refusal>
        ensures { Stepped (λ r s. add_all r (opened (node_with old []) stretch) s) self.old self.new result }
    {
        match stretch {
            Some(range) => {
                let handles = range.index_range();
                let words = [handles.start, handles.end, old.words[2], old.words[3]];
                self.push(Statement::Emit as u8, words, &[], old.span)
            }
            None => Ok(()),
        }
    }

    // The open stretch with one more handle; or a new one, after an Emit of the open one.
    fn extend(
        &mut self,
        old: Entry,
        stretch: Option<Range>,
        image: Handle,
    ) -> Result<Range, Refusal>
        requires { image < 4294967295 }
        ensures { Extended (node_with old []) stretch image self.old self.new result }
    {
        if let Some(range) = stretch
            && goes_on(range, image)
        {
            return Ok(Range::new_from_bounds(range.index_range().start, image));
        }
        self.emit(old, stretch)?;
        Ok(Range::new_from_bounds(image, image))
    }

    // The Emits in place of an old one, and what they count.
    pub(crate) fn adjust_emit(&mut self, old: Entry) -> Result<Counts, Refusal>
        ensures wrote { Stepped (λ r s. add_all r (emits_of self.old.inputs.images.now (entries_of self.old.inputs) (node_with old [])) s) self.old self.new result }
        ensures counts { IfOk result (λ counts. Counted self.old.inputs.images.now (entries_of self.old.inputs) (node_with old []) counts) }
    {
        let mut counts = Counts {
            emitted: 0,
            struck: 0,
        };
        let mut stretch = None;
        for handle in old.words[0]..old.words[1] {
            match self.sent_to(handle) {
                Some(image) => {
                    stretch = Some(self.extend(old, stretch, image)?);
                    counts.emitted += 1;
                }
                None => counts.struck += 1,
            }
        }
        self.emit(old, stretch)?;
        Ok(counts)
    }
}
