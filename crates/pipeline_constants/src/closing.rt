// The finished tables before a walk, and after it.
ghost use Rattle.std.specs.Prelude.{◌≡◌, ◌≤◌, length, vec_items};

use crate::copying::{copy, copy_constants, number_all};
use crate::finished::Finished;
use crate::images::{map_variables, take_inits};
use crate::sizes::Lookup;
use evaluator::Nodes;
use ir::{Sizes, Source};
use refusals::Refusal;

impl Finished {
    ghost use Rattle.arena.specs.Items.{items};
    ghost use Rattle.ir.specs.Tables.{sizes_of};
    ghost use Rattle.pipeline_constants.specs.Beginnings.{Begun, Closed, Copied, Fits, FitsAll, SameRoom, SameWalk, Sized, walk_of};
    ghost use Rattle.pipeline_constants.specs.Contents.{all_taken, variables_mapped};
    ghost use Rattle.pipeline_constants.specs.Lookups.{SizedAs};
    ghost use Rattle.pipeline_constants.specs.Sizings.{sizing};
    ghost use Rattle.pipeline_constants.specs.Views.{written_of};

    // What a walk begins with: the constants, none of them mapped, and the overrides and the variables' inits as they come.
    pub(crate) fn begin(&mut self, source: &Source)
        requires { Fits source.now self.old }
        ensures { Begun source.now self.old self.new }
    {
        copy_constants(&mut self.constants, source.constants.as_slice(), false);
        copy(&mut self.overrides, source.overrides.as_slice());
        copy(&mut self.variables, source.variables.as_slice());
    }

    // All that is written of a module without overrides: its tables as they come.
    pub(crate) fn copy(&mut self, source: &Source)
        requires { FitsAll source.now self.old }
        ensures { Copied source.now self.old self.new }
    {
        copy(&mut self.entries, source.entries.as_slice());
        copy(&mut self.operands, source.operands.as_slice());
        copy_constants(&mut self.constants, source.constants.as_slice(), true);
        copy(&mut self.variables, source.variables.as_slice());
        self.overrides.clear();
        number_all(&mut self.images.values, source.entries.len());
        self.images.written = source.entries.len();
        self.settled.written = 0;
        self.kinds.clear();
    }

    // The sizes, by the literals behind their images.
    fn sizes(&self, sizes: &Sizes) -> Result<Sizes, Refusal>
        ensures { SizedAs (sizing (walk_of self.now) 0 (sizes_of sizes.now)) result }
    {
        let lookup = Lookup {
            nodes: Nodes {
                entries: self.entries.as_slice(),
                operands: self.operands.as_slice(),
            },
            constants: self.constants.as_slice(),
            images: self.images.as_slice(),
        };
        lookup.sizes(sizes)
    }

    // The overrides take the inits of their constants.
    fn take(&mut self, source: &Source)
        requires { Fits source.now self.old }
        ensures overrides { items self.new.overrides ≡ all_taken (walk_of self.old) (vec_items source.now.overrides) }
        ensures variables { self.new.variables ≡ self.old.variables }
        ensures walk { SameWalk self.old self.new }
        ensures room { SameRoom self.old self.new }
    {
        take_inits(
            &mut self.overrides,
            source.overrides.as_slice(),
            self.settled.as_slice(),
            self.constants.as_slice(),
        );
    }

    // The variables' inits are sent to their images.
    fn map_variables(&mut self, source: &Source)
        requires { Fits source.now self.old }
        ensures variables { items self.new.variables ≡ variables_mapped (written_of self.old.images) (vec_items source.now.variables) }
        ensures overrides { self.new.overrides ≡ self.old.overrides }
        ensures walk { SameWalk self.old self.new }
        ensures room { SameRoom self.old self.new }
    {
        map_variables(
            &mut self.variables,
            source.variables.as_slice(),
            self.images.as_slice(),
        );
    }

    // What comes after a walk: all of it where the walk went to its end, else no more than the inits that overrides took by then.
    pub(crate) fn close(
        &mut self,
        source: &Source,
        sizes: &Sizes,
        ended: Result<(), Refusal>,
    ) -> Result<Sizes, Refusal>
        requires { Fits source.now self.old }
        ensures { Closed source.now sizes.now self.old self.new ended result }
    {
        self.take(source);
        ended?;
        self.map_variables(source);
        self.sizes(sizes)
    }
}
