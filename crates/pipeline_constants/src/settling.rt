// Settling a module.
ghost use Rattle.std.specs.Prelude.{◌≡◌, ◌≤◌, List, length, vec_items};
ghost use Rattle.arena.specs.Items.{limit as bound};

use crate::finished::{Finished, Written};
use crate::module::Module;
use crate::settled::{Refused, Settled};
use arena::{Handle, Table};
use evaluator::{ExpressionKind, Folder};
use ir::{Sizes, Source};
use overrides::{check_settling, value_overrides};
use refusals::Refusal;
use settings::Settings;
use walking::Valued;

// What a settling with overrides came to: what is finished, and the sizes or the refusal.
#[derive(Drop)]
pub(crate) struct Ended {
    pub(crate) finished: Finished,
    pub(crate) sized: Result<Sizes, Refusal>,
}

impl Finished {
    ghost use Rattle.ir.specs.Tables.{global};
    ghost use Rattle.pipeline_constants.specs.Beginnings.{Fits};
    ghost use Rattle.pipeline_constants.specs.Endings.{Ending};

    // Settles a module whose overrides have these values.
    fn settle<F: Folder>(
        self,
        folder: &F,
        source: &Source,
        sizes: &Sizes,
        values: &[Valued],
        scratch: &mut Table<Handle>,
        kinds: &mut Vec<ExpressionKind>,
    ) -> Ended
        requires fits { Fits source.now self }
        requires wide { length (vec_items source.now.operands) ≤ bound scratch.old }
        requires small { (length (vec_items self.images.values) ≤ 65536) × (bound self.constants ≤ 65536) }
        requires recordable { length (vec_items kinds.old) ≡ bound self.kinds }
        requires numbered { (bound self.entries ≤ 65536) × (bound self.operands ≤ 262144) }
        ensures ended { Ending (F.verdict folder.now) (global source.now sizes.now) values.now self result }
        ensures wide { length (vec_items source.now.operands) ≤ bound scratch.new }
        ensures places { length (vec_items kinds.new) ≡ length (vec_items kinds.old) }
    {
        let mut begun = self;
        begun.begin(source);
        let (mut finished, walked) = begun.walk(folder, source, values, scratch, kinds);
        let sized = finished.close(source, sizes, walked.ended);
        Ended { finished, sized }
    }
}

impl Module {
    ghost use Rattle.std.specs.Prelude.{◌<◌, [], None, Ok};
    ghost use Rattle.evaluator.specs.Verdicts.{Meaning};
    ghost use Rattle.settings.specs.Reading.{given};
    ghost use Rattle.walking.specs.Accepted.{Accepted};
    ghost use Rattle.overrides.specs.Values.{ValuedFor};
    ghost use Rattle.walking.specs.declared.overrides.Valued.{Valued as Value};
    ghost use Rattle.pipeline_constants.specs.Laws.{Answered, SettledAs, Settles, Untouched};
    ghost use Rattle.pipeline_constants.specs.Settlings.{full_at_first};
    ghost use Rattle.pipeline_constants.specs.Views.{room_of, tables_of};

    // Refused before anything is written.
    fn unsettled(self, refusal: Refusal) -> Refused
        ensures untouched { Untouched self result }
        ensures refusal { result.refusal ≡ refusal }
    {
        let written = Written {
            entries: 0,
            operands: 0,
            constants: 0,
            overrides: 0,
            variables: 0,
            images: 0,
            settled: 0,
            kinds: 0,
        };
        Refused {
            module: self,
            refusal,
            written,
        }
    }

    // Without overrides: the tables as they come.
    fn copied(self) -> Settled
        requires accepted { Accepted (tables_of self) }
        requires room { full_at_first (room_of self) (tables_of self) ≡ None }
        requires bare { vec_items self.source.overrides ≡ [] }
        ensures { (f : Meaning) → SettledAs f self [] result }
    {
        let Module {
            source,
            sizes,
            mut finished,
            scratch,
            kinds,
            mut values,
        } = self;
        finished.copy(&source);
        values.clear();
        let module = Module {
            source,
            sizes,
            finished,
            scratch,
            kinds,
            values,
        };
        Settled { module }
    }

    // With overrides: by a walk.
    fn walked<F: Folder>(self, settings: &Settings<'_>, folder: &F) -> Result<Settled, Refused>
        requires accepted { Accepted (tables_of self) }
        requires room { full_at_first (room_of self) (tables_of self) ≡ None }
        requires some { 0 < length (vec_items self.source.overrides) }
        ensures { (os : List Value) × ValuedFor (given settings.now) (vec_items self.source.names) (vec_items self.source.overrides) os × Answered (F.verdict folder.now) self os result }
    {
        let Module {
            source,
            sizes,
            finished,
            mut scratch,
            mut kinds,
            mut values,
        } = self;
        value_overrides(settings, &source, &mut values);
        let ended = finished.settle(
            folder,
            &source,
            &sizes,
            values.as_slice(),
            &mut scratch,
            &mut kinds,
        );
        let finished = ended.finished;
        match ended.sized {
            Ok(sizes) => {
                let module = Module {
                    source,
                    sizes,
                    finished,
                    scratch,
                    kinds,
                    values,
                };
                Ok(Settled { module })
            }
            Err(refusal) => {
                let written = finished.written();
                let module = Module {
                    source,
                    sizes,
                    finished,
                    scratch,
                    kinds,
                    values,
                };
                Err(Refused {
                    module,
                    refusal,
                    written,
                })
            }
        }
    }

    // Settles the module by a settings file. What the file and the tables are refused for comes first, and then a finished table without
    // room for what a settling begins with: nothing is written. Then the tables are copied, or the entries walked and the sizes set. A
    // refused module is given back, and can be settled again.
    pub fn settle<F: Folder>(self, file: &[u8], folder: &F) -> Result<Settled, Refused>
        ensures { Settles (F.verdict folder.now) file.now self result }
    {
        let settings = match check_settling(file, &self.source, &self.sizes) {
            Ok(settings) => settings,
            Err(refusal) => return Err(self.unsettled(refusal)),
        };
        if let Some(table) = self.full_at_first() {
            return Err(self.unsettled(Refusal::Full { table }));
        }
        if self.source.overrides.is_empty() {
            return Ok(self.copied());
        }
        self.walked(&settings, folder)
    }
}
