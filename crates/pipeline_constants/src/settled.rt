// A settled module, and a module that was not settled.
ghost use Rattle.std.specs.Prelude.{◌≡◌};
ghost use Rattle.pipeline_constants.specs.Standing.{Stands};

use crate::finished::{Finished, Written};
use crate::module::Module;
use ir::{Sizes, Source};
use refusals::Refusal;

// A settled module. Only `settle` makes one.
#[derive(Drop)]
pub struct Settled {
    pub(crate) module: Module,
    ghost stands: { ∥ Stands «module» ∥₁ },
}

// A module that was not settled, why, and how much of its finished tables was written by then.
#[derive(Drop)]
pub struct Refused {
    pub module: Module,
    pub refusal: Refusal,
    pub written: Written,
}

impl Settled {
    // The tables as they came.
    pub fn source(&self) -> &Source
        ensures { result.now ≡ self.now.module.source }
    {
        &self.module.source
    }

    // The sizes of this settling.
    pub fn sizes(&self) -> &Sizes
        ensures { result.now ≡ self.now.module.sizes }
    {
        &self.module.sizes
    }

    pub fn finished(&self) -> &Finished
        ensures { result.now ≡ self.now.module.finished }
    {
        &self.module.finished
    }

    // The module, to be settled anew: its tables as before settling, its sizes as they were set.
    pub fn reopen(self) -> Module
        ensures { result ≡ self.module }
    {
        self.module
    }
}
