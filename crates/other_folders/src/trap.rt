// A folder that faults.
ghost use Rattle.std.specs.Prelude.{◌+◌, min};
ghost use Rattle.other_folders.specs.Others.{trap};
ghost use Rattle.other_folders.specs.Traps.{trap_lawful};

use arena::Handle;
use evaluator::{Asked, Constants, Fault, Folder, Tables};
use std::num::NonZeroU8;

// Faults with its code on every expression of one kind. What is below it is asked about the rest.
#[derive(Clone, Copy, PartialEq, Eq)]
pub struct Trap<F> {
    pub kind: u8,
    pub code: NonZeroU8,
    pub below: F,
}

impl<F: Folder> Folder for Trap<F> {
    ghost verdict = { λ s. trap s.kind (min (F.height s.below + 1) 4294967295) s.code.value (F.verdict s.below) };

    ghost height = { λ s. min (F.height s.below + 1) 4294967295 };

    fn layer(&self) -> u32 {
        self.below.layer().saturating_add(1)
    }

    fn consult(
        &self,
        tables: &mut Tables<'_, '_, '_>,
        constants: Constants<'_>,
        expr: Asked<'_>,
    ) -> Result<Option<Handle>, Fault> {
        if expr.kind == self.kind {
            return Err(Fault::Layer {
                layer: self.layer(),
                code: self.code.get(),
            });
        }
        self.below.consult(tables, constants, expr)
    }

    ghost lawful = { λ s. trap_lawful s.kind (min (F.height s.below + 1) 4294967295) s.code.value s.code.ok (F.verdict s.below) (F.lawful s.below) };
}
