// Whether the tables of a shader are well formed.
ghost use Rattle.std.specs.Prelude.{◌≡◌, IfOk};
ghost use Rattle.inspection.specs.Verdicts.{Judged, tally_of};

use ir::{check_body, check_source};
use refusals::Refusal;
use shader_text::Shader;
use std::alloc::{AllocError, Global};

// Of the module and of each body in order, that it is well formed or the first refusal that applies to it.
#[derive(PartialEq, Eq, Debug, Drop)]
pub struct Verdicts {
    pub module: Result<(), Refusal>,
    pub bodies: Vec<Result<(), Refusal>>,
}

// How many verdicts there are, and how many of them are refusals.
#[derive(Clone, Copy, PartialEq, Eq, Debug)]
pub struct Tally {
    pub verdicts: usize,
    pub refusals: usize,
}

// What the checks say of the module's tables and of each body under them.
pub fn check_shader(heap: Global, shader: &Shader) -> Result<Verdicts, AllocError>
    ensures { IfOk result (λ v. Judged shader.now v) }
{
    let mut bodies = Vec::new(heap);
    for body in &shader.bodies {
        bodies.push(check_body(body, &shader.source))?;
    }
    let module = check_source(&shader.source, &shader.sizes);
    Ok(Verdicts { module, bodies })
}

impl Verdicts {
    pub fn tally(&self) -> Tally
        ensures { result ≡ tally_of self.now }
    {
        let refused = self
            .bodies
            .iter()
            .filter(|verdict| verdict.is_err())
            .count();
        Tally {
            verdicts: self.bodies.len().saturating_add(1),
            refusals: refused.saturating_add(usize::from(self.module.is_err())),
        }
    }
}
