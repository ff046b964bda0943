// Numbers that a walk writes one after the other.
use std::alloc::{AllocError, Global};

// Memory for numbers, of which the first so many are written. A walk borrows the memory, and says afterwards how many it wrote.
#[derive(Drop)]
pub(crate) struct Slots {
    pub(crate) values: Vec<u32>,
    pub(crate) written: usize,
}

impl Slots {
    ghost use Rattle.std.specs.Prelude.{◌≡◌, [], length, IfOk, vec_items};
    ghost use Rattle.pipeline_constants.specs.Views.{written_of, places_of};

    pub(crate) fn with_limit(heap: Global, limit: usize) -> Result<Slots, AllocError>
        ensures { IfOk result (λ s. (written_of s ≡ []) × (places_of s ≡ limit)) }
    {
        let values = vec![in heap; 0u32; limit]?;
        Ok(Slots { values, written: 0 })
    }

    pub(crate) fn limit(&self) -> usize
        ensures { result ≡ places_of self.now }
    {
        self.values.len()
    }

    // The numbers that are written.
    pub(crate) fn as_slice(&self) -> &[u32]
        ensures { result.now ≡ written_of self.now }
    {
        let values = self.values.as_slice();
        &values[..self.written.min(values.len())]
    }
}
