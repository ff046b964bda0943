// What stands in a table of entries or of records.
ghost use Rattle.std.specs.Prelude.{◌≡◌, ℕ, ◌<◌, true, ◌==◌, count_by, slice_index};
ghost use Rattle.places.specs.First.{Least, Holds};
ghost use Rattle.inspection.specs.Verdicts.{covers};

use arena::{Entry, Run};

// How many kinds a byte can tell apart.
pub(crate) const KINDS: usize = 256;

// How often each kind stands in a table, unknown ones too.
pub fn kind_counts(entries: &[Entry]) -> [usize; 256]
    ensures { (k : ℕ) → k < 256 → slice_index result k ≡ count_by (λ e. e.kind == k) entries.now }
{
    let mut counts = [0usize; KINDS];
    for entry in entries {
        counts[usize::from(entry.kind)] += 1;
    }
    counts
}

// Whether an operand stands in a run.
fn is_in(run: Run, operand: usize) -> bool
    ensures { result ≡ covers operand run }
{
    (run.at as usize) <= operand && operand < run.at as usize + run.len as usize
}

// The first entry whose operands have the one at an index of their list.
pub fn first_with(entries: &[Entry], operand: usize) -> Option<usize>
    ensures { Least (Holds (λ _ e. covers operand e.run ≡ true) entries.now) result }
{
    entries.iter().position(|entry| is_in(entry.run, operand))
}
