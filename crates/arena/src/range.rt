// Ranges of handles.
ghost use Rattle.std.specs.Prelude.{◌≡◌, ◌+◌, ◌-◌, ◌<◌, ◌≤◌, min, MatchOption};
ghost use Rattle.std.specs.Iterator.{at_most};

use crate::entry::Handle;

// The handles from `first` up to `end`, which is not among them. There are none where `end` is not past `first`.
#[derive(Clone, Copy, PartialEq, Eq, Debug)]
pub struct Range {
    first: Handle,
    end: Handle,
}

impl Range {
    // The handles from `first` through `last`. None lies in it where `first` is past `last`; and since the absent handle is no
    // handle, it never lies in a range, and a range through it ends before it.
    pub fn new_from_bounds(first: Handle, last: Handle) -> Range
        ensures first { result.first ≡ first }
        ensures end { result.end ≡ min (last + 1) 4294967295 }
    {
        // The absent handle is the largest number, and the sum stops there.
        Range {
            first,
            end: last.saturating_add(1),
        }
    }

    // The first and the last handle, unless there is none.
    pub fn first_and_last(&self) -> Option<(Handle, Handle)>
        ensures { MatchOption result (self.now.end ≤ self.now.first) (λ p. (self.now.first < self.now.end) × (p.0 ≡ self.now.first) × (p.1 + 1 ≡ self.now.end)) }
    {
        let last = self.end.checked_sub(1)?;
        (self.first <= last).then_some((self.first, last))
    }

    // The same numbers, as a range of `std`.
    pub fn index_range(&self) -> std::ops::Range<u32>
        ensures start { result.start ≡ self.now.first }
        ensures end { result.end ≡ self.now.end }
    {
        self.first..self.end
    }
}

// Each handle once, from the first on.
impl Iterator for Range {
    type Item = Handle;

    ghost next_gives = { λ s r t. (t.end ≡ s.end) × MatchOption r ((s.end ≤ s.first) × (t.first ≡ s.first)) (λ h. (s.first < s.end) × (h ≡ s.first) × (t.first ≡ s.first + 1)) };

    ghost remaining = { λ s. at_most (s.end - s.first) };

    fn next(&mut self) -> Option<Handle> {
        let (handle, _) = self.first_and_last()?;
        self.first += 1;
        Some(handle)
    }
}
