ghost use Rattle.std.specs.Prelude.{ℕ, List, take, Decides};
ghost use Rattle.std.specs.Iterator.{AlwaysYields, UpTo, YieldsFirstRef, item_count};
ghost use Rattle.settings.specs.First.{Least};
ghost use Rattle.settings.specs.Layout.{Among, Repeats};
ghost use Rattle.settings.specs.Walks.{keys_left};
ghost use Rattle.settings.specs.Written.{keys_of};

use crate::writing::Setting;

// The keys of a settings file, one after the other.
#[derive(Clone, Copy)]
pub struct Keys<'f> {
    pub(crate) lengths: &'f [u8],
    pub(crate) bytes: &'f [u8],
}

impl<'f> Iterator for Keys<'f> {
    type Item = &'f [u8];

    ghost next_gives = { YieldsFirstRef keys_left };

    ghost remaining = { item_count keys_left };

    fn next(&mut self) -> Option<&'f [u8]> {
        let (length, lengths) = self.lengths.split_first()?;
        let (key, bytes) = self
            .bytes
            .split_at(usize::from(*length).min(self.bytes.len()));
        *self = Keys { lengths, bytes };
        Some(key)
    }
}

// The keys of settings, one after the other. A struct, since a slice's own iterator is no `Copy`, and `clone` can fail.
#[derive(Clone, Copy)]
pub(crate) struct KeysOf<'s> {
    pub(crate) settings: &'s [Setting<'s>],
}

impl<'s> Iterator for KeysOf<'s> {
    type Item = &'s [u8];

    ghost next_gives = { YieldsFirstRef (λ k. keys_of k.settings.now) };

    ghost remaining = { item_count (λ k. keys_of k.settings.now) };

    fn next(&mut self) -> Option<&'s [u8]> {
        Some(self.settings.split_off_first()?.key)
    }
}

// The first key that is equal to an earlier one.
pub(crate) fn first_repeated<'k, K: Iterator<Item = &'k [u8]> + Copy + Drop>(
    keys: K,
) -> Option<usize>
    requires can { K.can_next keys }
    requires few { UpTo (K.remaining keys) 4096 }
    ensures { (ks : List (List ℕ)) → AlwaysYields K.next_gives (λ k. k.now) keys ks → Least (Repeats ks) result }
{
    // A loop: in `position` the check does not cover a closure whose bound names `'k`.
    for (i, key) in keys.enumerate() {
        if has_within(keys, i, key) {
            return Some(i);
        }
    }
    None
}

// Whether bytes are one of the first `n` keys.
fn has_within<'k, K: Iterator<Item = &'k [u8]> + Copy + Drop>(
    keys: K,
    n: usize,
    bytes: &[u8],
) -> bool
    requires can { K.can_next keys }
    requires few { UpTo (K.remaining keys) 4096 }
    ensures { (ks : List (List ℕ)) → AlwaysYields K.next_gives (λ k. k.now) keys ks → Decides result (Among bytes.now (take n ks)) }
{
    keys.take(n).any(|key| key == bytes)
}
