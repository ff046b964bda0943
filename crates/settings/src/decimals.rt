// Numbers as they are written in decimal: digits, with no sign and no zero in front.
ghost use Rattle.std.specs.Prelude.{◌≡◌, ℕ, ◌^◌, ◌<◌, ◌≤◌, List, Result, Decides, decimal, MatchOption, ◌≢◌};
ghost use Rattle.std.proofs.Common.{lit≤};
ghost use Rattle.std.specs.Str.Parse.{ParsesUnsigned};
ghost use Rattle.std.specs.Result.{result_map_both};
ghost use Rattle.settings.specs.Decimals.{Ill, parsed};

use std::str::FromStr;

// An unsigned integer, of so many bits.
pub trait Decimal: FromStr {
    ghost bits: { ℕ };

    ghost number: { Self → ℕ };

    ghost few: { bits ≤ 64 };

    ghost parses: { (text : List ℕ) (r : Result Self Self.Err) → Self.from_str_gives text r → ParsesUnsigned bits 10 text (result_map_both number (λ e. e) r) };
}

impl Decimal for u8 {
    ghost bits = { 8 };

    ghost number = { λ n. n };

    ghost few = { lit≤ tt };

    ghost parses = { λ text r h. parsed 8 text r h.0 };
}

impl Decimal for u16 {
    ghost bits = { 16 };

    ghost number = { λ n. n };

    ghost few = { lit≤ tt };

    ghost parses = { λ text r h. parsed 16 text r h.0 };
}

impl Decimal for u32 {
    ghost bits = { 32 };

    ghost number = { λ n. n };

    ghost few = { lit≤ tt };

    ghost parses = { λ text r h. parsed 32 text r h.0 };
}

// The number that a word is the decimal writing of, if the type has it.
pub fn read_decimal<N: Decimal + Drop>(word: &str) -> Option<N>
where
    N::Err: Drop,
    ensures { MatchOption result ((n : ℕ) → n < 2 ^ N.bits → word.now ≢ decimal n) (λ x. word.now ≡ decimal (N.number x)) }
{
    if is_ill(word.as_bytes()) {
        return None;
    }
    word.parse::<N>().ok()
}

// Whether a sign or a needless zero stands in front.
fn is_ill(word: &[u8]) -> bool
    ensures { Decides result (Ill word.now) }
{
    matches!(word, [b'+', ..] | [b'0', _, ..])
}
