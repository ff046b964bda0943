// Rounding by bits: the value of a narrower binary format that is nearest to a double.
//
// One function serves every format, by its digits and its largest exponent.
ghost use Rattle.std.specs.Prelude.{◌≡◌, ◌+◌, ◌*◌, ◌^◌, ◌<◌, ◌≤◌};
ghost use Rattle.rounding.specs.Formats.{double, weight, infinity, sign_bit_of, significand, doublings, magnitude};
ghost use Rattle.rounding.specs.Nearest.{Nearest};
ghost use Rattle.rounding.specs.Shifts.{Rounded};

use std::cmp::Ordering;
use std::marker::Model;

// A binary format of IEEE 754 that a double rounds to: how many binary digits a significand has,
// the leading one counted, and the exponent of the largest values.
#[derive(Clone, Copy)]
pub(crate) struct Format {
    digits: u64,
    emax: u64,
}

// Clauses see the record of specs/, which a double's format is too.
impl Model for Format {
    ghost use Rattle.rounding.specs.Formats.{Format as Shape};
    ghost use Rattle.rounding.specs.Shifts.{Narrow};

    ghost Value = { Shape };

    ghost view = { λ f. record { digits = f.digits; emax = f.emax } };

    ghost invariant = { λ f. Narrow (record { digits = f.digits; emax = f.emax }) };

    ghost inverse = { λ f. record { digits = f.digits; emax = f.emax } };
}

pub(crate) const HALF: Format = Format {
    digits: 11,
    emax: 15,
};

pub(crate) const SINGLE: Format = Format {
    digits: 24,
    emax: 127,
};

// The weight of a double's leading digit.
const LEADING: u64 = 1 << 52;

// A significand that is shifted further is less than half of the smallest value.
const LONGEST_SHIFT: u64 = 54;

// The significand of a finite double, and how often it is doubled.
#[derive(Clone, Copy)]
struct Parts {
    significand: u64,
    doublings: u64,
    ghost few_digits: { significand < 2 ^ 53 },
    ghost few_doublings: { doublings < 2046 },
}

impl Parts {
    #[tactic(auto, unfolding(crate::specs::Formats::significand, crate::specs::Formats::doublings))]
    fn of(bits: u64) -> Parts
        requires { bits < infinity double }
        ensures significand { result.significand ≡ significand double bits }
        ensures doublings { result.doublings ≡ doublings double bits }
    {
        let significand = if bits < LEADING {
            bits
        } else {
            LEADING + bits % LEADING
        };
        Parts {
            significand,
            doublings: (bits / LEADING).saturating_sub(1),
        }
    }
}

// `m` / 2^`drop`, to the nearest whole number and at a tie to the even one.
fn rounded_shift(m: u64, drop: u64) -> u64
    requires { (m < 2 ^ 53) × (drop < 64) }
    ensures nearest { Rounded m (2 ^ drop) result }
    ensures bound { result ≤ 2 ^ 53 }
{
    let unit = 1u64 << drop;
    let kept = m / unit;
    let lost = m % unit;
    match (2 * lost).cmp(&unit) {
        Ordering::Less => kept,
        Ordering::Equal => kept + kept % 2,
        Ordering::Greater => kept + 1,
    }
}

impl Format {
    // So many of the exponent's fields, at their place in a pattern.
    fn fields(self, count: u64) -> u64
        requires { count < 2 ^ 12 }
        ensures value { result ≡ count * weight self }
        ensures bound { result < 2 ^ 35 }
    {
        count << (self.digits - 1)
    }

    // The infinity's pattern, which every finite pattern is below.
    pub(crate) fn infinity(self) -> u64
        ensures { result ≡ infinity self }
    {
        self.fields(2 * self.emax + 1)
    }

    // The sign's weight in a pattern.
    pub(crate) fn sign_bit(self) -> u64
        ensures value { result ≡ sign_bit_of self }
        ensures bound { result < 2 ^ 35 }
    {
        self.fields(2 * self.emax + 2)
    }

    // The pattern of the value that is nearest to the finite double of the pattern `bits`. The
    // signs are clear, and the infinity's pattern stands for 2^(`emax` + 1).
    pub(crate) fn nearest(self, bits: u64) -> u64
        requires { bits < infinity double }
        ensures { Nearest self (magnitude double bits) result }
    {
        let parts = Parts::of(bits);
        // the smallest value of the format is 2^`step` units
        let step = 1076 - (self.digits + self.emax);
        // above so many fields the digits stand that are kept, and so many are dropped
        let field = (parts.doublings + 53 - self.digits).saturating_sub(step);
        let drop = field + step - parts.doublings;
        if drop > LONGEST_SHIFT {
            return 0;
        }
        let pattern = self.fields(field) + rounded_shift(parts.significand, drop);
        pattern.min(self.infinity())
    }
}
