// The words of a listing, as they are read and as they are written: handles, kinds, runs and spans.
ghost use Rattle.std.specs.Prelude.{◌≡◌, ◌≢◌, ℕ, ◌^◌, ◌<◌, ◌⊎◌, Some, IfSome, MatchResult, codes, decimal};
ghost use Rattle.std.specs.List.{slice_get};
ghost use Rattle.shader_text.specs.KindNames.{names_of};
ghost use Rattle.shader_text.specs.Words.{handle_word, init_word, kind_word, pair_word, run_word, span_word};
ghost use Rattle.shader_text.specs.declared.faults.Fault.TheVariants.{BadHandle, BadInit, BadKind, BadRun, BadSpan};

use crate::faults::Fault;
use crate::kind_names::{kind_name, kind_named};
use arena::{ABSENT, Handle, Run, Span};
use operands::Sort;
use settings::read_decimal;
use std::fmt;
use std::fmt::Write;

// The span of an entry that says none.
pub(crate) const NO_SPAN: Span = Span { start: 0, end: 0 };

// The only word.
pub(crate) fn only<'w>(words: &[&'w str]) -> Result<&'w str, Fault> {
    match words {
        [] => Err(Fault::TooFewWords),
        [word] => Ok(*word),
        _ => Err(Fault::TooManyWords),
    }
}

// A handle where none is written -.
pub(crate) fn read_handle(word: &str) -> Result<Handle, Fault>
    ensures { MatchResult result (λ h. word.now ≡ handle_word h) (λ e. (e ≡ BadHandle) × (word.now ≢ codes "-") × ((h : ℕ) → h < 4294967295 → word.now ≢ decimal h)) }
{
    if word == "-" {
        return Ok(ABSENT);
    }
    let handle = read_decimal(word).ok_or(Fault::BadHandle)?;
    if handle == ABSENT {
        return Err(Fault::BadHandle);
    }
    Ok(handle)
}

#[derive(Clone, Copy)]
pub(crate) struct HandleWord(pub(crate) Handle);

impl fmt::Display for HandleWord {
    ghost output = { λ x. Some (handle_word x.0) };

    fn fmt<W: fmt::Write>(&self, f: &mut fmt::Formatter<W>) -> fmt::Result {
        let handle = self.0;
        if handle == ABSENT {
            f.write_str("-")
        } else {
            write!(f, "{handle}")
        }
    }
}

// A handle that may be left out. Any number can stand in such a place.
pub(crate) fn read_init(word: &str) -> Result<Option<Handle>, Fault>
    ensures { MatchResult result (λ o. word.now ≡ init_word o) (λ e. (e ≡ BadInit) × (word.now ≢ codes "-") × ((h : ℕ) → h < 2 ^ 32 → word.now ≢ decimal h)) }
{
    if word == "-" {
        return Ok(None);
    }
    read_decimal(word).map(Some).ok_or(Fault::BadInit)
}

#[derive(Clone, Copy)]
pub(crate) struct InitWord(pub(crate) Option<Handle>);

impl fmt::Display for InitWord {
    ghost output = { λ x. Some (init_word x.0) };

    fn fmt<W: fmt::Write>(&self, f: &mut fmt::Formatter<W>) -> fmt::Result {
        match self.0 {
            Some(handle) => write!(f, "{handle}"),
            None => f.write_str("-"),
        }
    }
}

// A kind by its name or by its number.
pub(crate) fn read_kind(sort: Sort, word: &str) -> Result<u8, Fault>
    ensures { MatchResult result (λ k. (slice_get (names_of sort) k ≡ Some word.now) ⊎ (word.now ≡ decimal k)) (λ e. (e ≡ BadKind) × ((k : ℕ) → slice_get (names_of sort) k ≢ Some word.now) × ((k : ℕ) → k < 2 ^ 8 → word.now ≢ decimal k)) }
{
    if let Some(kind) = kind_named(sort, word) {
        return Ok(kind);
    }
    match read_decimal(word) {
        Some(kind) => Ok(kind),
        None => Err(Fault::BadKind),
    }
}

// A kind by its name, and by its number where it has none.
#[derive(Clone, Copy)]
pub(crate) struct KindWord(pub(crate) Sort, pub(crate) u8);

impl fmt::Display for KindWord {
    ghost output = { λ x. Some (kind_word x.0 x.1) };

    fn fmt<W: fmt::Write>(&self, f: &mut fmt::Formatter<W>) -> fmt::Result {
        let KindWord(sort, kind) = *self;
        match kind_name(sort, kind) {
            Some(name) => f.write_str(name),
            None => write!(f, "{kind}"),
        }
    }
}

// Two numbers with something between them.
fn read_pair(word: &str, between: &str) -> Option<(u32, u32)>
    ensures { IfSome result (λ p. word.now ≡ pair_word between.now p.0 p.1) }
{
    let (left, right) = word.split_once(between)?;
    Some((read_decimal(left)?, read_decimal(right)?))
}

pub(crate) fn read_run(word: &str) -> Result<Run, Fault>
    ensures { MatchResult result (λ r. word.now ≡ run_word r) (λ e. e ≡ BadRun) }
{
    let rest = word.strip_prefix('@').ok_or(Fault::BadRun)?;
    let (at, len) = read_pair(rest, "+").ok_or(Fault::BadRun)?;
    Ok(Run { at, len })
}

#[derive(Clone, Copy)]
pub(crate) struct RunWord(pub(crate) Run);

impl fmt::Display for RunWord {
    ghost output = { λ x. Some (run_word x.0) };

    fn fmt<W: fmt::Write>(&self, f: &mut fmt::Formatter<W>) -> fmt::Result {
        let Run { at, len } = self.0;
        write!(f, "@{at}+{len}")
    }
}

pub(crate) fn read_span(word: &str) -> Result<Span, Fault>
    ensures { MatchResult result (λ s. word.now ≡ span_word s) (λ e. e ≡ BadSpan) }
{
    let (start, end) = read_pair(word, "..").ok_or(Fault::BadSpan)?;
    Ok(Span { start, end })
}

#[derive(Clone, Copy)]
pub(crate) struct SpanWord(pub(crate) Span);

impl fmt::Display for SpanWord {
    ghost output = { λ x. Some (span_word x.0) };

    fn fmt<W: fmt::Write>(&self, f: &mut fmt::Formatter<W>) -> fmt::Result {
        let Span { start, end } = self.0;
        write!(f, "{start}..{end}")
    }
}

// The words of an entry; those that are left out are 0.
pub(crate) fn read_numbers(words: &[&str]) -> Result<[u32; 4], Fault> {
    if words.len() > 4 {
        return Err(Fault::BadWord);
    }
    let mut numbers = [0u32; 4];
    for (number, word) in numbers.iter_mut().zip(words) {
        *number = read_decimal(word).ok_or(Fault::BadWord)?;
    }
    Ok(numbers)
}
