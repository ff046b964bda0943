// The text of a module's overrides: a line `id name scalar init` for each.
ghost use Rattle.std.specs.Prelude.{◌≡◌, ℕ, ◌^◌, ◌<◌, IfOk, string_bytes, codes, decimal, MatchOption, MatchResult, ◌≢◌};
ghost use Rattle.std.specs.Option.{option_map};
ghost use Rattle.listing.specs.declared.faults.Fault.TheVariants.{BadId, BadInit};

use crate::faults::{Fault, ListingError, read_lines};
use crate::scalars::read_scalar;
use rounding::Scalar;
use settings::{Identifier, read_decimal};
use std::alloc::{AllocError, Global};

// The largest handle of an expression is one less.
const HANDLES: u32 = 4294967295;

#[derive(Drop)]
pub struct OverrideLine {
    pub id: Option<u16>,
    pub name: Option<String>,
    pub scalar: Scalar,
    pub init: Option<u32>,
}

impl OverrideLine {
    // What it takes a key by.
    pub fn identifier(&self) -> Identifier<'_>
        ensures id { result.id ≡ self.now.id }
        ensures name { option_map (λ x. x.now) result.name ≡ option_map string_bytes self.now.name }
    {
        let name = self.name.as_deref().map(|name| name.as_bytes());
        Identifier { id: self.id, name }
    }
}

fn read_id(word: &str) -> Result<Option<u16>, Fault>
    ensures { MatchResult result (λ o. MatchOption o (word.now ≡ codes "-") (λ n. word.now ≡ decimal n)) (λ e. (e ≡ BadId) × (word.now ≢ codes "-") × ((n : ℕ) → n < 2 ^ 16 → word.now ≢ decimal n)) }
{
    if word == "-" {
        return Ok(None);
    }
    read_decimal(word).map(Some).ok_or(Fault::BadId)
}

fn read_name(heap: Global, word: &str) -> Result<Option<String>, AllocError>
    ensures { IfOk result (λ o. MatchOption o (word.now ≡ codes "-") (λ s. (string_bytes s ≡ word.now) × (word.now ≢ codes "-"))) }
{
    if word == "-" {
        return Ok(None);
    }
    Ok(Some(String::from_str(heap, word)?))
}

fn read_handle(word: &str) -> Result<u32, Fault>
    ensures { MatchResult result (λ n. (n < 4294967295) × (word.now ≡ decimal n)) (λ e. e ≡ BadInit) }
{
    read_decimal::<u32>(word)
        .filter(|handle| *handle < HANDLES)
        .ok_or(Fault::BadInit)
}

// The words after the scalar.
fn read_init(words: &[&str]) -> Result<Option<u32>, Fault> {
    match words {
        [] => Err(Fault::TooFewWords),
        ["-"] => Ok(None),
        ["init", handle] => read_handle(handle).map(Some),
        ["-" | "init", _, ..] => Err(Fault::TooManyWords),
        _ => Err(Fault::BadInit),
    }
}

fn read_override(heap: Global, line: &str) -> Result<OverrideLine, Fault> {
    let words: Vec<&str> = line.split_whitespace().collect(heap)?;
    let [id, name, scalar, init @ ..] = words.as_slice() else {
        return Err(Fault::TooFewWords);
    };
    let id = read_id(id)?;
    let name = read_name(heap, name)?;
    let scalar = read_scalar(scalar).ok_or(Fault::BadScalar)?;
    let init = read_init(init)?;
    Ok(OverrideLine {
        id,
        name,
        scalar,
        init,
    })
}

pub fn read_overrides(heap: Global, text: &str) -> Result<Vec<OverrideLine>, ListingError> {
    read_lines(heap, text, |_, line| read_override(heap, line))
}
