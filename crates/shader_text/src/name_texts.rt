// How the bytes of an override's name are written as one word.
//
// A name that could be taken for nothing else stands as it is. Any other stands in quotes, where \xNN, with two hexadecimal
// digits, is a byte that is not printable ASCII, or is a space, " or \.
ghost use Rattle.std.specs.Prelude.{◌≡◌, ℕ, ◌<◌, List, [], ◌∷◌, ◌++◌, length, IfOk, IfSome, string_bytes, Decides, MatchOption, MatchResult, OnOk};
ghost use Rattle.shader_text.specs.NameTexts.{shown_byte, escape, byte_text, inner, Bytes, BareEnds, Bare, Quoted, Shown};
ghost use Rattle.shader_text.specs.declared.faults.Fault.TheVariants.{OutOfMemory as NoMemory};

use crate::faults::Fault;
use std::alloc::{AllocError, Global};
use std::fmt::Write;

// A byte that a name shows as itself.
fn is_shown(b: u8) -> bool
    ensures { result ≡ shown_byte b }
{
    (b > b' ' && b <= b'~') && (b != b'"' && b != b'\\')
}

// Whether there is something, that is not - alone and has no sign of a run or of a comment in front.
fn has_bare_ends(name: &[u8]) -> bool
    ensures { Decides result (BareEnds name.now) }
{
    !matches!(name, [] | [b'-'] | [b'@' | b'#', ..])
}

// Whether a name may stand as it is.
fn is_bare(name: &[u8]) -> bool
    ensures { Decides result (Bare name.now) }
{
    has_bare_ends(name) && name.iter().all(|b| is_shown(*b))
}

fn push_byte(out: &mut String, b: u8) -> Result<(), AllocError>
    ensures { OnOk result (string_bytes out.new ≡ string_bytes out.old ++ byte_text b) }
{
    if is_shown(b) {
        out.push(char::from(b))
    } else {
        write!(out, "\\x{b:02x}")
    }
}

// Bytes in quotes.
pub(crate) fn quoted(heap: Global, name: &[u8]) -> Result<String, AllocError>
    ensures { IfOk result (λ s. Quoted name.now (string_bytes s)) }
{
    let mut out = String::new(heap);
    out.push('"')?;
    for b in name {
        push_byte(&mut out, *b)?;
    }
    out.push('"')?;
    Ok(out)
}

// A name as `read_name_text` reads it.
pub fn name_text(heap: Global, name: &[u8]) -> Result<String, AllocError>
    ensures { IfOk result (λ s. Shown name.now (string_bytes s)) }
{
    if is_bare(name)
        && let Ok(text) = std::str::from_utf8(name)
    {
        return String::from_str(heap, text);
    }
    quoted(heap, name)
}

// The byte that an escape at the front of the text stands for, and the text after it.
fn first_escape(text: &[u8]) -> Option<(u8, &[u8])>
    ensures shorter { IfSome result (λ x. length x.1.now < length text.now) }
    ensures back { (b : ℕ) (rest : List ℕ) → b < 256 → text.now ≡ escape b ++ rest → MatchOption result ⊥ (λ x. (x.0 ≡ b) × (x.1.now ≡ rest)) }
{
    let [b'\\', b'x', high, low, rest @ ..] = text else {
        return None;
    };
    let high = char::from(*high).to_digit(16)?;
    let low = char::from(*low).to_digit(16)?;
    Some(((16 * high + low) as u8, rest))
}

// The byte at the front of the text, and the text after it.
fn first_byte(text: &[u8]) -> Option<(u8, &[u8])>
    ensures shorter { IfSome result (λ x. length x.1.now < length text.now) }
    ensures back { (b : ℕ) (rest : List ℕ) → b < 256 → text.now ≡ byte_text b ++ rest → MatchOption result ⊥ (λ x. (x.0 ≡ b) × (x.1.now ≡ rest)) }
{
    match text {
        [b, rest @ ..] if is_shown(*b) => Some((*b, rest)),
        _ => first_escape(text),
    }
}

// What a text between quotes is read as.
fn unquoted(heap: Global, text: &[u8]) -> Result<Vec<u8>, Fault>
    ensures { (name : List ℕ) → Bytes name → text.now ≡ inner name → MatchResult result (λ v. v.items ≡ name) (λ e. e ≡ NoMemory) }
{
    let mut name = Vec::new(heap);
    let mut rest = text;
    // No chain: each step takes as many bytes as it reads, or fails.
    while !rest.is_empty() {
        let (byte, after) = first_byte(rest).ok_or(Fault::BadQuotes)?;
        name.push(byte)?;
        rest = after;
    }
    Ok(name)
}

fn read_quoted(heap: Global, after_quote: &[u8]) -> Result<Vec<u8>, Fault>
    ensures { (name : List ℕ) → Bytes name → after_quote.now ≡ inner name ++ (34 ∷ []) → MatchResult result (λ v. v.items ≡ name) (λ e. e ≡ NoMemory) }
{
    let quoted = after_quote.strip_suffix(b"\"").ok_or(Fault::BadQuotes)?;
    unquoted(heap, quoted)
}

// The bytes that stand in quotes.
pub(crate) fn read_bytes(heap: Global, text: &[u8]) -> Result<Vec<u8>, Fault>
    ensures { (name : List ℕ) → Bytes name → Quoted name text.now → MatchResult result (λ v. v.items ≡ name) (λ e. e ≡ NoMemory) }
{
    match text {
        [b'"', rest @ ..] => read_quoted(heap, rest),
        _ => Err(Fault::BadQuotes),
    }
}

// The bytes of a name that is written so. A word that does not begin with a quote is the name itself.
pub fn read_name_text(heap: Global, text: &[u8]) -> Result<Vec<u8>, Fault>
    ensures { (name : List ℕ) → Bytes name → Shown name text.now → MatchResult result (λ v. v.items ≡ name) (λ e. e ≡ NoMemory) }
{
    match text {
        [b'"', rest @ ..] => read_quoted(heap, rest),
        _ => Ok(Vec::from_slice(heap, text)?),
    }
}
