// How the bytes of a key are written as text.
//
// A key that is plain text stands as it is. Any other stands in quotes, where \xNN, with two
// hexadecimal digits, is a byte that is not printable ASCII, or is one of = " and \.
ghost use Rattle.std.specs.Prelude.{◌≡◌, ℕ, ◌<◌, List, [], ◌∷◌, ◌++◌, length, IfOk, IfSome, string_bytes, Decides, MatchOption, MatchResult, OnOk};
ghost use Rattle.std.specs.Char.{digit_char};
ghost use Rattle.listing.specs.Quotes.{plain_byte, shown_byte, escape, byte_text, inner, Bytes, PlainEnds, Plain, Shown};
ghost use Rattle.listing.specs.declared.faults.Fault.TheVariants.{OutOfMemory as NoMemory};

use crate::faults::Fault;
use std::alloc::{AllocError, Global};

// A byte that may stand anywhere in a key that is not quoted.
fn is_plain_byte(b: u8) -> bool
    ensures { result ≡ plain_byte b }
{
    (b >= b' ' && b <= b'~') && (b != b'=' && b != b'"')
}

// A byte that a key in quotes shows as itself.
fn is_shown(b: u8) -> bool
    ensures { result ≡ shown_byte b }
{
    is_plain_byte(b) && b != b'\\'
}

// Whether there is something, with no space at either end and no # in front.
fn has_plain_ends(key: &[u8]) -> bool
    ensures { Decides result (PlainEnds key.now) }
{
    !matches!(key, [] | [b' ' | b'#', ..] | [.., b' '])
}

// Whether a key may stand as it is.
fn is_plain(key: &[u8]) -> bool
    ensures { Decides result (Plain key.now) }
{
    has_plain_ends(key) && key.iter().all(|b| is_plain_byte(*b))
}

// A number below 16 as the digit that an escape has for it.
fn hex_char(digit: u8) -> char
    requires { digit < 16 }
    ensures { result ≡ digit_char digit }
{
    char::from_digit(u32::from(digit), 16).unwrap_or('0')
}

fn push_byte(out: &mut String, b: u8) -> Result<(), AllocError>
    ensures { OnOk result (string_bytes out.new ≡ string_bytes out.old ++ byte_text b) }
{
    if is_shown(b) {
        out.push(char::from(b))
    } else {
        // No `write!`: it takes four times as long.
        out.push_str("\\x")?;
        out.push(hex_char(b / 16))?;
        out.push(hex_char(b % 16))
    }
}

fn quoted(heap: Global, key: &[u8]) -> Result<String, AllocError>
    ensures { IfOk result (λ s. string_bytes s ≡ 34 ∷ (inner key.now ++ (34 ∷ []))) }
{
    let mut out = String::new(heap);
    out.push('"')?;
    for b in key {
        push_byte(&mut out, *b)?;
    }
    out.push('"')?;
    Ok(out)
}

// A key as `read_key_text` reads it.
pub fn key_text(heap: Global, key: &[u8]) -> Result<String, AllocError>
    ensures { IfOk result (λ s. Shown key.now (string_bytes s)) }
{
    if is_plain(key)
        && let Ok(text) = std::str::from_utf8(key)
    {
        return String::from_str(heap, text);
    }
    quoted(heap, key)
}

// The byte that an escape at the front of the text stands for, and the text after it.
fn first_escape(text: &[u8]) -> Option<(u8, &[u8])>
    ensures shorter { IfSome result (λ x. length x.1.now < length text.now) }
    ensures back { (b : ℕ) (rest : List ℕ) → b < 256 → text.now ≡ escape b ++ rest → MatchOption result ⊥ (λ x. (x.0 ≡ b) × (x.1.now ≡ rest)) }
{
    let [b'\\', b'x', high, low, rest @ ..] = text else {
        return None;
    };
    let high = char::from(*high).to_digit(16)?;
    let low = char::from(*low).to_digit(16)?;
    Some(((16 * high + low) as u8, rest))
}

// The byte at the front of the text, and the text after it.
fn first_byte(text: &[u8]) -> Option<(u8, &[u8])>
    ensures shorter { IfSome result (λ x. length x.1.now < length text.now) }
    ensures back { (b : ℕ) (rest : List ℕ) → b < 256 → text.now ≡ byte_text b ++ rest → MatchOption result ⊥ (λ x. (x.0 ≡ b) × (x.1.now ≡ rest)) }
{
    match text {
        [b, rest @ ..] if is_shown(*b) => Some((*b, rest)),
        _ => first_escape(text),
    }
}

// What a key's text between quotes is read as.
fn unquoted(heap: Global, text: &[u8]) -> Result<Vec<u8>, Fault>
    ensures { (key : List ℕ) → Bytes key → text.now ≡ inner key → MatchResult result (λ v. v.items ≡ key) (λ e. e ≡ NoMemory) }
{
    let mut key = Vec::new(heap);
    let mut rest = text;
    // No chain: each step takes as many bytes as it reads, or fails.
    while !rest.is_empty() {
        let (byte, after) = first_byte(rest).ok_or(Fault::BadQuotes)?;
        key.push(byte)?;
        rest = after;
    }
    Ok(key)
}

fn read_quoted(heap: Global, after_quote: &[u8]) -> Result<Vec<u8>, Fault>
    ensures { (key : List ℕ) → Bytes key → after_quote.now ≡ inner key ++ (34 ∷ []) → MatchResult result (λ v. v.items ≡ key) (λ e. e ≡ NoMemory) }
{
    let quoted = after_quote.strip_suffix(b"\"").ok_or(Fault::BadQuotes)?;
    unquoted(heap, quoted)
}

// The bytes of a key that is written so, with no spaces around it.
pub fn read_key_text(heap: Global, text: &[u8]) -> Result<Vec<u8>, Fault>
    ensures { (key : List ℕ) → Bytes key → Shown key text.now → MatchResult result (λ v. v.items ≡ key) (λ e. e ≡ NoMemory) }
{
    match text {
        [] => Err(Fault::NoKey),
        [b'"', rest @ ..] => read_quoted(heap, rest),
        _ if is_plain(text) => Ok(Vec::from_slice(heap, text)?),
        _ => Err(Fault::NotPlain),
    }
}
