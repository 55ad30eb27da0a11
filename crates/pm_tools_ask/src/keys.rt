//! The keys before the `=` of a line.

ghost use Rattle.std.specs.Prelude.{◌≡◌, ◌<◌, ◌∷◌, IfOk, IfSome, length};
ghost use Rattle.pm_tools_ask.specs.Line.{begins_multiline, is_bare, is_bare_byte, key_of, keys_of, quoted_text};
ghost use Rattle.pm_tools_ask.specs.Quotes.{parts_outside};
ghost use Rattle.pm_tools_ask.specs.Reader.{parts_left};
ghost use Rattle.pm_tools_ask.specs.declared.quotes.Quotes.TheVariants.{Outside};

use crate::quotes::cut_outside;
use base_text::{Items, Text};
use std::alloc::{AllocError, Global};
use toml::Value;

// A letter, a digit, `-` or `_`.
#[tactic(auto, unfolding(crate::specs::Line::is_bare_byte))]
fn is_bare_byte(byte: u8) -> bool
    ensures { result ≡ is_bare_byte byte }
{
    byte.is_ascii_alphanumeric() || byte == b'-' || byte == b'_'
}

// Whether a text is a key without quotes.
fn is_bare(part: &str) -> bool
    ensures { result ≡ is_bare part.now }
{
    for byte in part.as_bytes() {
        if !is_bare_byte(*byte) {
            return false;
        }
    }
    !part.is_empty()
}

// A text in quotes, as TOML reads it.
#[tactic(auto, unfolding(crate::specs::Line::quoted_text))]
fn read_quoted(alloc: Global, part: &str) -> Result<Option<Text>, AllocError>
    ensures { IfOk result (λ key. key ≡ quoted_text part.now) }
{
    let value = match Value::from_str(alloc, part) {
        Ok(value) => value,
        Err(error) if error.is_memory() => return Err(AllocError),
        Err(_error) => return Ok(None),
    };
    match value {
        Value::String(text) => Ok(Some(Text::new(text))),
        _other => Ok(None),
    }
}

// Whether a text begins with three quotes, as a text of several lines would.
fn begins_multiline(part: &str) -> bool
    ensures { result ≡ begins_multiline part.now }
{
    part.starts_with("\"\"\"") || part.starts_with("'''")
}

// The key that a part of KEYS writes.
#[tactic(auto, unfolding(crate::specs::Line::key_of))]
fn read_key(alloc: Global, part: &str) -> Result<Option<Text>, AllocError>
    ensures { IfOk result (λ key. key ≡ key_of part.now) }
{
    if begins_multiline(part) {
        return Ok(None);
    }
    if part.starts_with('"') || part.starts_with('\'') {
        return read_quoted(alloc, part);
    }
    if !is_bare(part) {
        return Ok(None);
    }
    let key = Text::of_str(alloc, part)?;
    Ok(Some(key))
}

// What stands before the first dot outside of quotes, and what follows that dot, if there is one.
fn first_part(text: &str) -> (&str, Option<&str>)
    ensures parts { parts_outside 46 Outside text.now ≡ result.0.now ∷ parts_left result.1 }
    ensures shorter { IfSome result.1 (λ rest. length rest.now < length text.now) }
{
    match cut_outside(text, b'.') {
        Some((part, rest)) => (part, Some(rest)),
        None => (text, None),
    }
}

/// The keys of a text, with dots between them, or None where a part is no key.
pub(crate) fn read_keys(alloc: Global, text: &str) -> Result<Option<Items<Text>>, AllocError>
    ensures { IfOk result (λ keys. keys ≡ keys_of text.now) }
{
    let mut keys = Vec::new(alloc);
    let mut rest = Some(text);
    while let Some(parts) = rest {
        let (part, later) = first_part(parts);
        match read_key(alloc, part)? {
            None => return Ok(None),
            Some(key) => keys.push(key)?,
        }
        rest = later;
    }
    Ok(Some(Items::new(keys)))
}
