//! A whole document, whose reader reports the first miss by its whole place.

ghost use Rattle.std.specs.Prelude.{◌≡◌, ◌≤◌, ℕ, max, false, IfOk, string_bytes};
ghost use Rattle.serde_json.specs.Data.{Data, depth};
ghost use Rattle.serde_json.specs.Read.{max_depth};
ghost use Rattle.serde_json.specs.View.{view};
ghost use Rattle.serde_json.specs.Written.{IsInOrder, compact_text, has_float};
ghost use Rattle.json_fields.specs.Document as documents;
ghost use Rattle.json_fields.specs.Document.{IsWholeAgain, normal_form, whole};
ghost use Rattle.json_fields.specs.Outcome.{Gives, GivesBy};
ghost use Rattle.json_fields.specs.RoundTrip.{RoundTrips};

use crate::floats::holds_float;
use crate::place::{ReadError, whole_place};
use crate::reading::{Json, ReadJson};
use base_values::Text;
use serde_json::Value;
use std::alloc::{AllocError, Global};

/// Reads a document's value. It is refused as `float` where it holds one anywhere, else by the
/// first place that its table misses.
#[tactic(auto, unfolding(crate::specs::Document::whole))]
pub fn of_value<T: ReadJson>(alloc: Global, value: &Value) -> Result<T, ReadError>
    ensures exact { Gives result (whole T.reads (view value.now)) }
    ensures again { (writes : T → Data) (height : ℕ) → RoundTrips T.reads writes height
        → IfOk result (IsWholeAgain T.reads writes) }
    ensures nests { (writes : T → Data) (height : ℕ) → RoundTrips T.reads writes height
        → IfOk result (λ x. depth (writes x) ≤ max height (depth (view value.now))) }
{
    if holds_float(value) {
        return Err(ReadError::Missed(Text::of_str(alloc, "float")?));
    }
    match T::read(alloc, value) {
        Ok(x) => Ok(x),
        Err(ReadError::Missed(place)) => Err(ReadError::Missed(whole_place(alloc, place)?)),
        Err(ReadError::OutOfMemory) => Err(ReadError::OutOfMemory),
    }
}

/// Reads a document's text. It is refused as `syntax` where it is no JSON or nests too deep.
#[tactic(auto, unfolding(crate::specs::Document::document))]
pub fn of_text<T: ReadJson>(alloc: Global, text: &str) -> Result<T, ReadError>
    ensures exact { Gives result (documents.document T.reads text.now) }
    ensures again { (writes : T → Data) (height : ℕ) → RoundTrips T.reads writes height
        → IfOk result (IsWholeAgain T.reads writes) }
    ensures nests { (writes : T → Data) (height : ℕ) → RoundTrips T.reads writes height
        → IfOk result (λ x. depth (writes x) ≤ max height max_depth) }
{
    match Value::from_str(alloc, text) {
        Ok(value) => of_value(alloc, &value),
        Err(error) => {
            if error.is_memory() {
                return Err(ReadError::OutOfMemory);
            }
            Err(ReadError::Missed(Text::of_str(alloc, "syntax")?))
        }
    }
}

/// Reads a document of bytes. It is refused as `syntax` also where the bytes are not UTF-8.
#[tactic(auto, unfolding(crate::specs::Document::document))]
pub fn of_bytes<T: ReadJson>(alloc: Global, bytes: &[u8]) -> Result<T, ReadError>
    ensures exact { Gives result (documents.bytes_document T.reads bytes.now) }
    ensures again { (writes : T → Data) (height : ℕ) → RoundTrips T.reads writes height
        → IfOk result (IsWholeAgain T.reads writes) }
    ensures nests { (writes : T → Data) (height : ℕ) → RoundTrips T.reads writes height
        → IfOk result (λ x. depth (writes x) ≤ max height max_depth) }
{
    match std::str::from_utf8(bytes) {
        Ok(text) => of_text(alloc, text),
        Err(_) => Err(ReadError::Missed(Text::of_str(alloc, "syntax")?)),
    }
}

/// The document's text: the items and members of the value that is written, each once and in order.
/// Where that value holds no float this is its compact text. Unless the value nests too deep for a
/// text, the same is read of the text as of the value.
#[tactic(auto, unfolding(crate::specs::Document::document))]
pub fn to_text<T: Json>(alloc: Global, document: &T) -> Result<String, AllocError>
    ensures text { IfOk result (λ text. has_float (T.writes document.now) ≡ false
        → string_bytes text ≡ compact_text (T.writes document.now)) }
    ensures order { IfOk result (λ text. IsInOrder (string_bytes text) (T.writes document.now)) }
    ensures again { IfOk result (λ text. depth (T.writes document.now) ≤ max_depth
        → documents.document T.reads (string_bytes text) ≡ whole T.reads (T.writes document.now)) }
{
    let value = document.write(alloc)?;
    value.to_string(alloc)
}

/// Reads a document and writes it again, as a compact text of which the same is read.
pub fn normal_text<T: Json>(alloc: Global, text: &str) -> Result<String, ReadError>
    requires { T.height ≤ max_depth }
    ensures exact { GivesBy string_bytes result (normal_form T.reads T.writes text.now) }
    ensures again { IfOk result (λ normal. documents.document T.reads (string_bytes normal)
        ≡ documents.document T.reads text.now) }
{
    let document: T = of_text(alloc, text)?;
    Ok(to_text(alloc, &document)?)
}
