//! Types whose JSON is a text: a name of a closed set, a version, a requirement, a cfg.

ghost use Rattle.std.specs.Prelude.{◌≡◌, ℕ, List, Ok, IfOk, refl, string_bytes};
ghost use Rattle.json_fields.specs.Outcome.{Gives, Reading};
ghost use Rattle.json_fields.specs.TextJson.{text_form_at, text_form_data};
ghost use Rattle.json_fields.specs.Laws.TextForms.{text_form-round_trips};

use crate::place::ReadError;
use crate::reading::{Json, Present, ReadJson, miss};
use serde_json::Value;
use std::alloc::{AllocError, Global};

/// A type whose JSON is a text. Its tables, as those of `ReadJson` and `Json`, follow.
pub trait TextJson: Sized + Drop {
    /// What a text is read as, or a miss of this place.
    ghost of_text: { List ℕ → Reading Self };

    /// The text that is written.
    ghost text_of: { Self → List ℕ };

    fn read_text(alloc: Global, text: &str) -> Result<Self, ReadError>
        ensures exact { Gives result (of_text text.now) };

    fn write_text(&self, alloc: Global) -> Result<String, AllocError>
        ensures { IfOk result (λ text. string_bytes text ≡ text_of self.now) };

    ghost again: { (text : List ℕ) → IfOk (of_text text) (λ x. of_text (text_of x) ≡ Ok x) };
}

impl<T: TextJson> ReadJson for T {
    ghost reads = { text_form_at T.of_text };

    fn read(alloc: Global, value: &Value) -> Result<T, ReadError> {
        match value.as_str() {
            Some(text) => T::read_text(alloc, text),
            None => miss(alloc),
        }
    }
}

impl<T: TextJson> Json for T {
    ghost writes = { text_form_data T.text_of };

    ghost height = { 0 };

    fn write(&self, alloc: Global) -> Result<Value, AllocError> {
        Ok(Value::String(self.write_text(alloc)?))
    }

    ghost round_trips = { text_form-round_trips T.of_text T.text_of T.again };
}

impl<T: TextJson> Present for T {
    ghost present = { λ x. refl };
}
