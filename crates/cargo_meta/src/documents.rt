//! Documents as JSON values: read by their tables, and written again.

ghost use Rattle.std.specs.Prelude.{◌≡◌, IfOk};
ghost use Rattle.serde_json.specs.View.{view};
ghost use Rattle.json_fields.specs.Document.{IsWholeAgain, whole};
ghost use Rattle.cargo_meta_values.specs.Errors.{GivesDocument};
ghost use Rattle.cargo_meta.specs.Metadata.{metadata_at, metadata_data};

use crate::metadata::Metadata;
use cargo_meta_values::{Error, as_error};
use json_fields::{Json, of_value};
use serde_json::Value;
use std::alloc::{AllocError, Global};

impl Metadata {
    /// Reads a document: `float` where it holds one anywhere, else the first missed place.
    pub fn of_value(alloc: Global, value: &Value) -> Result<Metadata, Error>
        ensures exact { GivesDocument result (whole metadata_at (view value.now)) }
        ensures again { IfOk result (IsWholeAgain metadata_at metadata_data) }
    {
        as_error(of_value(alloc, value))
    }

    /// Writes every field, and leaves out missing default members and null metadata.
    pub fn to_value(&self, alloc: Global) -> Result<Value, AllocError>
        ensures { IfOk result (λ value. view value ≡ metadata_data self.now) }
    {
        self.write(alloc)
    }
}
