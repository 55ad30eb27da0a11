//! Texts of scripts that are generated.

use cases::{Case, Fault};
use live_page::{generated_document, generated_script};
use serde_json::Value;
use std::alloc::Global;

/// The text that a call makes for so many packages.
pub fn answer(alloc: Global, case: Case<'_>) -> Result<Value, Fault> {
    let count = case.number("count");
    match case.text("call") {
        "generated_document" => Ok(Value::String(generated_document(alloc, count)?)),
        "generated_script" => Ok(Value::String(generated_script(alloc, count)?)),
        _ => Err(Fault::Call),
    }
}
