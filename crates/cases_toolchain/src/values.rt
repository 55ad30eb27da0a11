//! The values of a printed configuration.

use crate::origins::{item_of_case, root_answer, text_of_case};
use base_text::Text;
use cases::{Case, Fault, text_answer, texts};
use pm_tools_ask::CargoConfigFile;
use serde_json::Value;
use std::alloc::{AllocError, Global};

/// What a call of a printed configuration gives.
pub fn answer(alloc: Global, case: Case<'_>) -> Result<Value, Fault> {
    let file = CargoConfigFile::from_text(text_of_case(alloc, case)?);
    let keys = texts(alloc, case, "keys")?;
    of_file(alloc, case, &file, keys.as_slice())
}

fn of_file(
    alloc: Global,
    case: Case<'_>,
    file: &CargoConfigFile,
    keys: &[Text],
) -> Result<Value, Fault> {
    match case.text("call") {
        "CargoConfigFile::get" => value_answer(alloc, file.get(alloc, keys)),
        "CargoConfigFile::origin_root" => {
            let item = item_of_case(case);
            root_answer(alloc, file.origin_root(alloc, keys, item))
        }
        _ => Err(Fault::Call),
    }
}

fn value_answer(
    alloc: Global,
    value: Result<Option<toml::Value>, AllocError>,
) -> Result<Value, Fault> {
    match value? {
        Some(value) => show_value(alloc, &value),
        None => Ok(Value::Null),
    }
}

// A text or a flag as it is, and the number of a list's items or of a table's keys.
fn show_value(alloc: Global, value: &toml::Value) -> Result<Value, Fault> {
    match value {
        toml::Value::String(text) => text_answer(alloc, text.as_str()),
        toml::Value::Boolean(flag) => Ok(Value::from(*flag)),
        toml::Value::Integer(number) => Ok(Value::from(*number)),
        toml::Value::Array(items) => Ok(Value::from(items.len())),
        toml::Value::Table(members) => Ok(Value::from(members.len())),
        _other => Err(Fault::Condition),
    }
}
