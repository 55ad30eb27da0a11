//! Documents: what is written of what was read, or the first place that does not fit.

use cases::{Case, Fault, absolute, copied_answer, error_answer, is_copied, missed_answer};
use pm_json::{Error, ProjectJsonData};
use pm_tools::ProjectJsonFromCommand;
use serde_json::Value;
use std::alloc::Global;

/// What is written of a document, once it is read again, equal, and its copy is equal.
pub fn answer(alloc: Global, case: Case<'_>) -> Result<Value, Fault> {
    match case.text("call") {
        "ProjectJsonData::of_value" => read(alloc, case.member("document")),
        "ProjectJsonFromCommand::try_clone" => copied_project(alloc, case),
        _ => Err(Fault::Call),
    }
}

fn read(alloc: Global, document: &Value) -> Result<Value, Fault> {
    match ProjectJsonData::of_value(alloc, document) {
        Ok(document) => write_document(alloc, &document),
        Err(error) => refusal(alloc, error),
    }
}

// Whether a copy of what a command gave is equal.
fn copied_project(alloc: Global, case: Case<'_>) -> Result<Value, Fault> {
    let buildfile = absolute(alloc, case.text("buildfile"))?;
    match ProjectJsonData::of_value(alloc, case.member("document")) {
        Ok(json_data) => {
            let project = ProjectJsonFromCommand {
                json_data,
                buildfile,
            };
            copied_answer(alloc, &project)
        }
        Err(error) => refusal(alloc, error),
    }
}

fn write_document(alloc: Global, document: &ProjectJsonData) -> Result<Value, Fault> {
    let is_copied = is_copied(alloc, document)?;
    let written = document.to_value(alloc)?;
    match ProjectJsonData::of_value(alloc, &written) {
        Ok(again) if is_copied && again == *document => Ok(written),
        Ok(_) => Err(Fault::Condition),
        Err(error) => refusal(alloc, error),
    }
}

/// Why a document was not read.
pub fn refusal(alloc: Global, error: Error) -> Result<Value, Fault> {
    match error {
        Error::Json { field } => missed_answer(alloc, field.as_str()),
        Error::OutOfMemory => Err(Fault::OutOfMemory),
        _ => error_answer(alloc, "Error"),
    }
}
