//! Documents by tables: what is written of what was read, or the first place that does not fit.

use crate::release::Release;
use base_text::{ByText, Items, Text};
use cargo_msgs::{Diagnostic, DiagnosticSpan};
use cases::{Case, Fault, error_answer, missed_answer};
use json_fields::{BareError, Json, ReadError, bare_version, normal_text, of_text, to_text};
use serde_json::Value;
use std::alloc::{AllocError, Global};

// Lists of maps of lists of maps, and lists of texts in the innermost.
type ListsByKey = ByText<Items<ByText<Items<ByText<Items<Text>>>>>>;

/// What a call on a document gives.
pub fn answer(alloc: Global, case: Case<'_>) -> Result<Value, Fault> {
    let text = case.text("text");
    match case.text("call") {
        "Release" => round_trip::<Release>(alloc, text),
        "normal_text" => written_answer(alloc, normal_text::<Release>(alloc, text)),
        "texts" => round_trip::<Items<Text>>(alloc, text),
        "lists_by_key" => round_trip::<ListsByKey>(alloc, text),
        "Diagnostic" => round_trip::<Diagnostic>(alloc, text),
        "Span" => round_trip::<DiagnosticSpan>(alloc, text),
        "bare_version" => bare(alloc, text),
        _ => Err(Fault::Call),
    }
}

// What is written of the value that a text holds, once the same is written of what is read of that.
fn round_trip<T: Json>(alloc: Global, text: &str) -> Result<Value, Fault> {
    match of_text::<T>(alloc, text) {
        Ok(value) => write_value(alloc, &value),
        Err(error) => unread_answer(alloc, error),
    }
}

/// Why a document is not read.
pub fn unread_answer(alloc: Global, error: ReadError) -> Result<Value, Fault> {
    match error {
        ReadError::Missed(place) => missed_answer(alloc, place.as_str()),
        ReadError::OutOfMemory => Err(Fault::OutOfMemory),
    }
}

fn write_value<T: Json>(alloc: Global, value: &T) -> Result<Value, Fault> {
    let text = to_text(alloc, value)?;
    if is_written_again::<T>(alloc, text.as_str())? {
        Ok(value.write(alloc)?)
    } else {
        Err(Fault::Condition)
    }
}

fn is_written_again<T: Json>(alloc: Global, text: &str) -> Result<bool, AllocError> {
    match of_text::<T>(alloc, text) {
        Ok(again) => Ok(to_text(alloc, &again)?.as_str() == text),
        Err(_) => Ok(false),
    }
}

fn written_answer(alloc: Global, text: Result<String, ReadError>) -> Result<Value, Fault> {
    match text {
        Ok(text) => Ok(Value::String(text)),
        Err(error) => unread_answer(alloc, error),
    }
}

fn bare(alloc: Global, text: &str) -> Result<Value, Fault> {
    match bare_version(alloc, text) {
        Ok(version) => Ok(Value::String(version.as_version().to_string(alloc)?)),
        Err(BareError::PreRelease) => error_answer(alloc, "PreRelease"),
        Err(BareError::BuildMetadata) => error_answer(alloc, "BuildMetadata"),
        Err(BareError::NotVersion) => error_answer(alloc, "NotVersion"),
        Err(BareError::OutOfMemory) => Err(Fault::OutOfMemory),
    }
}
