//! The text that marks leave at a path.

use crate::vfs_paths::vfs_path;
use base_text::Text;
use cases::{Case, Fault, optional_answer};
use serde_json::Value;
use std::alloc::Global;
use vfs_core::marks::live_text;
use vfs_core::{Mark, MarkKind};

/// The text that marks leave. They stand newest first: a path, and a text, null where the file is gone, or `false` where it is
/// left out.
pub fn answer(alloc: Global, case: Case<'_>) -> Result<Value, Fault> {
    let path = vfs_path(alloc, case.text("path"), false)?;
    let mut marks = Vec::new(alloc);
    for mark in case.list("marks") {
        marks.push(mark_of(alloc, case.with(mark))?)?;
    }
    let text = live_text(marks.as_slice(), &path);
    optional_answer(alloc, text.map(Text::as_str))
}

fn mark_of(alloc: Global, mark: Case<'_>) -> Result<Mark, Fault> {
    let kind = match mark.at(1).value() {
        Value::String(text) => MarkKind::Text(Text::of_str(alloc, text.as_str())?),
        Value::Null => MarkKind::Gone,
        _ => MarkKind::Out,
    };
    let path = vfs_path(alloc, mark.text_at(0), false)?;
    Ok(Mark { path, kind })
}
