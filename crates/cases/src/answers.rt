//! What commands wrote, and a runner whose answers are recorded.

use crate::case::{Case, Fault};
use crate::lines::line_of;
use base_text::{Output, RecordedRunner, Text};
use serde_json::Value;
use std::alloc::{AllocError, Global};

/// Whether a command succeeded, and what it wrote: a text, or lines that are each a text or a document.
pub fn output_of(alloc: Global, case: Case<'_>) -> Result<Output, Fault> {
    let out = match case.optional_text("out") {
        Some(text) => Text::of_str(alloc, text)?,
        None => lines_of(alloc, case.list("out"))?,
    };
    let err = Text::of_str(alloc, case.optional_text("err").unwrap_or(""))?;
    let ok = case.flag("ok");
    Ok(Output { ok, out, err })
}

// Lines, each with a newline behind it.
fn lines_of(alloc: Global, lines: &[Value]) -> Result<Text, AllocError> {
    let mut text = String::new(alloc);
    for line in lines {
        push_line(alloc, &mut text, line)?;
    }
    Ok(Text::new(text))
}

/// Appends a line, which is a text or a document, and a newline.
pub fn push_line(alloc: Global, out: &mut String, line: &Value) -> Result<(), AllocError> {
    match line {
        Value::String(line) => out.push_str(line.as_str())?,
        document => out.push_str(document.to_string(alloc)?.as_str())?,
    }
    out.push('\n')
}

/// A runner that knows the answers of a case: each is a command line, and what it gives.
pub fn runner_of(alloc: Global, case: Case<'_>) -> Result<RecordedRunner, Fault> {
    let mut runner = RecordedRunner::new(alloc);
    for answer in case.list("answers") {
        insert(alloc, &mut runner, case.with(answer))?;
    }
    Ok(runner)
}

fn insert(alloc: Global, runner: &mut RecordedRunner, answer: Case<'_>) -> Result<(), Fault> {
    let output = output_of(alloc, answer)?;
    runner.insert(line_of(alloc, answer)?, output)?;
    Ok(())
}
