//! Scripts as cases give them, and pages as cases show them.

use cases::{Case, Fault, List, push_line, text_answer};
use serde_json::Value;
use std::alloc::{AllocError, Global};

/// The words under a key, none without the member.
pub fn words_at(
    alloc: Global,
    case: Case<'_>,
    key: &'static str,
) -> Result<Vec<String>, AllocError> {
    let mut words = Vec::new(alloc);
    for word in case.list(key) {
        words.push(String::from_str(alloc, case.with(word).as_text())?)?;
    }
    Ok(words)
}

/// A list of numbers, none without the member.
pub fn numbers_of(
    alloc: Global,
    case: Case<'_>,
    key: &'static str,
) -> Result<Vec<u64>, AllocError> {
    let mut numbers = Vec::new(alloc);
    for number in case.list(key) {
        numbers.push(case.with(number).as_number())?;
    }
    Ok(numbers)
}

/// The bytes of a script's lines, each a value, which is written, or a text, which stands as it is. Each
/// ends in a newline, the last one too unless the case says that it is unfinished.
pub fn script_of(alloc: Global, case: Case<'_>) -> Result<Vec<u8>, AllocError> {
    let mut script = String::new(alloc);
    for line in case.list("lines") {
        push_line(alloc, &mut script, line)?;
    }
    let mut script = script.into_bytes();
    if case.flag("unfinished") {
        drop(script.pop());
    }
    Ok(script)
}

/// The pages that a sink took, each a value where its text is what is written of that value, else the text.
pub fn pages_of(alloc: Global, out: &[u8]) -> Result<Value, Fault> {
    let text = String::from_utf8_lossy(alloc, out)?;
    let mut pages = List::new(alloc);
    for line in text.as_str().split_inclusive('\n') {
        pages = pages.item(page_of(alloc, line));
    }
    pages.answer()
}

fn page_of(alloc: Global, line: &str) -> Result<Value, Fault> {
    let written = line.strip_suffix('\n').unwrap_or(line);
    if let Ok(value) = Value::from_str(alloc, written) {
        let mut again = value.to_string(alloc)?;
        again.push_str("\n")?;
        if again.as_str() == line {
            return Ok(value);
        }
    }
    text_answer(alloc, line)
}
