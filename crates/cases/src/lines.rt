//! Command lines of cases.

use crate::answer::{List, Object};
use crate::case::{Case, Fault};
use crate::values::{texts, texts_answer, variable_of};
use base_text::{CommandLine, Items, Text};
use serde_json::Value;
use std::alloc::{AllocError, Global};

/// A command line: its program, its words, its directory, and its variables if it has some.
pub fn line_of(alloc: Global, case: Case<'_>) -> Result<CommandLine, Fault> {
    Ok(CommandLine {
        program: Text::of_str(alloc, case.text("program"))?,
        words: texts(alloc, case, "words")?,
        dir: Text::of_str(alloc, case.text("dir"))?,
        env: env_of(alloc, case)?,
    })
}

// Variables of a command line, each with its value, or removed.
fn env_of(alloc: Global, case: Case<'_>) -> Result<Items<(Text, Option<Text>)>, AllocError> {
    let mut env = Vec::new(alloc);
    for pair in case.list("env") {
        env.push(variable_of(alloc, case.with(pair))?)?;
    }
    Ok(Items::new(env))
}

/// A command line, as it is compared: its program, its words, its directory and its variables.
pub fn line_answer(alloc: Global, line: &CommandLine) -> Result<Value, Fault> {
    Object::new(alloc)
        .text("program", line.program.as_str())
        .member("words", texts_answer(alloc, line.words.as_slice()))
        .text("dir", line.dir.as_str())
        .member("env", variables_answer(alloc, line.env.as_slice()))
        .answer()
}

/// Variables with their values, as they are compared. The value of one that is removed is null.
pub fn variables_answer(alloc: Global, env: &[(Text, Option<Text>)]) -> Result<Value, Fault> {
    let mut pairs = List::new(alloc);
    for (name, value) in env {
        let value = value.as_ref().map(Text::as_str);
        let pair = List::new(alloc).text(name.as_str()).optional(value);
        pairs = pairs.item(pair.answer());
    }
    pairs.answer()
}
