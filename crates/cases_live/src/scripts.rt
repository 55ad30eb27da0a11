//! Scripts through the whole program: its status, its pages, and the text of its error.

use crate::runs::{Ran, run};
use crate::values::{numbers_of, pages_of, script_of, words_at};
use cases::{Case, Fault, Object, bytes_answer};
use serde_json::Value;
use std::alloc::Global;
use std::fs;
use std::rt::Files;

/// What a script gives. The script, and the pages that it must write, may be files.
pub fn answer<R: Files + AllocGlobal>(rt: &R, case: Case<'_>) -> Result<Value, Fault> {
    let script = script_given(rt, case)?;
    let pages = pages_given(rt, case)?;
    let wanted = pages.as_ref().map(|pages| pages.as_slice());
    script_answer(rt.alloc(), case, script.as_slice(), wanted)
}

fn script_given<R: Files + AllocGlobal>(rt: &R, case: Case<'_>) -> Result<Vec<u8>, Fault> {
    match case.optional_text("file") {
        Some(name) => bytes_of(rt, name),
        None => Ok(script_of(rt.alloc(), case)?),
    }
}

fn pages_given<R: Files + AllocGlobal>(rt: &R, case: Case<'_>) -> Result<Option<Vec<u8>>, Fault> {
    match case.optional_text("pages") {
        Some(name) => Ok(Some(bytes_of(rt, name)?)),
        None => Ok(None),
    }
}

fn bytes_of<R: Files + AllocGlobal>(rt: &R, name: &str) -> Result<Vec<u8>, Fault> {
    match fs::read(rt, name) {
        Ok(bytes) => Ok(bytes),
        Err(_) => Err(Fault::Member("file")),
    }
}

// Runs a script over streams of which the reads and writes fail that the case names.
fn script_answer(
    alloc: Global,
    case: Case<'_>,
    script: &[u8],
    wanted: Option<&[u8]>,
) -> Result<Value, Fault> {
    let words = words_at(alloc, case, "words")?;
    let reads = numbers_of(alloc, case, "failing_reads")?;
    let writes = numbers_of(alloc, case, "failing_writes")?;
    let ran = run(
        alloc,
        words.as_slice(),
        script,
        reads.as_slice(),
        writes.as_slice(),
    )?;
    run_answer(alloc, &ran, wanted)
}

// What a run leaves, beside the pages that are wanted.
fn run_answer(alloc: Global, ran: &Ran, wanted: Option<&[u8]>) -> Result<Value, Fault> {
    Object::new(alloc)
        .number("status", ran.status as u64)
        .member("err", bytes_answer(alloc, ran.err.bytes()))
        .member("pages", pages_answer(alloc, ran.out.bytes(), wanted))
        .flag("ended", ran.ended)
        .answer()
}

// The pages, or whether they are those that are wanted.
fn pages_answer(alloc: Global, out: &[u8], wanted: Option<&[u8]>) -> Result<Value, Fault> {
    match wanted {
        Some(wanted) => Ok(Value::from(out == wanted)),
        None => pages_of(alloc, out),
    }
}
