//! Runs files of cases, and compares what each call gives with what its case says.

use crate::case::{Case, Fault};
use serde_json::Value;
use std::cell::Cell;
use std::env::Env;
use std::process::ExitCode;
use std::rt::Files;
use std::{env, fs, io};

/// The calls of some libraries, which files of cases name.
pub trait Family<R> {
    /// What the call of a case gives, in the file of cases that has this name.
    fn answer(rt: &R, file: &str, case: Case<'_>) -> Result<Value, Fault>;
}

/// Runs the files that the words of the command line name. The status is 1 where a case fails.
pub fn run_files<F: Family<R>, R: Env + Files + Print + AllocGlobal>(
    rt: &R,
) -> io::Result<ExitCode> {
    let mut failures = 0u64;
    for name in env::args(rt)?.skip(1) {
        failures = failures.saturating_add(run_file::<F, R>(rt, name.as_str())?);
    }
    Ok(ExitCode::from(u8::from(failures > 0)))
}

/// Runs the cases of a file, and returns how many of them fail.
fn run_file<F: Family<R>, R: Files + Print + AllocGlobal>(rt: &R, file: &str) -> io::Result<u64> {
    let text = fs::read_to_string(rt, file)?;
    let (mut cases, mut failures) = (0u64, 0u64);
    for line in text.as_str().lines() {
        cases = cases.saturating_add(1);
        if !run_line::<F, R>(rt, file, line)? {
            failures = failures.saturating_add(1);
        }
    }
    println!(rt; "{file}: {cases} cases, {failures} fail")?;
    Ok(failures)
}

/// Runs the case of a line, and returns whether it gives what it says.
fn run_line<F: Family<R>, R: Print + AllocGlobal>(
    rt: &R,
    file: &str,
    line: &str,
) -> io::Result<bool> {
    let Ok(value) = Value::from_str(rt.alloc(), line) else {
        println!(rt; "{file}: no JSON: {line}")?;
        return Ok(false);
    };
    let missing = Cell::new(None);
    let case = Case::new(&value, &missing);
    let answer = F::answer(rt, file, case);
    match whole_answer(answer, missing.get()) {
        Ok(answer) => compare(rt, case, &answer),
        Err(fault) => {
            println!(rt; "{file}: {fault}: {line}")?;
            Ok(false)
        }
    }
}

// An answer to a case that lacks no member.
fn whole_answer(
    answer: Result<Value, Fault>,
    missing: Option<&'static str>,
) -> Result<Value, Fault> {
    match missing {
        Some(key) => Err(Fault::Member(key)),
        None => answer,
    }
}

/// Whether an answer is what the case gives. If not, both are printed.
fn compare<R: Print + AllocGlobal>(rt: &R, case: Case<'_>, answer: &Value) -> io::Result<bool> {
    let name = case.optional_text("case").unwrap_or("no name");
    let Some(wanted) = case.find("gives") else {
        println!(rt; "{name}: it does not say what it gives")?;
        return Ok(false);
    };
    if *answer == *wanted {
        return Ok(true);
    }
    let answer = answer.to_string(rt.alloc())?;
    let wanted = wanted.to_string(rt.alloc())?;
    println!(rt; "{name}: gives {answer} in place of {wanted}")?;
    Ok(false)
}
