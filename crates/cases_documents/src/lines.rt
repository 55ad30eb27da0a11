//! Command lines, and a runner whose answers are recorded.

use base_text::{CommandLine, Output, Runner, TryClone};
use cases::{Case, Fault, Object, copied_answer, is_copied, line_of, runner_of};
use serde_json::Value;
use std::alloc::Global;

/// What a call on a command line gives.
pub fn answer(alloc: Global, case: Case<'_>) -> Result<Value, Fault> {
    let line = line_of(alloc, case)?;
    match case.text("call") {
        "Runner::ask" => {
            let runner = runner_of(alloc, case)?.try_clone(alloc)?;
            answer_of(alloc, &runner, &line)
        }
        "CommandLine::asks_same" => {
            let other = line_of(alloc, case.of("other"))?;
            Ok(Value::from(line.asks_same(&other) && is_copied(alloc, &other)?))
        }
        _ => Err(Fault::Call),
    }
}

fn answer_of<R: Runner>(alloc: Global, runner: &R, line: &CommandLine) -> Result<Value, Fault> {
    match &runner.ask(alloc, line)? {
        None => Ok(Value::Null),
        Some(output) => output_answer(alloc, output),
    }
}

fn output_answer(alloc: Global, output: &Output) -> Result<Value, Fault> {
    Object::new(alloc)
        .flag("ok", output.ok)
        .text("out", output.out.as_str())
        .text("err", output.err.as_str())
        .member("copied", copied_answer(alloc, output))
        .answer()
}
