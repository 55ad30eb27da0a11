//! How a question is asked: of `cargo`, and failing that of the compiler; or of one tool alone.

ghost use Rattle.std.specs.Prelude.{◌≡◌, IfOk};
ghost use Rattle.std.specs.Option.{option_and_then};
ghost use Rattle.pm_tools_ask.specs.Answers as answers;
ghost use Rattle.pm_tools_info.specs.Asked as asked;
ghost use Rattle.pm_tools_info.specs.Asked.{AnswersQuery};

use crate::query_error::QueryError;
use crate::questions::Questions;
use base_text::{Runner, Text};
use pm_cargo_fetch::line_text;
use pm_tools_ask::serving_answer;
use std::alloc::{AllocError, Global};

/// The answer to the first question, or else to the last, or else the line of the last.
pub(crate) fn answer_to<R: Runner>(
    alloc: Global,
    questions: &Questions,
    runner: &R,
) -> Result<Text, QueryError>
    ensures { AnswersQuery result (asked.answer_to (R.answers runner.now) questions.now) }
{
    if let Some(text) = first_answer(alloc, questions, runner)? {
        return Ok(text);
    }
    match serving_answer(alloc, runner, &questions.last)? {
        Some(text) => Ok(text),
        None => Err(QueryError::Failed(line_text(alloc, &questions.last)?)),
    }
}

// The answer to the first question, where there is one before the last.
fn first_answer<R: Runner>(
    alloc: Global,
    questions: &Questions,
    runner: &R,
) -> Result<Option<Text>, AllocError>
    ensures { IfOk result (λ answer. answer
        ≡ option_and_then (answers.serving_answer (R.answers runner.now)) questions.now.first) }
{
    match &questions.first {
        Some(line) => serving_answer(alloc, runner, line),
        None => Ok(None),
    }
}
