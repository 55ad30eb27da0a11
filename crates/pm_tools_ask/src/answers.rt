//! The answers that questions are decided by.

ghost use Rattle.std.specs.Prelude.{◌≡◌, IfOk};
ghost use Rattle.pm_tools_ask.specs.Answers.{serving_answer};

use base_text::{CommandLine, Runner, Text};
use std::alloc::{AllocError, Global};

/// What a command wrote, without the white space at both ends. None where no answer is recorded, or where the
/// command failed.
pub fn serving_answer<R: Runner>(
    alloc: Global,
    runner: &R,
    line: &CommandLine,
) -> Result<Option<Text>, AllocError>
    ensures { IfOk result (λ answer. answer ≡ serving_answer (R.answers runner.now) line.now) }
{
    match runner.ask(alloc, line)? {
        Some(output) if output.ok => Ok(Some(Text::of_str(alloc, output.out.as_str().trim())?)),
        _ => Ok(None),
    }
}
