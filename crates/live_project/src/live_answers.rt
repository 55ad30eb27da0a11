//! The recorded answers of a session, shared with each load that keeps them.

ghost use Rattle.std.specs.Prelude.{◌≡◌, [], IfOk, OnErr, OnOk};
ghost use Rattle.base_text_outside.specs.Command.{question_of};
ghost use Rattle.base_text_outside.specs.Runner.{with_answer};

use base_text::{CommandLine, Output, RecordedRunner, TryClone};
use std::alloc::{AllocError, Global};
use std::marker::Model;
use std::rc::Rc;

// Answers, with the memory of a copy.
#[derive(Drop)]
struct Answers {
    alloc: Global,
    runner: RecordedRunner,
}

impl Model for Answers {
    ghost use Rattle.std.specs.Prelude.{List};
    ghost use Rattle.base_text_outside.specs.declared.command.Output.{Output};
    ghost use Rattle.base_text_outside.specs.declared.command.Question.{Question};

    ghost Value = { List (Question × Output) };

    ghost view = { λ a. a.runner };
}

impl Clone for Answers {
    ghost use Rattle.std.specs.Prelude.{◌≡◌};

    ghost is_clone = { λ answers copy. copy ≡ answers };

    fn clone(&self) -> Result<Self, AllocError> {
        let runner = self.runner.try_clone(self.alloc)?;
        Ok(Answers {
            alloc: self.alloc,
            runner,
        })
    }
}

impl Answers {
    // Records an output, in place of an earlier one of the same question.
    fn insert(&mut self, line: CommandLine, output: Output) -> Result<(), AllocError>
        ensures ok { OnOk result (self.new ≡ with_answer (question_of line) output self.old) }
        ensures err { OnErr result (self.new ≡ self.old) }
    {
        self.runner.insert(line, output)
    }
}

/// The recorded answers of a session, seen as the outputs by their questions. A copy takes one count and shares the table until
/// one of both is written.
#[derive(Drop)]
pub struct LiveAnswers {
    answers: Rc<Answers>,
}

impl Model for LiveAnswers {
    ghost use Rattle.std.specs.Prelude.{List};
    ghost use Rattle.base_text_outside.specs.declared.command.Output.{Output};
    ghost use Rattle.base_text_outside.specs.declared.command.Question.{Question};

    ghost Value = { List (Question × Output) };

    ghost view = { λ a. a.answers.value };
}

impl TryClone for LiveAnswers {
    fn try_clone(&self, _alloc: Global) -> Result<Self, AllocError> {
        let answers = self.answers.clone()?;
        Ok(LiveAnswers { answers })
    }
}

impl LiveAnswers {
    /// No answer.
    pub fn new(alloc: Global) -> Result<Self, AllocError>
        ensures { IfOk result (λ answers. answers ≡ []) }
    {
        let runner = RecordedRunner::new(alloc);
        let answers = Rc::new(alloc, Answers { alloc, runner })?;
        Ok(LiveAnswers { answers })
    }

    /// Records an output, which replaces an earlier one of the same question. What shares the table keeps what it had.
    pub fn insert(&mut self, line: CommandLine, output: Output) -> Result<(), AllocError>
        ensures ok { OnOk result (self.new ≡ with_answer (question_of line) output self.old) }
        ensures err { OnErr result (self.new ≡ self.old) }
    {
        insert_shared(&mut self.answers, line, output)
    }

    /// Who gives the answers.
    pub fn runner(&self) -> &RecordedRunner
        ensures { result.now ≡ self.now }
    {
        let answers: &Answers = &self.answers;
        &answers.runner
    }
}

// Records an output in answers that may be shared.
fn insert_shared(
    answers: &mut Rc<Answers>,
    line: CommandLine,
    output: Output,
) -> Result<(), AllocError>
    ensures ok { OnOk result (answers.new.value
        ≡ with_answer (question_of line) output answers.old.value) }
    ensures err { OnErr result (answers.new.value ≡ answers.old.value) }
{
    let answers = Rc::make_mut(answers)?;
    answers.insert(line, output)
}
