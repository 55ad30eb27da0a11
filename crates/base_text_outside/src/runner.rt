//! Runners, which answer command lines. No command runs: the answers were recorded.

ghost use Rattle.std.specs.Prelude.{◌≡◌, List, [], IfOk, OnOk, OnErr, Some, if◌then◌else◌};
ghost use Rattle.base_text_outside.specs.declared.command.CommandLine.{CommandLine};
ghost use Rattle.base_text_outside.specs.declared.command.Output.{Output};
ghost use Rattle.base_text_outside.specs.declared.command.Question.{Question};
ghost use Rattle.base_text_outside.specs.Command.{asks_same, question_of};
ghost use Rattle.base_text_outside.specs.Runner.{answer_of, with_answer};

use crate::command::{CommandLine, Output, Question};
use base_values::{Shared, TryClone, copy_entries};
use indexmap::IndexMap;
use std::alloc::{AllocError, Global};
use std::marker::Model;
use std::rc::Rc;

/// A finite map from program, words and directory to output.
pub trait Runner {
    // The output of each question that has one.
    ghost answers: { Self → List (Question × Output) };

    /// A copy of the output, or None where the question has none.
    fn ask(&self, alloc: Global, line: &CommandLine) -> Result<Option<Output>, AllocError>
        ensures { IfOk result (λ answer. answer ≡ answer_of (answers self.now) line.now) };
}

/// A runner in memory, seen as the outputs by their questions, in the order in which the questions
/// came. A copy shares the outputs.
#[derive(Debug, Drop)]
pub struct RecordedRunner {
    answers: IndexMap<Question, Shared<Output>>,
}

impl Model for RecordedRunner {
    ghost use Rattle.std.specs.Prelude.{List};
    ghost use Rattle.base_text_outside.specs.declared.command.Output.{Output};
    ghost use Rattle.base_text_outside.specs.declared.command.Question.{Question};

    ghost Value = { List (Question × Output) };

    ghost view = { λ a. a.answers.entries };
}

impl RecordedRunner {
    /// A runner with no answers, which holds no memory.
    pub fn new(alloc: Global) -> Self
        ensures { result ≡ [] }
    {
        RecordedRunner {
            answers: IndexMap::new(alloc),
        }
    }

    /// Records an output, which replaces an earlier one of the same question.
    pub fn insert(&mut self, line: CommandLine, output: Output) -> Result<(), AllocError>
        ensures ok { OnOk result (self.new ≡ with_answer (question_of line) output self.old) }
        ensures last_counts { OnOk result ((asked : CommandLine) → answer_of self.new asked
            ≡ (if asks_same line asked then Some output else answer_of self.old asked)) }
        ensures err { OnErr result (self.new ≡ self.old) }
    {
        let output = Rc::new(*self.answers.allocator(), output)?;
        let question = line.into_question();
        drop(self.answers.insert(question, Shared::new(output))?);
        Ok(())
    }
}

impl TryClone for RecordedRunner {
    fn try_clone(&self, alloc: Global) -> Result<Self, AllocError> {
        let answers = copy_entries(alloc, &self.answers)?;
        Ok(RecordedRunner { answers })
    }
}

impl Runner for RecordedRunner {
    ghost answers = { λ a. a };

    fn ask(&self, alloc: Global, line: &CommandLine) -> Result<Option<Output>, AllocError>
        ensures { IfOk result (λ answer. answer ≡ answer_of self.now line.now) }
    {
        let question = line.question(alloc)?;
        match self.answers.get(&question) {
            None => Ok(None),
            Some(output) => {
                let output = output.get().try_clone(alloc)?;
                Ok(Some(output))
            }
        }
    }
}
