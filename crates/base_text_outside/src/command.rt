//! Command lines, the questions that they ask, and what a command that has run wrote.

ghost use Rattle.std.specs.Prelude.{◌≡◌, ◌↔◌, IfOk, IsTrue};
ghost use Rattle.base_text_outside.specs.Command.{AsksSame, asks_same, question_of};

use base_values::{Items, Text, TryClone};
use std::alloc::{AllocError, Global};
use std::hash::Hash;

/// A program with its words, the directory to run it in, and changes to its environment in order:
/// each sets a variable, or removes it where there is no value.
#[derive(Debug, Drop, PartialEq, Eq)]
pub struct CommandLine {
    pub program: Text,
    pub words: Items<Text>,
    pub dir: Text,
    pub env: Items<(Text, Option<Text>)>,
}

/// What a command line asks of a runner. The environment plays no part in it.
#[derive(Debug, Drop, PartialEq, Eq, Hash)]
pub struct Question {
    pub program: Text,
    pub words: Items<Text>,
    pub dir: Text,
}

/// Whether a command succeeded, and what it wrote to its two streams.
#[derive(Debug, Drop, PartialEq, Eq)]
pub struct Output {
    pub ok: bool,
    pub out: Text,
    pub err: Text,
}

impl CommandLine {
    /// A copy of the question that the command line asks.
    pub fn question(&self, alloc: Global) -> Result<Question, AllocError>
        ensures { IfOk result (λ question. question ≡ question_of self.now) }
    {
        Ok(Question {
            program: self.program.try_clone(alloc)?,
            words: self.words.try_clone(alloc)?,
            dir: self.dir.try_clone(alloc)?,
        })
    }

    /// The question that the command line asks, with no memory taken.
    pub fn into_question(self) -> Question
        ensures { result ≡ question_of self }
    {
        Question {
            program: self.program,
            words: self.words,
            dir: self.dir,
        }
    }

    /// Whether two command lines ask the same question, and so have one answer.
    pub fn asks_same(&self, other: &CommandLine) -> bool
        ensures test { result ≡ asks_same self.now other.now }
        ensures fact { IsTrue result ↔ AsksSame self.now other.now }
    {
        self.program == other.program && self.words == other.words && self.dir == other.dir
    }
}

impl TryClone for CommandLine {
    fn try_clone(&self, alloc: Global) -> Result<Self, AllocError> {
        Ok(CommandLine {
            program: self.program.try_clone(alloc)?,
            words: self.words.try_clone(alloc)?,
            dir: self.dir.try_clone(alloc)?,
            env: self.env.try_clone(alloc)?,
        })
    }
}

impl TryClone for Question {
    fn try_clone(&self, alloc: Global) -> Result<Self, AllocError> {
        Ok(Question {
            program: self.program.try_clone(alloc)?,
            words: self.words.try_clone(alloc)?,
            dir: self.dir.try_clone(alloc)?,
        })
    }
}

impl TryClone for Output {
    fn try_clone(&self, alloc: Global) -> Result<Self, AllocError> {
        Ok(Output {
            ok: self.ok,
            out: self.out.try_clone(alloc)?,
            err: self.err.try_clone(alloc)?,
        })
    }
}
