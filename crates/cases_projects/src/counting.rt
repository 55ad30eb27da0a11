//! A runner that counts the questions that it is asked, which no contract can see.

ghost use Rattle.std.specs.Prelude.{◌≡◌};

use base_text::{CommandLine, MemoryTree, Output, RecordedRunner, Runner};
use pm_tools_ask::Ask;
use std::alloc::{AllocError, Global};
use std::cell::Cell;

/// Gives the recorded answers, and counts the questions.
#[derive(Drop)]
pub struct CountingRunner<'a> {
    recorded: &'a RecordedRunner,
    count: Cell<u64>,
}

impl<'a> CountingRunner<'a> {
    pub fn new(recorded: &'a RecordedRunner) -> Self {
        CountingRunner {
            recorded,
            count: Cell::new(0),
        }
    }

    /// How many questions were asked.
    pub fn count(&self) -> u64 {
        self.count.get()
    }
}

impl<'a> Runner for CountingRunner<'a> {
    ghost answers = { λ a. a.recorded.now };

    fn ask(&self, alloc: Global, line: &CommandLine) -> Result<Option<Output>, AllocError> {
        self.count.set(self.count.get().saturating_add(1));
        self.recorded.ask(alloc, line)
    }
}

/// The same means, with a runner that counts.
pub fn counted<'a>(
    ask: &Ask<'a, RecordedRunner, MemoryTree>,
    runner: &'a CountingRunner<'a>,
) -> Ask<'a, CountingRunner<'a>, MemoryTree>
    ensures { result.extra_env.now ≡ ask.now.extra_env.now }
{
    Ask {
        runner,
        tree: ask.tree,
        tools: ask.tools,
        process_env: ask.process_env,
        extra_env: ask.extra_env,
    }
}
