//! What a load is made with and keeps.

ghost use Rattle.std.specs.Prelude.{◌≡◌};
ghost use Rattle.pm_tools_ask.specs.Ask.{means_of};
ghost use Rattle.live_project.specs.Sources.{means_of_sources};

use crate::live_answers::LiveAnswers;
use base_text::{MemoryTree, RecordedRunner, Shared, Text, TryClone};
use live_config::LiveConfig;
use pm_tools_ask::Ask;
use std::alloc::{AllocError, Global};

/// What a load is made with and keeps. A later change of a session never reaches it.
#[derive(Drop)]
pub struct Sources {
    /// How the project is loaded, and how many crates it may have.
    pub config: Shared<LiveConfig>,
    /// What the tools answered.
    pub answers: LiveAnswers,
    /// The files that live, each under its real path.
    pub files: MemoryTree,
    /// The path of the manifest, as it was given.
    pub path: Text,
}

impl Sources {
    // What the questions of a load are asked with.
    pub(crate) fn ask(&self) -> Ask<'_, RecordedRunner, MemoryTree>
        ensures { means_of (λ a. a) (λ t. t) result ≡ means_of_sources self.now }
    {
        let config = self.config.get();
        Ask {
            runner: self.answers.runner(),
            tree: &self.files,
            tools: &config.tools,
            process_env: &config.process_env,
            extra_env: &config.cargo.extra_env,
        }
    }
}

impl TryClone for Sources {
    fn try_clone(&self, alloc: Global) -> Result<Self, AllocError> {
        let config = self.config.try_clone(alloc)?;
        let answers = self.answers.try_clone(alloc)?;
        let path = self.path.try_clone(alloc)?;
        let files = self.files.try_clone(alloc)?;
        Ok(Sources {
            config,
            answers,
            files,
            path,
        })
    }
}
