//! The configuration of a session, and what the words of the command line make of it.

ghost use Rattle.std.specs.Prelude.{◌≡◌, ◌↔◌, [], IfOk, IsErrOf, IsTrue, map, string_bytes, Some, None};
ghost use Rattle.live_config.specs.declared.config.Command.TheVariants.{Run};
ghost use Rattle.live_config.specs.Config.{Fits, FitsCommand, command_of, config_of, first_config, usual_tools};

use crate::options::{Given, read_options};
use base_text::{Limits, Text, Tools, TryClone};
use crate_graph_values::Env;
use pm_cargo_config::CargoConfig;
use std::alloc::{AllocError, AllocFailed, Global};
use thiserror::Error;

/// The words are no options, or there was no memory.
#[derive(Clone, Copy, Debug, PartialEq, Eq, Error)]
pub enum WordsError {
    #[error("Usage")]
    Usage,
    #[error("OutOfMemory")]
    OutOfMemory,
}

impl From<AllocError> for WordsError {
    ghost use Rattle.std.specs.Prelude.{◌≡◌};
    ghost use Rattle.live_config.specs.declared.config.WordsError.TheVariants.{OutOfMemory};

    ghost from_gives = { λ _ e. e ≡ OutOfMemory };

    fn from(_error: AllocError) -> Self {
        WordsError::OutOfMemory
    }
}

impl<T: Drop> From<AllocFailed<T>> for WordsError {
    ghost use Rattle.std.specs.Prelude.{◌≡◌};
    ghost use Rattle.live_config.specs.declared.config.WordsError.TheVariants.{OutOfMemory};

    ghost from_gives = { λ _ e. e ≡ OutOfMemory };

    fn from(_error: AllocFailed<T>) -> Self {
        WordsError::OutOfMemory
    }
}

/// What the words of a command line ask for.
#[derive(PartialEq, Eq, Drop)]
pub enum Command {
    /// To run a script with this configuration.
    Run(LiveConfig),
}

impl Command {
    /// The command that the words give. Words that are no options give none.
    pub fn of_words(alloc: Global, words: &[String]) -> Result<Command, WordsError>
        ensures ok { IfOk result (λ command. command_of (map string_bytes words.now)
            ≡ Some command) }
        ensures fits { IfOk result FitsCommand }
        ensures usage { IsErrOf result WordsError.Usage
            → command_of (map string_bytes words.now) ≡ None }
    {
        Ok(Command::Run(LiveConfig::of_words(alloc, words)?))
    }

    /// The configuration of the session that the command works on.
    pub fn into_config(self) -> LiveConfig
        ensures { self ≡ Run result }
    {
        match self {
            Command::Run(config) => config,
        }
    }
}

impl TryClone for Command {
    fn try_clone(&self, alloc: Global) -> Result<Self, AllocError> {
        match self {
            Command::Run(config) => Ok(Command::Run(config.try_clone(alloc)?)),
        }
    }
}

/// The configuration of a session.
#[derive(PartialEq, Eq, Drop)]
pub struct LiveConfig {
    /// How Cargo projects are loaded.
    pub cargo: CargoConfig,
    /// The variables of the process that asks for them.
    pub process_env: Env,
    /// The names of the tools that are asked.
    pub tools: Tools,
    pub limits: Limits,
}

impl LiveConfig {
    /// The configuration of no words: nothing is configured, the tools have their usual names, and the
    /// limits are the greatest.
    #[tactic(auto, unfolding(crate::specs::Config::config_of))]
    pub fn new(alloc: Global) -> Result<LiveConfig, AllocError>
        ensures first { IfOk result (λ config. config ≡ first_config) }
        ensures no_words { IfOk result (λ config. config_of [] ≡ Some config) }
    {
        let tools = usual_tools(alloc)?;
        Ok(Given::new(alloc).into_config(alloc, tools))
    }

    /// The configuration that the words give.
    #[tactic(auto, unfolding(crate::specs::Config::config_of))]
    pub fn of_words(alloc: Global, words: &[String]) -> Result<LiveConfig, WordsError>
        ensures ok { IfOk result (λ config. config_of (map string_bytes words.now) ≡ Some config) }
        ensures fits { IfOk result Fits }
        ensures usage { IsErrOf result WordsError.Usage
            → config_of (map string_bytes words.now) ≡ None }
    {
        let tools = usual_tools(alloc)?;
        let given = read_options(alloc, words)?;
        Ok(given.into_config(alloc, tools))
    }

    /// Whether a session can have the configuration: no limit is above its greatest value, and neither a
    /// sysroot nor sources of the compiler are configured.
    pub fn fits(&self) -> bool
        ensures { IsTrue result ↔ Fits self.now }
    {
        let greatest = Limits::greatest();
        self.limits.bytes <= greatest.bytes
            && self.limits.paths <= greatest.paths
            && self.limits.packages <= greatest.packages
            && self.limits.targets <= greatest.targets
            && self.limits.crates <= greatest.crates
            && self.cargo.sysroot.is_none()
            && self.cargo.rustc_source.is_none()
    }
}

impl TryClone for LiveConfig {
    fn try_clone(&self, alloc: Global) -> Result<Self, AllocError> {
        let process_env = self.process_env.try_clone(alloc)?;
        let tools = self.tools.try_clone(alloc)?;
        let cargo = self.cargo.try_clone(alloc)?;
        Ok(LiveConfig {
            cargo,
            process_env,
            tools,
            limits: self.limits,
        })
    }
}

// The tools by their usual names.
fn usual_tools(alloc: Global) -> Result<Tools, AllocError>
    ensures { IfOk result (λ tools. tools ≡ usual_tools) }
{
    Ok(Tools {
        cargo: Text::of_str(alloc, "cargo")?,
        rustc: Text::of_str(alloc, "rustc")?,
        rustup: Text::of_str(alloc, "rustup")?,
        myself: Text::of_str(alloc, "live")?,
    })
}
