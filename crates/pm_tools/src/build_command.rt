//! The build question: a command with its words and its variables.

ghost use Rattle.std.specs.Prelude.{◌≡◌, IfOk, option_copied};
ghost use Rattle.base_text_paths.specs.AbsPath.{abs_text};
ghost use Rattle.pm_tools_ask.specs.Ask.{means_of};
ghost use Rattle.pm_tools.specs.Question.{build_question, cargo_question, configured_question, with_wrapper, wraps_compiler};

use crate::words_of_build::{build_words, is_unstable, takes_compile_time_deps};
use base_text::{AbsPath, ByText, CommandLine, Items, Runner, Text, Tool, Tree, TryClone, Version};
use base_text_outside::command_words::push_words;
use pm_cargo::CargoWorkspace;
use pm_cargo_config::{CargoConfig, allow_unstable, set_variable};
use pm_tools_ask::{Ask, Sysroot};
use std::alloc::{AllocError, Global};

/// The question that builds what a workspace needs at compile time, which is asked in its root. It is
/// the configured command, where its words begin with a program, else `cargo check`.
#[tactic(auto, unfolding(crate::specs::Question::build_question))]
pub fn build_question<R: Runner, T: Tree>(
    alloc: Global,
    config: &CargoConfig,
    workspace: &CargoWorkspace,
    sysroot: &Sysroot,
    version: Option<&Version>,
    ask: &Ask<'_, R, T>,
) -> Result<CommandLine, AllocError>
    ensures { IfOk result (λ line. line ≡ build_question config.now workspace.now sysroot.now
        (option_copied version.entry) (means_of R.answers T.files ask.now)) }
{
    let command = &config.run_build_script_command;
    match configured_question(alloc, command, workspace.workspace_root(), ask)? {
        Some(line) => Ok(line),
        None => cargo_question(alloc, config, workspace, sysroot, version, ask),
    }
}

/// The configured command as a question in a directory. None where no command is configured, or one
/// without words.
pub fn configured_question<R: Runner, T: Tree>(
    alloc: Global,
    command: &Option<Items<Text>>,
    dir: AbsPath<'_>,
    ask: &Ask<'_, R, T>,
) -> Result<Option<CommandLine>, AllocError>
    ensures { IfOk result (λ line. line ≡ configured_question command.now
        (abs_text dir.entry) (means_of R.answers T.files ask.now)) }
{
    let Some(command) = command else {
        return Ok(None);
    };
    let [program, words @ ..] = command.as_slice() else {
        return Ok(None);
    };
    let mut copies = Vec::new(alloc);
    push_words(alloc, &mut copies, words)?;
    Ok(Some(CommandLine {
        program: program.try_clone(alloc)?,
        words: Items::new(copies),
        dir: Text::of_str(alloc, dir.as_str())?,
        env: in_order(alloc, ask.extra_env)?,
    }))
}

// The variables by ascending name.
fn in_order(
    alloc: Global,
    variables: &ByText<Option<Text>>,
) -> Result<Items<(Text, Option<Text>)>, AllocError>
    ensures { IfOk result (λ list. list ≡ variables.now) }
{
    let mut list = Vec::with_capacity(alloc, variables.len())?;
    for (name, value) in variables.as_map() {
        let name = Text::of_str(alloc, name.as_str())?;
        let value = value.try_clone(alloc)?;
        list.push((name, value))?;
    }
    Ok(Items::new(list))
}

// The build by `cargo check`.
fn cargo_question<R: Runner, T: Tree>(
    alloc: Global,
    config: &CargoConfig,
    workspace: &CargoWorkspace,
    sysroot: &Sysroot,
    version: Option<&Version>,
    ask: &Ask<'_, R, T>,
) -> Result<CommandLine, AllocError>
    ensures { IfOk result (λ line. line ≡ cargo_question config.now workspace.now sysroot.now
        (option_copied version.entry) (means_of R.answers T.files ask.now)) }
{
    let words = build_words(alloc, config, workspace, version)?;
    let dir = workspace.workspace_root();
    let line = sysroot.question(alloc, Tool::Cargo, dir.as_str(), words, ask)?;
    let wraps = wraps_compiler(config, version);
    let line = with_wrapper(alloc, line, wraps, ask.tools.myself.as_str())?;
    allow_unstable(alloc, line, is_unstable(workspace.manifest_path(), version))
}

// Whether the compiler is run through the program that asks.
fn wraps_compiler(config: &CargoConfig, version: Option<&Version>) -> bool
    ensures { result ≡ wraps_compiler config.now (option_copied version.entry) }
{
    config.wrap_rustc_in_build_scripts && !takes_compile_time_deps(version)
}

// The command, which runs the compiler through the program that asks, where that is wanted.
fn with_wrapper(
    alloc: Global,
    line: CommandLine,
    wraps: bool,
    myself: &str,
) -> Result<CommandLine, AllocError>
    ensures { IfOk result (λ set. set ≡ with_wrapper wraps myself.now line) }
{
    if !wraps {
        return Ok(line);
    }
    let line = set_variable(alloc, line, "RUSTC_WRAPPER", myself)?;
    set_variable(alloc, line, "RA_RUSTC_WRAPPER", "1")
}
