//! The path of a tool, as `rustup` says it.

ghost use Rattle.std.specs.Prelude.{◌≡◌, IfOk};
ghost use Rattle.pm_tools_ask.specs.Ask.{means_of};
ghost use Rattle.pm_tools_ask.specs.ToolPath.{path_question, tool_path, tool_word, with_environment};

use crate::ask::Ask;
use crate::question::words_of;
use crate::sysroot::Sysroot;
use base_text::{ByText, CommandLine, Items, Runner, Text, Tool, Tree, TryClone};
use crate_graph_values::Env;
use std::alloc::{AllocError, Global};

impl Sysroot {
    /// The path of a tool: what `rustup` writes when it is asked in a directory, whether or not it succeeds.
    /// It is the tool's name where no answer is recorded, and where there is no toolchain, whatever is
    /// recorded. The command of the question has the variables of `envs` over those of `ask`.
    pub fn tool_path<R: Runner, T: Tree>(
        &self,
        alloc: Global,
        tool: Tool,
        dir: &str,
        envs: &Env,
        ask: &Ask<'_, R, T>,
    ) -> Result<Text, AllocError>
        ensures { IfOk result (λ path. path
            ≡ tool_path self.now.root tool dir.now envs.now (means_of R.answers T.files ask.now)) }
    {
        if self.root().is_none() {
            return Text::of_str(alloc, ask.tools.name(tool));
        }
        let question = self.tool_path_question(alloc, tool, dir, envs, ask)?;
        match ask.runner.ask(alloc, &question)? {
            Some(output) => Text::of_str(alloc, output.out.as_str().trim_end()),
            None => Text::of_str(alloc, ask.tools.name(tool)),
        }
    }

    /// The question that `tool_path` asks.
    pub fn tool_path_question<R: Runner, T: Tree>(
        &self,
        alloc: Global,
        tool: Tool,
        dir: &str,
        envs: &Env,
        ask: &Ask<'_, R, T>,
    ) -> Result<CommandLine, AllocError>
        ensures { IfOk result (λ line. line
            ≡ path_question self.now.root tool dir.now envs.now (means_of R.answers T.files ask.now)) }
    {
        let variables = with_environment(alloc, ask.extra_env, envs)?;
        let command = self
            .tool_root(alloc, ask)?
            .command(alloc, Tool::Rustup, dir, &variables)?;
        let words = words_of(alloc, &["which", tool_word(tool)])?;
        Ok(CommandLine {
            program: command.program,
            words: Items::new(words),
            dir: command.dir,
            env: command.env,
        })
    }
}

// The word by which `rustup` knows a tool.
fn tool_word(tool: Tool) -> &'static str
    ensures { result.now ≡ tool_word tool }
{
    match tool {
        Tool::Cargo => "cargo",
        Tool::Rustc => "rustc",
        Tool::Rustup => "rustup",
    }
}

// The variables with those of an environment set over them.
fn with_environment(
    alloc: Global,
    variables: &ByText<Option<Text>>,
    envs: &Env,
) -> Result<ByText<Option<Text>>, AllocError>
    ensures { IfOk result (λ set. set ≡ with_environment envs.now variables.now) }
{
    let mut set = variables.try_clone(alloc)?;
    for (name, value) in envs.iter() {
        let name = String::from_str(alloc, name)?;
        drop(set.insert(name, Some(Text::of_str(alloc, value)?))?);
    }
    Ok(set)
}
