//! The toolchain that questions are asked of: which program answers, and with which variables.

ghost use Rattle.std.specs.Prelude.{◌≡◌, [], IfOk, option_copied};
ghost use Rattle.base_text.specs.Tools.{named_variables, tool_command, rooted_tool_path};

use crate::tool::{Tool, Tools};
use base_text_paths::{AbsPathBuf, ByText, CommandLine, Items, Text, TryClone};
use std::alloc::{AllocError, Global};

/// The names of the tools, and the toolchain that they are taken from.
#[derive(Debug, Drop, PartialEq, Eq)]
pub struct ToolRoot {
    pub tools: Tools,
    /// The directory of the toolchain, if it is known.
    pub root: Option<AbsPathBuf>,
    /// The path of `rustc` in that directory, if there is one.
    pub rustc: Option<AbsPathBuf>,
    /// Whether the process has the variable `RUSTUP_TOOLCHAIN`.
    pub toolchain_set: bool,
}

impl ToolRoot {
    /// The command that starts a tool in a directory, with no words yet. Its variables are those of
    /// `envs`, and for a tool by its name the toolchain, unless `envs` or the process has it.
    pub fn command(
        &self,
        alloc: Global,
        tool: Tool,
        dir: &str,
        envs: &ByText<Option<Text>>,
    ) -> Result<CommandLine, AllocError>
        ensures { IfOk result (λ line. line ≡ tool_command self.now tool dir.now envs.now) }
    {
        match self.tool_path(tool) {
            Some(path) => start(alloc, path.as_str(), dir, envs.try_clone(alloc)?),
            None => {
                let name = self.tools.name(tool);
                start(alloc, name, dir, self.named_variables(alloc, envs)?)
            }
        }
    }

    // The path that a tool is started by, where it has one.
    fn tool_path(&self, tool: Tool) -> Option<&AbsPathBuf>
        ensures { option_copied result ≡ rooted_tool_path self.now tool }
    {
        match (tool, &self.root) {
            (Tool::Rustc, Some(_)) => self.rustc.as_ref(),
            _ => None,
        }
    }

    // The variables of a tool that is started by its name.
    fn named_variables(
        &self,
        alloc: Global,
        envs: &ByText<Option<Text>>,
    ) -> Result<ByText<Option<Text>>, AllocError>
        ensures { IfOk result (λ variables. variables ≡ named_variables self.now envs.now) }
    {
        let mut variables = envs.try_clone(alloc)?;
        if self.toolchain_set || envs.get("RUSTUP_TOOLCHAIN").is_some() {
            return Ok(variables);
        }
        if let Some(root) = &self.root {
            let name = String::from_str(alloc, "RUSTUP_TOOLCHAIN")?;
            let root = Text::of_str(alloc, root.as_str())?;
            drop(variables.insert(name, Some(root))?);
        }
        Ok(variables)
    }
}

impl TryClone for ToolRoot {
    fn try_clone(&self, alloc: Global) -> Result<Self, AllocError> {
        Ok(ToolRoot {
            root: self.root.try_clone(alloc)?,
            rustc: self.rustc.try_clone(alloc)?,
            toolchain_set: self.toolchain_set,
            tools: self.tools.try_clone(alloc)?,
        })
    }
}

// The command that starts a program in a directory with these variables, and has no words.
fn start(
    alloc: Global,
    program: &str,
    dir: &str,
    variables: ByText<Option<Text>>,
) -> Result<CommandLine, AllocError>
    ensures { IfOk result (λ line. line
        ≡ record { program = program.now; words = []; dir = dir.now; env = variables }) }
{
    Ok(CommandLine {
        program: Text::of_str(alloc, program)?,
        words: Items::empty(alloc),
        dir: Text::of_str(alloc, dir)?,
        env: in_order(alloc, variables)?,
    })
}

// The variables by ascending name.
fn in_order(
    alloc: Global,
    variables: ByText<Option<Text>>,
) -> Result<Items<(Text, Option<Text>)>, AllocError>
    ensures { IfOk result (λ list. list ≡ variables) }
{
    let mut list = Vec::with_capacity(alloc, variables.len())?;
    for (name, value) in variables.into_inner() {
        list.push((Text::new(name), value))?;
    }
    Ok(Items::new(list))
}
