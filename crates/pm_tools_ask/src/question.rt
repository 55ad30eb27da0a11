//! Questions that the tools of a toolchain are asked: a command with its words.

ghost use Rattle.std.specs.Prelude.{◌≡◌, IfOk, map};
ghost use Rattle.pm_tools_ask.specs.Ask.{means_of};
ghost use Rattle.pm_tools_ask.specs.Questions.{question};

use crate::ask::Ask;
use crate::sysroot::Sysroot;
use base_text::{CommandLine, Items, Runner, Text, Tool, Tree};
use std::alloc::{AllocError, Global};

impl Sysroot {
    /// The command that starts a tool in a directory with these words.
    pub fn question<R: Runner, T: Tree>(
        &self,
        alloc: Global,
        tool: Tool,
        dir: &str,
        words: Vec<Text>,
        ask: &Ask<'_, R, T>,
    ) -> Result<CommandLine, AllocError>
        ensures { IfOk result (λ line. line
            ≡ question self.now.root tool dir.now words.items (means_of R.answers T.files ask.now)) }
    {
        let command = self.tool(alloc, tool, dir, ask)?;
        Ok(CommandLine {
            program: command.program,
            words: Items::new(words),
            dir: command.dir,
            env: command.env,
        })
    }
}

/// Copies of some words.
pub fn words_of(alloc: Global, words: &[&str]) -> Result<Vec<Text>, AllocError>
    ensures { IfOk result (λ copies. copies.items ≡ map (λ word. word.now) words.now) }
{
    let mut copies = Vec::new(alloc);
    for word in words {
        copies.push(Text::of_str(alloc, word)?)?;
    }
    Ok(copies)
}
