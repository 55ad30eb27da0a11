//! The tools that questions are asked by, and their names.

ghost use Rattle.std.specs.Prelude.{◌≡◌};
ghost use Rattle.base_text.specs.Tools.{tool_name};

use base_text_paths::{Text, TryClone};
use std::alloc::{AllocError, Global};

/// A tool of a toolchain.
#[derive(Clone, Copy, Debug, PartialEq, Eq)]
pub enum Tool {
    Cargo,
    Rustc,
    Rustup,
}

/// The names that the tools are started by, and the name of the program that asks.
#[derive(Debug, Drop, PartialEq, Eq)]
pub struct Tools {
    pub cargo: Text,
    pub rustc: Text,
    pub rustup: Text,
    pub myself: Text,
}

impl Tools {
    pub fn name(&self, tool: Tool) -> &str
        ensures { result.now ≡ tool_name self.now tool }
    {
        match tool {
            Tool::Cargo => self.cargo.as_str(),
            Tool::Rustc => self.rustc.as_str(),
            Tool::Rustup => self.rustup.as_str(),
        }
    }
}

impl TryClone for Tools {
    fn try_clone(&self, alloc: Global) -> Result<Self, AllocError> {
        Ok(Tools {
            cargo: self.cargo.try_clone(alloc)?,
            rustc: self.rustc.try_clone(alloc)?,
            rustup: self.rustup.try_clone(alloc)?,
            myself: self.myself.try_clone(alloc)?,
        })
    }
}
