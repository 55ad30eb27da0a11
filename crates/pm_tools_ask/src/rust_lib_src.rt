//! The workspace that the sources of a toolchain's libraries are.

ghost use Rattle.std.specs.Prelude.{Some};
ghost use Rattle.pm_tools_ask.specs.RustLibSrc.{workspace_text};

use base_text::TryClone;
use std::alloc::{AllocError, Global};
use std::fmt;

/// What was read from the sources of the libraries.
#[derive(Debug, Drop, PartialEq, Eq)]
pub enum RustLibSrcWorkspace {
    Empty,
}

impl TryClone for RustLibSrcWorkspace {
    fn try_clone(&self, _alloc: Global) -> Result<Self, AllocError> {
        match self {
            RustLibSrcWorkspace::Empty => Ok(RustLibSrcWorkspace::Empty),
        }
    }
}

impl fmt::Display for RustLibSrcWorkspace {
    ghost output = { λ workspace. Some (workspace_text workspace) };

    fn fmt<W: fmt::Write>(&self, f: &mut fmt::Formatter<W>) -> fmt::Result {
        match self {
            RustLibSrcWorkspace::Empty => f.write_str("empty"),
        }
    }
}
