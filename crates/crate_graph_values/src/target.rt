//! What is known of the machine that a crate is built for.

ghost use Rattle.std.specs.Prelude.{Some};

use base_text_paths::{Text, TryClone};
use std::alloc::{AllocError, Global};
use std::error::Error;
use std::fmt;

/// The kinds of machine that matter to the input side.
#[derive(Clone, Copy, Debug, PartialEq, Eq, Hash)]
pub enum Arch {
    Wasm32,
    Wasm64,
    Other,
}

impl TryClone for Arch {
    fn try_clone(&self, _alloc: Global) -> Result<Self, AllocError> {
        Ok(*self)
    }
}

/// The machine, as the compiler's target specification has it.
#[derive(Debug, PartialEq, Eq, Hash, Drop)]
pub struct TargetData {
    /// How values lie in memory, in LLVM's words.
    pub data_layout: Text,
    pub arch: Arch,
}

impl TryClone for TargetData {
    fn try_clone(&self, alloc: Global) -> Result<Self, AllocError> {
        let data_layout = self.data_layout.try_clone(alloc)?;
        Ok(TargetData {
            data_layout,
            arch: self.arch,
        })
    }
}

/// Why nothing is known of the machine.
#[derive(Debug, PartialEq, Eq, Hash, Drop)]
pub struct TargetLoadError(pub Text);

impl TryClone for TargetLoadError {
    fn try_clone(&self, alloc: Global) -> Result<Self, AllocError> {
        let text = self.0.try_clone(alloc)?;
        Ok(TargetLoadError(text))
    }
}

impl fmt::Display for TargetLoadError {
    ghost output = { λ a. Some a.0 };

    fn fmt<W: fmt::Write>(&self, f: &mut fmt::Formatter<W>) -> fmt::Result {
        f.write_str(self.0.as_str())
    }
}

impl Error for TargetLoadError {}

/// The machine, or why nothing is known of it.
pub type TargetLoadResult = Result<TargetData, TargetLoadError>;
