//! Where the library of a crate of procedural macros is, or why there is none.

ghost use Rattle.std.specs.Prelude.{◌≡◌, Some};
ghost use Rattle.crate_graph_values.specs.ProcMacro.{is_hard, reason};

use base_text_paths::{Text, TryClone};
use std::alloc::{AllocError, Global};
use std::error::Error;
use std::fmt;

/// Why a crate of procedural macros has no library to load.
#[derive(Debug, PartialEq, Eq, Hash, Drop)]
pub enum ProcMacroLoadingError {
    Disabled,
    FailedToBuild,
    ExpectedProcMacroArtifact,
    MissingDylibPath,
    NotYetBuilt,
    NoProcMacros,
    ProcMacroSrvError(Text),
}

impl ProcMacroLoadingError {
    /// Whether it is a fault, and no choice or delay.
    pub fn is_hard_error(&self) -> bool
        ensures { result ≡ is_hard self.now }
    {
        !matches!(
            self,
            ProcMacroLoadingError::Disabled | ProcMacroLoadingError::NotYetBuilt
        )
    }
}

impl TryClone for ProcMacroLoadingError {
    fn try_clone(&self, alloc: Global) -> Result<Self, AllocError> {
        match self {
            ProcMacroLoadingError::Disabled => Ok(ProcMacroLoadingError::Disabled),
            ProcMacroLoadingError::FailedToBuild => Ok(ProcMacroLoadingError::FailedToBuild),
            ProcMacroLoadingError::ExpectedProcMacroArtifact => {
                Ok(ProcMacroLoadingError::ExpectedProcMacroArtifact)
            }
            ProcMacroLoadingError::MissingDylibPath => Ok(ProcMacroLoadingError::MissingDylibPath),
            ProcMacroLoadingError::NotYetBuilt => Ok(ProcMacroLoadingError::NotYetBuilt),
            ProcMacroLoadingError::NoProcMacros => Ok(ProcMacroLoadingError::NoProcMacros),
            ProcMacroLoadingError::ProcMacroSrvError(text) => {
                let text = text.try_clone(alloc)?;
                Ok(ProcMacroLoadingError::ProcMacroSrvError(text))
            }
        }
    }
}

impl fmt::Display for ProcMacroLoadingError {
    ghost output = { λ a. Some (reason a) };

    fn fmt<W: fmt::Write>(&self, f: &mut fmt::Formatter<W>) -> fmt::Result {
        match self {
            ProcMacroLoadingError::Disabled => f.write_str("proc-macro expansion is disabled"),
            ProcMacroLoadingError::FailedToBuild => f.write_str("proc-macro failed to build"),
            ProcMacroLoadingError::ExpectedProcMacroArtifact => {
                f.write_str("proc-macro crate did not build proc-macro artifact")
            }
            ProcMacroLoadingError::MissingDylibPath => f.write_str(
                "proc-macro crate built but the dylib path is missing, this indicates a problem with your build system.",
            ),
            ProcMacroLoadingError::NotYetBuilt => f.write_str("proc-macro not yet built"),
            ProcMacroLoadingError::NoProcMacros => {
                f.write_str("proc macro library has no proc macros")
            }
            ProcMacroLoadingError::ProcMacroSrvError(text) => {
                f.write_str("proc macro server error: ")?;
                f.write_str(text.as_str())
            }
        }
    }
}

impl Error for ProcMacroLoadingError {}
