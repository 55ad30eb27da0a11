//! Why a document is read as no project.

use base_text_paths::{Limit, Text, TryClone};
use std::alloc::{AllocError, AllocFailed, Global};
use std::error::Error;
use std::fmt;

/// Why a document is read as no project.
#[derive(Debug, PartialEq, Eq, Drop)]
pub enum WorkspaceJsonError {
    /// The document has more of a kind than the limit.
    TooMany(Limit),
    /// The root module of a crate with no stated directories is `/`: the path.
    NoParent(Text),
    OutOfMemory,
}

impl From<AllocError> for WorkspaceJsonError {
    ghost use Rattle.std.specs.Prelude.{◌≡◌};
    ghost use Rattle.pm_json.specs.declared.workspace_json_error.WorkspaceJsonError.TheVariants.{OutOfMemory};

    ghost from_gives = { λ _ e. e ≡ OutOfMemory };

    fn from(_error: AllocError) -> WorkspaceJsonError {
        WorkspaceJsonError::OutOfMemory
    }
}

impl<T: Drop> From<AllocFailed<T>> for WorkspaceJsonError {
    ghost use Rattle.std.specs.Prelude.{◌≡◌};
    ghost use Rattle.pm_json.specs.declared.workspace_json_error.WorkspaceJsonError.TheVariants.{OutOfMemory};

    ghost from_gives = { λ _ e. e ≡ OutOfMemory };

    fn from(_error: AllocFailed<T>) -> WorkspaceJsonError {
        WorkspaceJsonError::OutOfMemory
    }
}

impl TryClone for WorkspaceJsonError {
    fn try_clone(&self, alloc: Global) -> Result<Self, AllocError> {
        match self {
            WorkspaceJsonError::TooMany(limit) => Ok(WorkspaceJsonError::TooMany(*limit)),
            WorkspaceJsonError::NoParent(text) => {
                Ok(WorkspaceJsonError::NoParent(text.try_clone(alloc)?))
            }
            WorkspaceJsonError::OutOfMemory => Ok(WorkspaceJsonError::OutOfMemory),
        }
    }
}

/// The variant's name.
impl fmt::Display for WorkspaceJsonError {
    ghost use Rattle.std.specs.Prelude.{Some};
    ghost use Rattle.pm_json.specs.Refusals.{json_error_name};

    ghost output = { λ error. Some (json_error_name error) };

    fn fmt<W: fmt::Write>(&self, f: &mut fmt::Formatter<W>) -> fmt::Result {
        f.write_str(match self {
            WorkspaceJsonError::TooMany(_) => "TooMany",
            WorkspaceJsonError::NoParent(_) => "NoParent",
            WorkspaceJsonError::OutOfMemory => "OutOfMemory",
        })
    }
}

impl Error for WorkspaceJsonError {}
