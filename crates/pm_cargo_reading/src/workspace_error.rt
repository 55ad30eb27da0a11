//! Why a document is read as no workspace.

use base_text_paths::{Limit, Text, TryClone};
use std::alloc::{AllocError, AllocFailed, Global};
use std::error::Error;
use std::fmt;

/// Why a document is read as no workspace.
#[derive(Debug, PartialEq, Eq, Drop)]
pub enum WorkspaceError {
    /// A path of the document does not begin with `/`: its text.
    NotAbsolute(Text),
    /// A manifest's path is `/`: the path.
    NoParent(Text),
    /// The id of a node, or of one of its dependencies, is that of no package.
    UnknownPackage(Text),
    /// The document has more of a kind than the limit.
    TooMany(Limit),
    OutOfMemory,
}

impl From<AllocError> for WorkspaceError {
    ghost use Rattle.std.specs.Prelude.{◌≡◌};
    ghost use Rattle.pm_cargo_reading.specs.declared.workspace_error.WorkspaceError.TheVariants.{OutOfMemory};

    ghost from_gives = { λ _ e. e ≡ OutOfMemory };

    fn from(_error: AllocError) -> WorkspaceError {
        WorkspaceError::OutOfMemory
    }
}

impl<T: Drop> From<AllocFailed<T>> for WorkspaceError {
    ghost use Rattle.std.specs.Prelude.{◌≡◌};
    ghost use Rattle.pm_cargo_reading.specs.declared.workspace_error.WorkspaceError.TheVariants.{OutOfMemory};

    ghost from_gives = { λ _ e. e ≡ OutOfMemory };

    fn from(_error: AllocFailed<T>) -> WorkspaceError {
        WorkspaceError::OutOfMemory
    }
}

impl TryClone for WorkspaceError {
    fn try_clone(&self, alloc: Global) -> Result<Self, AllocError> {
        match self {
            WorkspaceError::NotAbsolute(text) => {
                Ok(WorkspaceError::NotAbsolute(text.try_clone(alloc)?))
            }
            WorkspaceError::NoParent(text) => Ok(WorkspaceError::NoParent(text.try_clone(alloc)?)),
            WorkspaceError::UnknownPackage(id) => {
                Ok(WorkspaceError::UnknownPackage(id.try_clone(alloc)?))
            }
            WorkspaceError::TooMany(limit) => Ok(WorkspaceError::TooMany(*limit)),
            WorkspaceError::OutOfMemory => Ok(WorkspaceError::OutOfMemory),
        }
    }
}

/// The variant's name.
impl fmt::Display for WorkspaceError {
    ghost use Rattle.std.specs.Prelude.{Some};
    ghost use Rattle.pm_cargo_reading.specs.Errors.{workspace_error_name};

    ghost output = { λ error. Some (workspace_error_name error) };

    fn fmt<W: fmt::Write>(&self, f: &mut fmt::Formatter<W>) -> fmt::Result {
        f.write_str(match self {
            WorkspaceError::NotAbsolute(_) => "NotAbsolute",
            WorkspaceError::NoParent(_) => "NoParent",
            WorkspaceError::UnknownPackage(_) => "UnknownPackage",
            WorkspaceError::TooMany(_) => "TooMany",
            WorkspaceError::OutOfMemory => "OutOfMemory",
        })
    }
}

impl Error for WorkspaceError {}
