//! Why a session loads no project.

use base_text::{Text, TryClone};
use pm_lower_load::LoadError;
use std::alloc::{AllocError, Global};
use std::error::Error;
use std::fmt;

/// Why a session loads no project.
#[derive(Debug, PartialEq, Eq, Drop)]
pub enum ProjectError {
    /// The path is not absolute, or its name is that of no manifest: the path as it was given.
    BadManifest(Text),
    /// The project of the manifest is refused. The error is never `OutOfMemory`.
    Refused(LoadError),
    OutOfMemory,
}

impl From<AllocError> for ProjectError {
    ghost use Rattle.std.specs.Prelude.{◌≡◌};
    ghost use Rattle.live_project.specs.declared.project_error.ProjectError.TheVariants.{OutOfMemory};

    ghost from_gives = { λ _ e. e ≡ OutOfMemory };

    fn from(_error: AllocError) -> ProjectError {
        ProjectError::OutOfMemory
    }
}

impl From<LoadError> for ProjectError {
    ghost use Rattle.std.specs.Prelude.{◌≡◌};
    ghost use Rattle.live_project.specs.Project.{of_load_error};

    ghost from_gives = { λ error e. e ≡ of_load_error error };

    fn from(error: LoadError) -> ProjectError {
        match error {
            LoadError::OutOfMemory => ProjectError::OutOfMemory,
            error => ProjectError::Refused(error),
        }
    }
}

impl TryClone for ProjectError {
    fn try_clone(&self, alloc: Global) -> Result<Self, AllocError> {
        match self {
            ProjectError::BadManifest(path) => {
                Ok(ProjectError::BadManifest(path.try_clone(alloc)?))
            }
            ProjectError::Refused(error) => Ok(ProjectError::Refused(error.try_clone(alloc)?)),
            ProjectError::OutOfMemory => Ok(ProjectError::OutOfMemory),
        }
    }
}

/// The variant's name.
impl fmt::Display for ProjectError {
    ghost use Rattle.std.specs.Prelude.{Some};
    ghost use Rattle.live_project.specs.Project.{project_error_name};

    ghost output = { λ error. Some (project_error_name error) };

    fn fmt<W: fmt::Write>(&self, f: &mut fmt::Formatter<W>) -> fmt::Result {
        f.write_str(match self {
            ProjectError::BadManifest(_) => "BadManifest",
            ProjectError::Refused(_) => "Refused",
            ProjectError::OutOfMemory => "OutOfMemory",
        })
    }
}

impl Error for ProjectError {}
