//! Why a build gives no outputs.

use base_text::{Text, TryClone};
use std::alloc::{AllocError, AllocFailed, Global};
use std::error::Error;
use std::fmt;

/// Why a build gives no outputs.
#[derive(Debug, PartialEq, Eq, Drop)]
pub enum BuildError {
    /// The command that builds has no answer: its line.
    Io(Text),
    /// A directory of outputs, or the path of a library, does not begin with `/`: its text.
    NotAbsolute(Text),
    OutOfMemory,
}

impl From<AllocError> for BuildError {
    ghost use Rattle.std.specs.Prelude.{◌≡◌};
    ghost use Rattle.pm_tools.specs.declared.build_error.BuildError.TheVariants.{OutOfMemory};

    ghost from_gives = { λ _ e. e ≡ OutOfMemory };

    fn from(_error: AllocError) -> BuildError {
        BuildError::OutOfMemory
    }
}

impl<T: Drop> From<AllocFailed<T>> for BuildError {
    ghost use Rattle.std.specs.Prelude.{◌≡◌};
    ghost use Rattle.pm_tools.specs.declared.build_error.BuildError.TheVariants.{OutOfMemory};

    ghost from_gives = { λ _ e. e ≡ OutOfMemory };

    fn from(_error: AllocFailed<T>) -> BuildError {
        BuildError::OutOfMemory
    }
}

impl TryClone for BuildError {
    fn try_clone(&self, alloc: Global) -> Result<Self, AllocError> {
        match self {
            BuildError::Io(line) => Ok(BuildError::Io(line.try_clone(alloc)?)),
            BuildError::NotAbsolute(text) => Ok(BuildError::NotAbsolute(text.try_clone(alloc)?)),
            BuildError::OutOfMemory => Ok(BuildError::OutOfMemory),
        }
    }
}

/// The variant's name.
impl fmt::Display for BuildError {
    ghost use Rattle.std.specs.Prelude.{Some};
    ghost use Rattle.pm_tools.specs.Errors.{build_error_name};

    ghost output = { λ error. Some (build_error_name error) };

    fn fmt<W: fmt::Write>(&self, f: &mut fmt::Formatter<W>) -> fmt::Result {
        f.write_str(match self {
            BuildError::Io(_) => "Io",
            BuildError::NotAbsolute(_) => "NotAbsolute",
            BuildError::OutOfMemory => "OutOfMemory",
        })
    }
}

impl Error for BuildError {}
