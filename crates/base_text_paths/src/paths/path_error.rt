//! What is wrong with a text that is to be a path.

use std::alloc::AllocError;
use std::error::Error;
use std::fmt;

/// Why a text is no absolute path.
#[derive(Clone, Copy, Debug, PartialEq, Eq)]
pub enum PathError {
    /// The text does not begin with `/`.
    NotAbsolute,
    OutOfMemory,
}

impl fmt::Display for PathError {
    ghost use Rattle.std.specs.Prelude.{Some};
    ghost use Rattle.base_text_paths.specs.PathError.{path_error_text};

    ghost output = { λ e. Some (path_error_text e) };

    fn fmt<W: fmt::Write>(&self, f: &mut fmt::Formatter<W>) -> fmt::Result {
        match self {
            PathError::NotAbsolute => write!(f, "NotAbsolute"),
            PathError::OutOfMemory => write!(f, "OutOfMemory"),
        }
    }
}

impl Error for PathError {}

impl From<AllocError> for PathError {
    ghost use Rattle.std.specs.Prelude.{◌≡◌};
    ghost use Rattle.base_text_paths.specs.declared.paths.path_error.PathError.TheVariants.{OutOfMemory};

    ghost from_gives = { λ _ e. e ≡ OutOfMemory };

    fn from(_error: AllocError) -> Self {
        PathError::OutOfMemory
    }
}
