//! Why no manifest is discovered.

use std::alloc::AllocError;
use std::error::Error;
use std::fmt;

/// Why no manifest is discovered, or not one alone.
#[derive(Clone, Copy, Debug, PartialEq, Eq)]
pub enum DiscoverError {
    /// None is found in the path or above it, and the path is no directory.
    NoDirectory,
    /// None is found at all.
    NoProject,
    /// More than one is found, of which none comes first.
    Several,
    OutOfMemory,
}

impl From<AllocError> for DiscoverError {
    ghost use Rattle.std.specs.Prelude.{◌≡◌};
    ghost use Rattle.pm_tools_ask.specs.declared.discover_error.DiscoverError.TheVariants.{OutOfMemory};

    ghost from_gives = { λ _ e. e ≡ OutOfMemory };

    fn from(_error: AllocError) -> Self {
        DiscoverError::OutOfMemory
    }
}

/// The variant's name.
impl fmt::Display for DiscoverError {
    ghost use Rattle.std.specs.Prelude.{Some};
    ghost use Rattle.pm_tools_ask.specs.DiscoverErrors.{discover_error_name};

    ghost output = { λ error. Some (discover_error_name error) };

    fn fmt<W: fmt::Write>(&self, f: &mut fmt::Formatter<W>) -> fmt::Result {
        f.write_str(match self {
            DiscoverError::NoDirectory => "NoDirectory",
            DiscoverError::NoProject => "NoProject",
            DiscoverError::Several => "Several",
            DiscoverError::OutOfMemory => "OutOfMemory",
        })
    }
}

impl Error for DiscoverError {}
