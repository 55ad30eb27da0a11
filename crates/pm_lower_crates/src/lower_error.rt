//! Why a project has no graph.

ghost use Rattle.std.specs.Prelude.{◌≡◌};

use base_text_paths::{Limit, Text, TryClone};
use crate_graph::GraphError;
use std::alloc::{AllocError, AllocFailed, Global};
use std::error::Error;
use std::fmt;

/// Why a project has no graph.
#[derive(Debug, PartialEq, Eq, Drop)]
pub enum LowerError {
    /// The name of a dependency holds a dash: the name.
    BadCrateName(Text),
    /// There are more rows than the limit.
    TooMany(Limit),
    OutOfMemory,
}

impl From<AllocError> for LowerError {
    ghost use Rattle.pm_lower_crates.specs.declared.lower_error.LowerError.TheVariants.{OutOfMemory};

    ghost from_gives = { λ _ e. e ≡ OutOfMemory };

    fn from(_error: AllocError) -> Self {
        LowerError::OutOfMemory
    }
}

impl<T: Drop> From<AllocFailed<T>> for LowerError {
    ghost use Rattle.pm_lower_crates.specs.declared.lower_error.LowerError.TheVariants.{OutOfMemory};

    ghost from_gives = { λ _ e. e ≡ OutOfMemory };

    fn from(_error: AllocFailed<T>) -> Self {
        LowerError::OutOfMemory
    }
}

impl From<GraphError> for LowerError {
    ghost use Rattle.pm_lower_crates.specs.Refusal.{lower_error};

    ghost from_gives = { λ error e. e ≡ lower_error error };

    fn from(error: GraphError) -> Self {
        match error {
            GraphError::TooMany => LowerError::TooMany(Limit::Crates),
            GraphError::OutOfMemory => LowerError::OutOfMemory,
        }
    }
}

impl TryClone for LowerError {
    fn try_clone(&self, alloc: Global) -> Result<Self, AllocError> {
        match self {
            LowerError::BadCrateName(name) => Ok(LowerError::BadCrateName(name.try_clone(alloc)?)),
            LowerError::TooMany(limit) => Ok(LowerError::TooMany(*limit)),
            LowerError::OutOfMemory => Ok(LowerError::OutOfMemory),
        }
    }
}

/// The variant's name.
impl fmt::Display for LowerError {
    ghost use Rattle.std.specs.Prelude.{Some};
    ghost use Rattle.pm_lower_crates.specs.Refusal.{lower_error_name};

    ghost output = { λ error. Some (lower_error_name error) };

    fn fmt<W: fmt::Write>(&self, f: &mut fmt::Formatter<W>) -> fmt::Result {
        f.write_str(match self {
            LowerError::BadCrateName(_) => "BadCrateName",
            LowerError::TooMany(_) => "TooMany",
            LowerError::OutOfMemory => "OutOfMemory",
        })
    }
}

impl Error for LowerError {}
