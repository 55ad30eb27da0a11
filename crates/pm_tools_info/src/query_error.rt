//! Why a question about a toolchain has no answer.

use base_text::{Text, TryClone};
use std::alloc::{AllocError, Global};
use std::{error, fmt};

/// Why a question has no answer.
#[derive(Debug, Drop, PartialEq, Eq)]
pub enum QueryError {
    /// No answer serves. This is the last command line that was asked.
    Failed(Text),
    /// The answer names no platform that the compiler runs on.
    NoHost,
    /// The answer is no specification of a platform.
    BadSpec,
    OutOfMemory,
}

impl From<AllocError> for QueryError {
    ghost use Rattle.std.specs.Prelude.{◌≡◌};
    ghost use Rattle.pm_tools_info.specs.declared.query_error.QueryError.TheVariants.{OutOfMemory};

    ghost from_gives = { λ _ e. e ≡ OutOfMemory };

    fn from(_error: AllocError) -> QueryError {
        QueryError::OutOfMemory
    }
}

impl TryClone for QueryError {
    fn try_clone(&self, alloc: Global) -> Result<Self, AllocError> {
        match self {
            QueryError::Failed(line) => Ok(QueryError::Failed(line.try_clone(alloc)?)),
            QueryError::NoHost => Ok(QueryError::NoHost),
            QueryError::BadSpec => Ok(QueryError::BadSpec),
            QueryError::OutOfMemory => Ok(QueryError::OutOfMemory),
        }
    }
}

/// Prints the name of the variant.
impl fmt::Display for QueryError {
    ghost use Rattle.std.specs.Prelude.{Some};
    ghost use Rattle.pm_tools_info.specs.Asked.{query_error_text};

    ghost output = { λ e. Some (query_error_text e) };

    fn fmt<W: fmt::Write>(&self, f: &mut fmt::Formatter<W>) -> fmt::Result {
        match self {
            QueryError::Failed(_) => f.write_str("Failed"),
            QueryError::NoHost => f.write_str("NoHost"),
            QueryError::BadSpec => f.write_str("BadSpec"),
            QueryError::OutOfMemory => f.write_str("OutOfMemory"),
        }
    }
}

impl error::Error for QueryError {}
