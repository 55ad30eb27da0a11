//! Why no metadata was read.

ghost use Rattle.std.specs.Prelude.{◌≡◌, IfOk, Ok};
ghost use Rattle.json_fields.specs.Outcome.{Gives, Reading};
ghost use Rattle.cargo_meta_values.specs.Errors.{GivesDocument};

use base_values::{Text, TryClone};
use json_fields::ReadError;
use std::alloc::{AllocError, Global};
use std::{error, fmt};

/// Why no metadata was read.
#[derive(Debug, PartialEq, Eq, Drop)]
pub enum Error {
    /// `cargo metadata` ended with an error.
    CargoMetadata { stderr: Text },
    /// `cargo metadata` was not started.
    Io { line: Text },
    /// The document does not fit its tables: the first place that it misses.
    Json { field: Text },
    /// No document was written.
    NoJson,
    OutOfMemory,
}

impl From<AllocError> for Error {
    ghost use Rattle.std.specs.Prelude.{◌≡◌};
    ghost use Rattle.cargo_meta_values.specs.declared.errors.Error.TheVariants.{OutOfMemory};

    ghost from_gives = { λ _ e. e ≡ OutOfMemory };

    fn from(_error: AllocError) -> Error {
        Error::OutOfMemory
    }
}

impl TryClone for Error {
    fn try_clone(&self, alloc: Global) -> Result<Self, AllocError> {
        match self {
            Error::CargoMetadata { stderr } => Ok(Error::CargoMetadata {
                stderr: stderr.try_clone(alloc)?,
            }),
            Error::Io { line } => Ok(Error::Io {
                line: line.try_clone(alloc)?,
            }),
            Error::Json { field } => Ok(Error::Json {
                field: field.try_clone(alloc)?,
            }),
            Error::NoJson => Ok(Error::NoJson),
            Error::OutOfMemory => Ok(Error::OutOfMemory),
        }
    }
}

impl error::Error for Error {}

impl fmt::Display for Error {
    ghost use Rattle.std.specs.Prelude.{Some};
    ghost use Rattle.cargo_meta_values.specs.Errors.{metadata_error_text};

    ghost output = { λ e. Some (metadata_error_text e) };

    fn fmt<W: fmt::Write>(&self, f: &mut fmt::Formatter<W>) -> fmt::Result {
        match self {
            Error::CargoMetadata { stderr } => {
                f.write_str("`cargo metadata` exited with an error: ")?;
                f.write_str(stderr.as_str())
            }
            Error::Io { line } => {
                f.write_str("failed to start `cargo metadata`: ")?;
                f.write_str(line.as_str())
            }
            Error::Json { field } => {
                f.write_str("failed to interpret `cargo metadata`'s json: ")?;
                f.write_str(field.as_str())
            }
            Error::NoJson => {
                f.write_str("could not find any json in the output of `cargo metadata`")
            }
            Error::OutOfMemory => f.write_str("out of memory"),
        }
    }
}

/// What a document's reader returned, with this crate's error.
pub fn as_error<T>(answer: Result<T, ReadError>) -> Result<T, Error>
    ensures exact { (reading : Reading T) → Gives answer reading → GivesDocument result reading }
    ensures same { IfOk result (λ x. answer ≡ Ok x) }
{
    match answer {
        Ok(x) => Ok(x),
        Err(ReadError::Missed(field)) => Err(Error::Json { field }),
        Err(ReadError::OutOfMemory) => Err(Error::OutOfMemory),
    }
}
