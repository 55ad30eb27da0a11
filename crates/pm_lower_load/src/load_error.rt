//! Why no project is loaded.

use base_text::{Limit, Text, TryClone};
use cargo_meta_values::Error as MetadataError;
use json_fields::ReadError;
use pm_cargo_reading::WorkspaceError;
use pm_json::WorkspaceJsonError;
use std::alloc::{AllocError, AllocFailed, Global};
use std::error::Error;
use std::fmt;

/// Why no project is loaded.
#[derive(Debug, PartialEq, Eq, Drop)]
pub enum LoadError {
    /// There is no file at the path of a JSON project: the path as it was given.
    NoSuchFile(Text),
    /// `cargo metadata` ended with an error.
    CargoMetadata { stderr: Text },
    /// `cargo metadata` was not started.
    Io { line: Text },
    /// The metadata or the document of a JSON project does not fit its tables: the first place that it misses.
    Json { field: Text },
    /// `cargo metadata` wrote no document.
    NoJson,
    /// A path does not begin with `/`: its text.
    NotAbsolute(Text),
    /// The path of a manifest or of a root module is `/`: the path.
    NoParent(Text),
    /// The id of a node, or of one of its dependencies, is that of no package.
    UnknownPackage(Text),
    /// There is more of a kind than the limit.
    TooMany(Limit),
    OutOfMemory,
}

impl From<AllocError> for LoadError {
    ghost use Rattle.std.specs.Prelude.{◌≡◌};
    ghost use Rattle.pm_lower_load.specs.declared.load_error.LoadError.TheVariants.{OutOfMemory};

    ghost from_gives = { λ _ e. e ≡ OutOfMemory };

    fn from(_error: AllocError) -> LoadError {
        LoadError::OutOfMemory
    }
}

impl<T: Drop> From<AllocFailed<T>> for LoadError {
    ghost use Rattle.std.specs.Prelude.{◌≡◌};
    ghost use Rattle.pm_lower_load.specs.declared.load_error.LoadError.TheVariants.{OutOfMemory};

    ghost from_gives = { λ _ e. e ≡ OutOfMemory };

    fn from(_error: AllocFailed<T>) -> LoadError {
        LoadError::OutOfMemory
    }
}

impl From<WorkspaceError> for LoadError {
    ghost use Rattle.std.specs.Prelude.{◌≡◌};
    ghost use Rattle.pm_lower_load.specs.Loading.{of_workspace_error};

    ghost from_gives = { λ error e. e ≡ of_workspace_error error };

    fn from(error: WorkspaceError) -> LoadError {
        match error {
            WorkspaceError::NotAbsolute(text) => LoadError::NotAbsolute(text),
            WorkspaceError::NoParent(text) => LoadError::NoParent(text),
            WorkspaceError::UnknownPackage(id) => LoadError::UnknownPackage(id),
            WorkspaceError::TooMany(limit) => LoadError::TooMany(limit),
            WorkspaceError::OutOfMemory => LoadError::OutOfMemory,
        }
    }
}

impl From<MetadataError> for LoadError {
    ghost use Rattle.std.specs.Prelude.{◌≡◌};
    ghost use Rattle.pm_lower_load.specs.Loading.{of_metadata_error};

    ghost from_gives = { λ error e. e ≡ of_metadata_error error };

    fn from(error: MetadataError) -> LoadError {
        match error {
            MetadataError::CargoMetadata { stderr } => LoadError::CargoMetadata { stderr },
            MetadataError::Io { line } => LoadError::Io { line },
            MetadataError::Json { field } => LoadError::Json { field },
            MetadataError::NoJson => LoadError::NoJson,
            MetadataError::OutOfMemory => LoadError::OutOfMemory,
        }
    }
}

impl From<ReadError> for LoadError {
    ghost use Rattle.std.specs.Prelude.{◌≡◌};
    ghost use Rattle.pm_lower_load.specs.Loading.{of_read_error};

    ghost from_gives = { λ error e. e ≡ of_read_error error };

    fn from(error: ReadError) -> LoadError {
        match error {
            ReadError::Missed(field) => LoadError::Json { field },
            ReadError::OutOfMemory => LoadError::OutOfMemory,
        }
    }
}

impl From<WorkspaceJsonError> for LoadError {
    ghost use Rattle.std.specs.Prelude.{◌≡◌};
    ghost use Rattle.pm_lower_load.specs.Loading.{of_json_error};

    ghost from_gives = { λ error e. e ≡ of_json_error error };

    fn from(error: WorkspaceJsonError) -> LoadError {
        match error {
            WorkspaceJsonError::TooMany(limit) => LoadError::TooMany(limit),
            WorkspaceJsonError::NoParent(text) => LoadError::NoParent(text),
            WorkspaceJsonError::OutOfMemory => LoadError::OutOfMemory,
        }
    }
}

impl TryClone for LoadError {
    fn try_clone(&self, alloc: Global) -> Result<Self, AllocError> {
        match self {
            LoadError::NoSuchFile(path) => Ok(LoadError::NoSuchFile(path.try_clone(alloc)?)),
            LoadError::CargoMetadata { stderr } => Ok(LoadError::CargoMetadata {
                stderr: stderr.try_clone(alloc)?,
            }),
            LoadError::Io { line } => Ok(LoadError::Io {
                line: line.try_clone(alloc)?,
            }),
            LoadError::Json { field } => Ok(LoadError::Json {
                field: field.try_clone(alloc)?,
            }),
            LoadError::NoJson => Ok(LoadError::NoJson),
            LoadError::NotAbsolute(text) => Ok(LoadError::NotAbsolute(text.try_clone(alloc)?)),
            LoadError::NoParent(text) => Ok(LoadError::NoParent(text.try_clone(alloc)?)),
            LoadError::UnknownPackage(id) => Ok(LoadError::UnknownPackage(id.try_clone(alloc)?)),
            LoadError::TooMany(limit) => Ok(LoadError::TooMany(*limit)),
            LoadError::OutOfMemory => Ok(LoadError::OutOfMemory),
        }
    }
}

/// The variant's name.
impl fmt::Display for LoadError {
    ghost use Rattle.std.specs.Prelude.{Some};
    ghost use Rattle.pm_lower_load.specs.Loading.{load_error_name};

    ghost output = { λ error. Some (load_error_name error) };

    fn fmt<W: fmt::Write>(&self, f: &mut fmt::Formatter<W>) -> fmt::Result {
        f.write_str(match self {
            LoadError::NoSuchFile(_) => "NoSuchFile",
            LoadError::CargoMetadata { .. } => "CargoMetadata",
            LoadError::Io { .. } => "Io",
            LoadError::Json { .. } => "Json",
            LoadError::NoJson => "NoJson",
            LoadError::NotAbsolute(_) => "NotAbsolute",
            LoadError::NoParent(_) => "NoParent",
            LoadError::UnknownPackage(_) => "UnknownPackage",
            LoadError::TooMany(_) => "TooMany",
            LoadError::OutOfMemory => "OutOfMemory",
        })
    }
}

impl Error for LoadError {}
