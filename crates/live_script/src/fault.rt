//! What a run can meet, with its exit status and its text.

ghost use Rattle.std.specs.Prelude.{◌≡◌, IfOk, string_bytes};
ghost use Rattle.live_script.specs.Fault.{limit_name, status_of, live_error_text};

use base_text_outside::Limit;
use base_values::{Text, TryClone};
use live_project::ProjectError;
use pm_lower_crates::LowerError;
use pm_lower_load::LoadError;
use pm_tools::BuildError;
use std::alloc::{AllocError, AllocFailed, Global};
use std::error::Error;
use std::fmt;

/// Why a run ended before its input did, or a step was not taken. `text_by` is its line for people.
#[derive(Debug, PartialEq, Eq, Drop)]
pub enum LiveError {
    /// There was no memory.
    OutOfMemory,
    /// The words of the command line are no options.
    Usage,
    /// The input could not be read.
    ReadFault,
    /// The output could not be written.
    WriteFault,
    /// The line of this number, counted from 1 in each run, is no event.
    Script(u64),
    /// The path of a load does not begin with `/`, is the root, or has the name of no manifest: the path as it was given.
    BadManifest(Text),
    /// No file lives at the path of a JSON project: the path, with each `..`.
    NoSuchFile(Text),
    /// The command that gives metadata has no answer: its line.
    Io(Text),
    /// The command that gives metadata failed: what it wrote for people.
    CargoMetadata(Text),
    /// The answer of that command has no document.
    NoJson,
    /// The document of that command or of a JSON project does not fit: the first place that it misses.
    Json(Text),
    /// A path of the document, that of the workspace's root, or one that a build gave does not begin with `/`: its text.
    NotAbsolute(Text),
    /// A node of the document, or one of its dependencies, is of no package: the id.
    UnknownPackage(Text),
    /// The name of a dependency between two crates holds a dash: the name.
    BadCrateName(Text),
    /// The path of a manifest or of a root module is the root: the path.
    NoParent(Text),
    /// A build while no project is loaded, or one without a Cargo workspace.
    NoCargoProject,
    /// The next of this kind would pass its limit.
    TooMany(Limit),
}

/// The variant's name.
impl fmt::Display for LiveError {
    ghost use Rattle.std.specs.Prelude.{Some};
    ghost use Rattle.live_script.specs.Fault.{live_error_name};

    ghost output = { λ error. Some (live_error_name error) };

    fn fmt<W: fmt::Write>(&self, f: &mut fmt::Formatter<W>) -> fmt::Result {
        f.write_str(match self {
            LiveError::OutOfMemory => "OutOfMemory",
            LiveError::Usage => "Usage",
            LiveError::ReadFault => "ReadFault",
            LiveError::WriteFault => "WriteFault",
            LiveError::Script(_) => "Script",
            LiveError::BadManifest(_) => "BadManifest",
            LiveError::NoSuchFile(_) => "NoSuchFile",
            LiveError::Io(_) => "Io",
            LiveError::CargoMetadata(_) => "CargoMetadata",
            LiveError::NoJson => "NoJson",
            LiveError::Json(_) => "Json",
            LiveError::NotAbsolute(_) => "NotAbsolute",
            LiveError::UnknownPackage(_) => "UnknownPackage",
            LiveError::BadCrateName(_) => "BadCrateName",
            LiveError::NoParent(_) => "NoParent",
            LiveError::NoCargoProject => "NoCargoProject",
            LiveError::TooMany(_) => "TooMany",
        })
    }
}

impl Error for LiveError {}

impl From<AllocError> for LiveError {
    ghost use Rattle.std.specs.Prelude.{◌≡◌};
    ghost use Rattle.live_script.specs.declared.fault.LiveError.TheVariants.{OutOfMemory};

    ghost from_gives = { λ _ e. e ≡ OutOfMemory };

    fn from(_error: AllocError) -> Self {
        LiveError::OutOfMemory
    }
}

impl<T: Drop> From<AllocFailed<T>> for LiveError {
    ghost use Rattle.std.specs.Prelude.{◌≡◌};
    ghost use Rattle.live_script.specs.declared.fault.LiveError.TheVariants.{OutOfMemory};

    ghost from_gives = { λ _ e. e ≡ OutOfMemory };

    fn from(_error: AllocFailed<T>) -> Self {
        LiveError::OutOfMemory
    }
}

impl From<LoadError> for LiveError {
    ghost use Rattle.std.specs.Prelude.{◌≡◌};
    ghost use Rattle.live_script.specs.Fault.{live_error_of_load};

    ghost from_gives = { λ error e. e ≡ live_error_of_load error };

    fn from(error: LoadError) -> Self {
        match error {
            LoadError::NoSuchFile(path) => LiveError::NoSuchFile(path),
            LoadError::CargoMetadata { stderr } => LiveError::CargoMetadata(stderr),
            LoadError::Io { line } => LiveError::Io(line),
            LoadError::Json { field } => LiveError::Json(field),
            LoadError::NoJson => LiveError::NoJson,
            LoadError::NotAbsolute(text) => LiveError::NotAbsolute(text),
            LoadError::NoParent(text) => LiveError::NoParent(text),
            LoadError::UnknownPackage(id) => LiveError::UnknownPackage(id),
            LoadError::TooMany(limit) => LiveError::TooMany(limit),
            LoadError::OutOfMemory => LiveError::OutOfMemory,
        }
    }
}

impl From<ProjectError> for LiveError {
    ghost use Rattle.std.specs.Prelude.{◌≡◌};
    ghost use Rattle.live_script.specs.Fault.{of_project_error};

    ghost from_gives = { λ error e. e ≡ of_project_error error };

    fn from(error: ProjectError) -> Self {
        match error {
            ProjectError::BadManifest(path) => LiveError::BadManifest(path),
            ProjectError::Refused(error) => LiveError::from(error),
            ProjectError::OutOfMemory => LiveError::OutOfMemory,
        }
    }
}

impl From<BuildError> for LiveError {
    ghost use Rattle.std.specs.Prelude.{◌≡◌};
    ghost use Rattle.live_script.specs.Fault.{of_build_error};

    ghost from_gives = { λ error e. e ≡ of_build_error error };

    fn from(error: BuildError) -> Self {
        match error {
            BuildError::Io(line) => LiveError::Io(line),
            BuildError::NotAbsolute(text) => LiveError::NotAbsolute(text),
            BuildError::OutOfMemory => LiveError::OutOfMemory,
        }
    }
}

impl From<LowerError> for LiveError {
    ghost use Rattle.std.specs.Prelude.{◌≡◌};
    ghost use Rattle.live_script.specs.Fault.{of_lower_error};

    ghost from_gives = { λ error e. e ≡ of_lower_error error };

    fn from(error: LowerError) -> Self {
        match error {
            LowerError::BadCrateName(name) => LiveError::BadCrateName(name),
            LowerError::TooMany(limit) => LiveError::TooMany(limit),
            LowerError::OutOfMemory => LiveError::OutOfMemory,
        }
    }
}

impl TryClone for LiveError {
    fn try_clone(&self, alloc: Global) -> Result<Self, AllocError> {
        match self {
            LiveError::OutOfMemory => Ok(LiveError::OutOfMemory),
            LiveError::Usage => Ok(LiveError::Usage),
            LiveError::ReadFault => Ok(LiveError::ReadFault),
            LiveError::WriteFault => Ok(LiveError::WriteFault),
            LiveError::Script(line) => Ok(LiveError::Script(*line)),
            LiveError::BadManifest(path) => Ok(LiveError::BadManifest(path.try_clone(alloc)?)),
            LiveError::NoSuchFile(path) => Ok(LiveError::NoSuchFile(path.try_clone(alloc)?)),
            LiveError::Io(line) => Ok(LiveError::Io(line.try_clone(alloc)?)),
            LiveError::CargoMetadata(err) => Ok(LiveError::CargoMetadata(err.try_clone(alloc)?)),
            LiveError::NoJson => Ok(LiveError::NoJson),
            LiveError::Json(field) => Ok(LiveError::Json(field.try_clone(alloc)?)),
            LiveError::NotAbsolute(text) => Ok(LiveError::NotAbsolute(text.try_clone(alloc)?)),
            LiveError::UnknownPackage(id) => Ok(LiveError::UnknownPackage(id.try_clone(alloc)?)),
            LiveError::BadCrateName(name) => Ok(LiveError::BadCrateName(name.try_clone(alloc)?)),
            LiveError::NoParent(text) => Ok(LiveError::NoParent(text.try_clone(alloc)?)),
            LiveError::NoCargoProject => Ok(LiveError::NoCargoProject),
            LiveError::TooMany(limit) => Ok(LiveError::TooMany(*limit)),
        }
    }
}

impl LiveError {
    /// The exit status of a program that ends with this error.
    pub fn status(&self) -> u8
        ensures { result ≡ status_of self.now }
    {
        match self {
            LiveError::OutOfMemory => 1,
            LiveError::Usage => 2,
            LiveError::ReadFault => 3,
            LiveError::WriteFault => 4,
            LiveError::Script(_) => 5,
            LiveError::BadManifest(_) => 6,
            LiveError::NoSuchFile(_) => 7,
            LiveError::Io(_) => 8,
            LiveError::CargoMetadata(_) => 9,
            LiveError::NoJson => 10,
            LiveError::Json(_) => 11,
            LiveError::NotAbsolute(_) => 12,
            LiveError::UnknownPackage(_) => 13,
            LiveError::BadCrateName(_) => 14,
            LiveError::NoParent(_) => 15,
            LiveError::NoCargoProject => 16,
            LiveError::TooMany(_) => 17,
        }
    }
}

/// Why a step was not taken.
#[derive(Debug, PartialEq, Eq, Drop)]
pub enum StepError {
    /// The event was refused, or memory or the sink did not serve.
    Refused(LiveError),
    /// An earlier flush was refused.
    Ended,
}

impl TryClone for StepError {
    fn try_clone(&self, alloc: Global) -> Result<Self, AllocError> {
        match self {
            StepError::Refused(error) => Ok(StepError::Refused(error.try_clone(alloc)?)),
            StepError::Ended => Ok(StepError::Ended),
        }
    }
}

impl fmt::Display for StepError {
    ghost use Rattle.std.specs.Prelude.{Some};
    ghost use Rattle.live_script.specs.Fault.{step_error_text};

    ghost output = { λ error. Some (step_error_text error) };

    fn fmt<W: fmt::Write>(&self, f: &mut fmt::Formatter<W>) -> fmt::Result {
        match self {
            StepError::Refused(_) => f.write_str("Refused"),
            StepError::Ended => f.write_str("Ended"),
        }
    }
}

impl Error for StepError {}

// The name of what there is too much of.
fn kind_text(limit: Limit) -> &'static str
    ensures { result.now ≡ limit_name limit }
{
    match limit {
        Limit::Bytes => "bytes",
        Limit::Paths => "paths",
        Limit::Packages => "packages",
        Limit::Targets => "targets",
        Limit::Crates => "crates",
    }
}

/// One line of text for people, without a newline, for a command whose usage text this is.
#[tactic(auto, unfolding(crate::specs::Fault::live_error_text))]
pub fn text_by(alloc: Global, usage: &str, error: &LiveError) -> Result<String, AllocError>
    ensures { IfOk result (λ text. string_bytes text ≡ live_error_text usage.now error.now) }
{
    match error {
        LiveError::OutOfMemory => String::from_str(alloc, "out of memory"),
        LiveError::Usage => String::from_str(alloc, usage),
        LiveError::ReadFault => String::from_str(alloc, "read fault"),
        LiveError::WriteFault => String::from_str(alloc, "write fault"),
        LiveError::Script(line) => format!(in alloc; "script line {line}"),
        LiveError::BadManifest(path) => format!(in alloc; "bad manifest: {}", path.as_str()),
        LiveError::NoSuchFile(path) => format!(in alloc; "no such file: {}", path.as_str()),
        LiveError::Io(line) => format!(in alloc; "cannot start: {}", line.as_str()),
        LiveError::CargoMetadata(err) => format!(in alloc;
            "cargo metadata failed: {}",
            err.as_str()
        ),
        LiveError::NoJson => String::from_str(alloc, "no json in the metadata answer"),
        LiveError::Json(field) => format!(in alloc; "bad json at {}", field.as_str()),
        LiveError::NotAbsolute(text) => format!(in alloc; "not absolute: {}", text.as_str()),
        LiveError::UnknownPackage(id) => format!(in alloc; "unknown package: {}", id.as_str()),
        LiveError::BadCrateName(name) => format!(in alloc; "bad crate name: {}", name.as_str()),
        LiveError::NoParent(text) => format!(in alloc; "no parent: {}", text.as_str()),
        LiveError::NoCargoProject => String::from_str(alloc, "no cargo project"),
        LiveError::TooMany(limit) => format!(in alloc; "too many {}", kind_text(*limit)),
    }
}
