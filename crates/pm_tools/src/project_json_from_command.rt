//! What a command of another build system gives in place of a manifest.

use base_text::{AbsPathBuf, TryClone};
use pm_json::ProjectJsonData;
use std::alloc::{AllocError, Global};

/// A JSON project that a command printed, and the file of the build system that it was printed for.
#[derive(PartialEq, Eq, Drop)]
pub struct ProjectJsonFromCommand {
    /// The crates of the project and what they depend on.
    pub json_data: ProjectJsonData,
    /// The file that describes the project to its build system, such as `my-project/BUCK`.
    pub buildfile: AbsPathBuf,
}

impl TryClone for ProjectJsonFromCommand {
    fn try_clone(&self, alloc: Global) -> Result<Self, AllocError> {
        Ok(ProjectJsonFromCommand {
            buildfile: self.buildfile.try_clone(alloc)?,
            json_data: self.json_data.try_clone(alloc)?,
        })
    }
}
