//! What is kept of the last flush.

use base_text::{Shared, TryClone};
use live_project::{LiveTexts, Project};
use std::alloc::{AllocError, Global};

/// What the last flush brought into the database: the texts of the files that lived, by file number, and the project. To keep it, and
/// to copy it, takes one count of each.
#[derive(Drop)]
pub struct LastFlush {
    pub texts: LiveTexts,
    pub project: Option<Shared<Project>>,
}

impl TryClone for LastFlush {
    fn try_clone(&self, alloc: Global) -> Result<Self, AllocError> {
        let texts = self.texts.try_clone(alloc)?;
        let project = self.project.try_clone(alloc)?;
        Ok(LastFlush { texts, project })
    }
}
