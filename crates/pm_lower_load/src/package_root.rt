//! A root: the directories that files are read from together.

use base_text::{AbsPathBuf, Items, TryClone};
use std::alloc::{AllocError, Global};

/// The directories that the files of a package are read from.
#[derive(Debug, PartialEq, Eq, Hash, Drop)]
pub struct PackageRoot {
    /// Whether the files are edited, as those of a package without a source are.
    pub is_local: bool,
    /// The directories: those of a package ascending and each once, those of a crate of a JSON project as they
    /// are stated.
    pub include: Items<AbsPathBuf>,
    /// The directories below these that are left out.
    pub exclude: Items<AbsPathBuf>,
}

impl TryClone for PackageRoot {
    fn try_clone(&self, alloc: Global) -> Result<Self, AllocError> {
        Ok(PackageRoot {
            is_local: self.is_local,
            include: self.include.try_clone(alloc)?,
            exclude: self.exclude.try_clone(alloc)?,
        })
    }
}
