//! Paths that are relative to a file, which says in which file system, and where in it, they start.

use base_text_paths::{FileId, Text, TryClone};
use std::alloc::{AllocError, Global};

/// A path behind the directory of a file.
#[derive(Debug, Drop, PartialEq, Eq)]
pub struct AnchoredPathBuf {
    /// The file.
    pub anchor: FileId,
    /// What is joined with its directory.
    pub path: Text,
}

/// The same, borrowed.
#[derive(Clone, Copy, Debug, PartialEq, Eq)]
pub struct AnchoredPath<'a> {
    /// The file.
    pub anchor: FileId,
    /// What is joined with its directory.
    pub path: &'a str,
}

impl TryClone for AnchoredPathBuf {
    fn try_clone(&self, alloc: Global) -> Result<Self, AllocError> {
        let path = self.path.try_clone(alloc)?;
        Ok(AnchoredPathBuf {
            anchor: self.anchor,
            path,
        })
    }
}
