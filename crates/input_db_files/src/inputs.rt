//! What a database holds of a file and of a source root.

use crate::durability::Durability;
use crate::source_root::{SourceRoot, SourceRootId};
use base_text_paths::{FileId, Text, TryClone};
use std::alloc::{AllocError, Global};

/// The text of a file.
#[derive(Debug, Drop, PartialEq, Eq)]
pub struct FileText {
    pub text: Text,
    pub file_id: FileId,
    pub durability: Durability,
}

impl TryClone for FileText {
    fn try_clone(&self, alloc: Global) -> Result<Self, AllocError> {
        let text = self.text.try_clone(alloc)?;
        Ok(FileText {
            text,
            file_id: self.file_id,
            durability: self.durability,
        })
    }
}

/// The source root that a file is in.
#[derive(Debug, Drop, PartialEq, Eq)]
pub struct FileSourceRootInput {
    pub source_root_id: SourceRootId,
    pub durability: Durability,
}

impl TryClone for FileSourceRootInput {
    fn try_clone(&self, _alloc: Global) -> Result<Self, AllocError> {
        Ok(FileSourceRootInput {
            source_root_id: self.source_root_id,
            durability: self.durability,
        })
    }
}

/// A source root.
#[derive(Debug, Drop, PartialEq, Eq)]
pub struct SourceRootInput {
    pub source_root: SourceRoot,
    pub durability: Durability,
}

impl TryClone for SourceRootInput {
    fn try_clone(&self, alloc: Global) -> Result<Self, AllocError> {
        let source_root = self.source_root.try_clone(alloc)?;
        Ok(SourceRootInput {
            source_root,
            durability: self.durability,
        })
    }
}
