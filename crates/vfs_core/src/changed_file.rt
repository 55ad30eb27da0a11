//! Changes of files, of which a batch holds one for each file.

ghost use Rattle.std.specs.Prelude.{◌≡◌};
ghost use Rattle.vfs_core.specs.Batch.{exists_after, is_creation, is_creation_or_deletion, is_modification, kind_of_change, merged_change};
ghost use Rattle.vfs_core.specs.FileState.{state_by};

use crate::file_state::FileState;
use base_text_paths::{FileId, Items, TryClone};
use std::alloc::{AllocError, Global};

/// What became of a file.
#[derive(Debug, Drop, PartialEq, Eq)]
pub enum Change {
    /// It was made, with these contents and their hash.
    Create(Items<u8>, u64),
    /// It has these contents now, with their hash.
    Modify(Items<u8>, u64),
    /// It was deleted.
    Delete,
}

/// A change without the contents.
#[derive(Clone, Copy, Debug, PartialEq, Eq, Hash)]
pub enum ChangeKind {
    Create,
    Modify,
    Delete,
}

/// A file with what became of it.
#[derive(Debug, Drop)]
pub struct ChangedFile {
    pub file_id: FileId,
    pub change: Change,
}

impl Change {
    pub(crate) fn kind(&self) -> ChangeKind
        ensures { result ≡ kind_of_change self.now }
    {
        match self {
            Change::Create(_, _) => ChangeKind::Create,
            Change::Modify(_, _) => ChangeKind::Modify,
            Change::Delete => ChangeKind::Delete,
        }
    }

    /// The state of the file after it.
    pub(crate) fn state(&self) -> FileState
        ensures { result ≡ state_by self.now }
    {
        match self {
            Change::Create(_, hash) => FileState::Exists(*hash),
            Change::Modify(_, hash) => FileState::Exists(*hash),
            Change::Delete => FileState::Deleted,
        }
    }

    /// One change in place of an earlier one, of which the kind is left, and this.
    pub(crate) fn merge(self, earlier: Option<ChangeKind>) -> Change
        ensures { result ≡ merged_change earlier self }
    {
        match (earlier, self) {
            (None, change) => change,
            (Some(_), Change::Delete) => Change::Delete,
            (Some(ChangeKind::Create), Change::Create(bytes, hash)) => Change::Create(bytes, hash),
            (Some(ChangeKind::Create), Change::Modify(bytes, hash)) => Change::Create(bytes, hash),
            (Some(_), Change::Create(bytes, hash)) => Change::Modify(bytes, hash),
            (Some(_), Change::Modify(bytes, hash)) => Change::Modify(bytes, hash),
        }
    }
}

impl ChangedFile {
    /// Whether the file exists after the change.
    pub fn exists(&self) -> bool
        ensures { result ≡ exists_after self.now.change }
    {
        !matches!(self.change, Change::Delete)
    }

    pub fn is_created_or_deleted(&self) -> bool
        ensures { result ≡ is_creation_or_deletion self.now.change }
    {
        matches!(self.change, Change::Create(_, _) | Change::Delete)
    }

    pub fn is_created(&self) -> bool
        ensures { result ≡ is_creation self.now.change }
    {
        matches!(self.change, Change::Create(_, _))
    }

    pub fn is_modified(&self) -> bool
        ensures { result ≡ is_modification self.now.change }
    {
        matches!(self.change, Change::Modify(_, _))
    }

    pub fn kind(&self) -> ChangeKind
        ensures { result ≡ kind_of_change self.now.change }
    {
        self.change.kind()
    }
}

impl TryClone for Change {
    fn try_clone(&self, alloc: Global) -> Result<Self, AllocError> {
        match self {
            Change::Create(bytes, hash) => {
                let copy = bytes.as_slice().to_vec(alloc)?;
                Ok(Change::Create(Items::new(copy), *hash))
            }
            Change::Modify(bytes, hash) => {
                let copy = bytes.as_slice().to_vec(alloc)?;
                Ok(Change::Modify(Items::new(copy), *hash))
            }
            Change::Delete => Ok(Change::Delete),
        }
    }
}

impl TryClone for ChangedFile {
    fn try_clone(&self, alloc: Global) -> Result<Self, AllocError> {
        let change = self.change.try_clone(alloc)?;
        Ok(ChangedFile {
            file_id: self.file_id,
            change,
        })
    }
}
