//! Source roots: sets of files that are local, or a library.

ghost use Rattle.std.specs.Prelude.{◌≡◌, IfOk};
ghost use Rattle.std.specs.Map.Iter.{ShowsInOrder};
ghost use Rattle.std.specs.Option.{option_copied};
ghost use Rattle.vfs_sets.specs.FileSet.{file_at, number_shown, path_of, resolved_file};
ghost use Rattle.input_db_files.specs.SourceRoot.{files_in, has_file, library_root, local_root, root_durability};
ghost use Rattle.input_db_files.specs.SourceRoot.{set_of_root, text_durability};

use crate::durability::Durability;
use base_text_paths::{FileId, TryClone};
use std::alloc::{AllocError, Global};
use std::marker::Model;
use vfs_core::{AnchoredPath, VfsPath};
use vfs_sets::{FileSet, FileSetIter};

/// The number of a source root.
#[derive(Clone, Copy, Debug, PartialEq, Eq, PartialOrd, Ord, Hash)]
pub struct SourceRootId(pub u32);

impl Model for SourceRootId {
    ghost use Rattle.std.specs.Prelude.{ℕ};

    ghost Value = { ℕ };

    ghost view = { λ a. a.0 };

    ghost inverse = { λ n. record { 0 = n } };
}

/// Files that belong together: those of one package, say.
#[derive(Debug, Drop, PartialEq, Eq)]
pub struct SourceRoot {
    /// Files of libraries hardly ever change.
    pub is_library: bool,
    file_set: FileSet,
}

impl SourceRoot {
    pub fn new_local(file_set: FileSet) -> Self
        ensures { result ≡ local_root file_set }
    {
        SourceRoot {
            is_library: false,
            file_set,
        }
    }

    pub fn new_library(file_set: FileSet) -> Self
        ensures { result ≡ library_root file_set }
    {
        SourceRoot {
            is_library: true,
            file_set,
        }
    }

    /// The path of a file.
    pub fn path_for_file(&self, file: &FileId) -> Option<&VfsPath>
        ensures { option_copied result ≡ path_of (set_of_root self.now) file.now }
    {
        self.file_set.path_for_file(file)
    }

    /// The file at a path.
    pub fn file_for_path(&self, path: &VfsPath) -> Option<&FileId>
        ensures { option_copied result ≡ file_at (set_of_root self.now) path.now }
    {
        self.file_set.file_for_path(path)
    }

    /// The file at a path that is relative to one of the root.
    pub fn resolve_path(
        &self,
        alloc: Global,
        path: AnchoredPath<'_>,
    ) -> Result<Option<FileId>, AllocError>
        ensures { IfOk result (λ file. file
            ≡ resolved_file (set_of_root self.now) path.entry.anchor path.entry.path.now) }
    {
        let (anchor, path) = (path.anchor, path.path);
        self.file_set
            .resolve_path(alloc, AnchoredPath { anchor, path })
    }

    /// The files, in order of first insertion.
    pub fn iter(&self) -> FileSetIter<'_>
        ensures rest { result ≡ files_in self.now }
        ensures runs { ShowsInOrder number_shown }
    {
        self.file_set.iter()
    }

    /// Whether a file is in the root.
    pub fn has_file(&self, file: FileId) -> bool
        ensures { result ≡ has_file self.now file }
    {
        self.file_set.path_for_file(&file).is_some()
    }

    /// How durable the root is.
    pub fn durability(&self) -> Durability
        ensures { result ≡ root_durability self.now }
    {
        if self.is_library {
            Durability::Medium
        } else {
            Durability::Low
        }
    }

    /// How durable the texts of its files are.
    pub fn text_durability(&self) -> Durability
        ensures { result ≡ text_durability self.now }
    {
        if self.is_library {
            Durability::High
        } else {
            Durability::Low
        }
    }
}

impl TryClone for SourceRoot {
    fn try_clone(&self, alloc: Global) -> Result<Self, AllocError> {
        let file_set = self.file_set.try_clone(alloc)?;
        Ok(SourceRoot {
            is_library: self.is_library,
            file_set,
        })
    }
}
