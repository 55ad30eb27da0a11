//! The files of a set that has few: a list of rows, which is searched from its front.

ghost use Rattle.std.specs.Prelude.{◌≡◌, OnErr, OnOk, IsTrue, length};
ghost use Rattle.std.specs.Option.{option_copied};
ghost use Rattle.vfs_sets.specs.FileSet.{empty_set, file_at, path_of, set_of, with_set_file};
ghost use Rattle.vfs_sets.specs.Rows.{rows_content, IsFreeOf};

use base_text_paths::{FileId, TryClone, copy_items};
use std::alloc::{AllocError, Global};
use std::marker::Model;
use vfs_core::VfsPath;

/// The most files that are kept as rows. To compare the paths of more costs more than maps do.
const MOST: usize = 2;

/// Files that have each one path, and paths that have each one file, in order of insertion.
#[derive(Debug, Drop)]
pub(crate) struct FileRows {
    rows: Vec<(FileId, VfsPath)>,
}

impl Model for FileRows {
    ghost use Rattle.std.specs.Prelude.{◌≡◌};
    ghost use Rattle.vfs_sets.specs.FileSet.{FileSetContent, set_of};
    ghost use Rattle.vfs_sets.specs.Rows.{rows_content};

    ghost Value = { FileSetContent };

    ghost view = { λ a. rows_content a.rows.items };

    ghost invariant = { λ a. set_of a.rows.items ≡ rows_content a.rows.items };
}

impl FileRows {
    pub(crate) fn new(alloc: Global) -> Self
        ensures { result ≡ empty_set }
    {
        FileRows {
            rows: Vec::new(alloc),
        }
    }

    /// How many files there are.
    pub(crate) fn len(&self) -> usize
        ensures { result ≡ length self.now.files }
    {
        self.rows.len()
    }

    /// Whether a file can be put at a path as one more row.
    pub(crate) fn has_room_for(&self, file: FileId, path: &VfsPath) -> bool
        ensures { IsTrue result → IsFreeOf self.now file path.now }
    {
        self.rows.len() < MOST && self.file_at(path).is_none() && self.path_of(&file).is_none()
    }

    /// Puts a file at a path as one more row.
    pub(crate) fn push(&mut self, file: FileId, path: VfsPath) -> Result<(), AllocError>
        requires { IsFreeOf self.old file path }
        ensures ok { OnOk result (self.new ≡ with_set_file self.old file path) }
        ensures err { OnErr result (self.new ≡ self.old) }
    {
        self.rows.push((file, path))?;
        Ok(())
    }

    /// The file at a path.
    pub(crate) fn file_at(&self, path: &VfsPath) -> Option<&FileId>
        ensures { option_copied result ≡ file_at self.now path.now }
    {
        for (file, other) in &self.rows {
            if path == other {
                return Some(file);
            }
        }
        None
    }

    /// The path of a file.
    pub(crate) fn path_of(&self, file: &FileId) -> Option<&VfsPath>
        ensures { option_copied result ≡ path_of self.now file.now }
    {
        for (other, path) in &self.rows {
            if file == other {
                return Some(path);
            }
        }
        None
    }

    /// The files with their paths, in order of insertion.
    pub(crate) fn as_slice(&self) -> &[(FileId, VfsPath)]
        ensures value { rows_content result.now ≡ self.now }
        ensures apart { set_of result.now ≡ self.now }
    {
        self.rows.as_slice()
    }
}

impl TryClone for FileRows {
    fn try_clone(&self, alloc: Global) -> Result<Self, AllocError> {
        let rows = copy_items(alloc, self.rows.as_slice())?;
        Ok(FileRows { rows })
    }
}

impl PartialEq for FileRows {
    ghost use Rattle.std.specs.Cmp.{partial_equiv_from_equiv};
    ghost use Rattle.vfs_sets.specs.FileSet.{files_eq, files_equiv};

    ghost eq = { files_eq };

    ghost laws = { partial_equiv_from_equiv files_equiv };

    fn eq(&self, other: &Self) -> bool {
        self.rows == other.rows
    }
}
