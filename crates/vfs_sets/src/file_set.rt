//! A set of files: the file of each path, and the path of each file. Few files are kept as rows, more of them in maps.

ghost use Rattle.std.specs.Prelude.{◌≡◌, IfOk, OnErr, OnOk, length};
ghost use Rattle.std.specs.Map.{keys_of};
ghost use Rattle.std.specs.Map.Iter.{ShowsInOrder};
ghost use Rattle.std.specs.Option.{option_copied};
ghost use Rattle.vfs_sets.specs.FileSet.{sibling_path, empty_set, file_at, number_shown, path_of, resolved_file, set_of, with_set_file};

use crate::file_maps::FileMaps;
use crate::file_rows::FileRows;
use crate::file_set_iter::FileSetIter;
use base_text_paths::{FileId, TryClone};
use std::alloc::{AllocError, Global};
use std::marker::Model;
use vfs_core::{AnchoredPath, VfsPath};

/// A set of files. One path may be given to several files, and one file several paths: the last of each counts.
#[derive(Debug, Drop)]
pub struct FileSet {
    alloc: Global,
    content: Content,
}

/// Most sets have few files, so a set begins with rows. It has maps from the first file on that does not fit there.
#[derive(Debug, Drop)]
enum Content {
    Few(FileRows),
    Many(Box<FileMaps>),
}

impl Model for FileSet {
    ghost use Rattle.vfs_sets.specs.FileSet.{FileSetContent};
    ghost use Rattle.vfs_sets.specs.SetContent.{content_of};

    ghost Value = { FileSetContent };

    ghost view = { λ a. content_of a.content };
}

impl FileSet {
    pub fn new(alloc: Global) -> Self
        ensures { result ≡ empty_set }
    {
        FileSet {
            alloc,
            content: Content::Few(FileRows::new(alloc)),
        }
    }

    /// How many paths there are.
    pub fn len(&self) -> usize
        ensures { result ≡ length self.now.files }
    {
        match &self.content {
            Content::Few(rows) => rows.len(),
            Content::Many(maps) => maps.len(),
        }
    }

    /// Puts a file at a path. What either had before is overwritten, and a file keeps its place in the order.
    pub fn insert(&mut self, file_id: FileId, path: VfsPath) -> Result<(), AllocError>
        ensures ok { OnOk result (self.new ≡ with_set_file self.old file_id path) }
        ensures err { OnErr result (self.new ≡ self.old) }
    {
        match &mut self.content {
            Content::Few(rows) => {
                if rows.has_room_for(file_id, &path) {
                    return rows.push(file_id, path);
                }
                let maps = maps_with(self.alloc, rows.as_slice(), file_id, path)?;
                self.content = Content::Many(maps);
                Ok(())
            }
            Content::Many(maps) => maps.insert(self.alloc, file_id, path),
        }
    }

    /// The file at a path.
    pub fn file_for_path(&self, path: &VfsPath) -> Option<&FileId>
        ensures { option_copied result ≡ file_at self.now path.now }
    {
        match &self.content {
            Content::Few(rows) => rows.file_at(path),
            Content::Many(maps) => maps.file_at(path),
        }
    }

    /// The path of a file.
    pub fn path_for_file(&self, file: &FileId) -> Option<&VfsPath>
        ensures { option_copied result ≡ path_of self.now file.now }
    {
        match &self.content {
            Content::Few(rows) => rows.path_of(file),
            Content::Many(maps) => maps.path_of(file),
        }
    }

    /// The file at a path that is relative to one of the set.
    pub fn resolve_path(
        &self,
        alloc: Global,
        path: AnchoredPath<'_>,
    ) -> Result<Option<FileId>, AllocError>
        ensures { IfOk result (λ file. file
            ≡ resolved_file self.now path.entry.anchor path.entry.path.now) }
    {
        self.resolve(alloc, path.anchor, path.path)
    }

    fn resolve(
        &self,
        alloc: Global,
        anchor: FileId,
        tail: &str,
    ) -> Result<Option<FileId>, AllocError>
        ensures { IfOk result (λ file. file ≡ resolved_file self.now anchor tail.now) }
    {
        match self.path_for_file(&anchor) {
            None => Ok(None),
            Some(base) => {
                let joined = sibling_path(alloc, base, tail)?;
                match joined {
                    None => Ok(None),
                    Some(path) => Ok(self.file_for_path(&path).copied()),
                }
            }
        }
    }

    /// The files, in order of first insertion.
    pub fn iter(&self) -> FileSetIter<'_>
        ensures rest { result ≡ keys_of self.now.paths }
        ensures runs { ShowsInOrder number_shown }
    {
        match &self.content {
            Content::Few(rows) => FileSetIter::of_rows(rows.as_slice()),
            Content::Many(maps) => FileSetIter::of_entries(maps.iter()),
        }
    }
}

impl TryClone for FileSet {
    fn try_clone(&self, alloc: Global) -> Result<Self, AllocError> {
        let content = match &self.content {
            Content::Few(rows) => Content::Few(rows.try_clone(alloc)?),
            Content::Many(maps) => Content::Many(Box::new(alloc, maps.try_clone(alloc)?)?),
        };
        Ok(FileSet { alloc, content })
    }
}

impl PartialEq for FileSet {
    ghost use Rattle.std.specs.Cmp.{partial_equiv_from_equiv};
    ghost use Rattle.vfs_sets.specs.FileSet.{files_eq, files_equiv};

    ghost eq = { files_eq };

    ghost laws = { partial_equiv_from_equiv files_equiv };

    fn eq(&self, other: &Self) -> bool {
        match (&self.content, &other.content) {
            (Content::Few(rows), Content::Few(others)) => rows == others,
            (Content::Few(rows), Content::Many(maps)) => maps.equal_rows(rows.as_slice()),
            (Content::Many(maps), Content::Few(rows)) => maps.equal_rows(rows.as_slice()),
            (Content::Many(maps), Content::Many(others)) => **maps == **others,
        }
    }
}

impl Eq for FileSet {
    ghost use Rattle.vfs_sets.specs.FileSet.{files_equiv};

    ghost laws = { files_equiv };
}

/// The maps of some rows and one file more, which is put after them.
fn maps_with(
    alloc: Global,
    rows: &[(FileId, VfsPath)],
    file: FileId,
    path: VfsPath,
) -> Result<Box<FileMaps>, AllocError>
    ensures { IfOk result (λ maps. maps.value ≡ with_set_file (set_of rows.now) file path) }
{
    let mut maps = Box::new(alloc, FileMaps::of_rows(alloc, rows)?)?;
    maps.insert(alloc, file, path)?;
    Ok(maps)
}

/// What stands beside a path: its directory joined with a tail.
fn sibling_path(alloc: Global, path: &VfsPath, tail: &str) -> Result<Option<VfsPath>, AllocError>
    ensures { IfOk result (λ made. made ≡ sibling_path path.now tail.now) }
{
    let mut base = path.try_clone(alloc)?;
    let _ = base.pop();
    Ok(base.join(alloc, tail)?)
}
