//! The files of a set that has many: a map from paths to files, and one from files to paths.

ghost use Rattle.std.specs.Prelude.{◌≡◌, IfOk, OnErr, OnOk, length};
ghost use Rattle.std.specs.Option.{option_copied};
ghost use Rattle.vfs_sets.specs.FileSet.{empty_set, file_at, files_eq, path_of, set_of, with_set_file};
ghost use Rattle.vfs_sets.specs.Rows.{ComparesNext, rows_content};

use base_text_paths::{FileId, TryClone, copy_entries};
use indexmap::IndexMap;
use indexmap::map::Iter;
use std::alloc::{AllocError, Global};
use std::marker::Model;
use vfs_core::VfsPath;

/// The file of each path, and the path of each file.
#[derive(Debug, Drop)]
pub(crate) struct FileMaps {
    files: IndexMap<VfsPath, FileId>,
    paths: IndexMap<FileId, VfsPath>,
}

impl Model for FileMaps {
    ghost use Rattle.vfs_sets.specs.FileSet.{FileSetContent};

    ghost Value = { FileSetContent };

    ghost view = { λ a. record { files = a.files.entries; paths = a.paths.entries } };
}

impl FileMaps {
    fn new(alloc: Global) -> Self
        ensures { result ≡ empty_set }
    {
        FileMaps {
            files: IndexMap::new(alloc),
            paths: IndexMap::new(alloc),
        }
    }

    /// The maps of some files, put one after the other.
    pub(crate) fn of_rows(alloc: Global, rows: &[(FileId, VfsPath)]) -> Result<Self, AllocError>
        ensures { IfOk result (λ maps. maps ≡ set_of rows.now) }
    {
        let mut maps = FileMaps::new(alloc);
        for (file, path) in rows {
            let path = path.try_clone(alloc)?;
            maps.insert(alloc, *file, path)?;
        }
        Ok(maps)
    }

    /// How many paths there are.
    pub(crate) fn len(&self) -> usize
        ensures { result ≡ length self.now.files }
    {
        self.files.len()
    }

    /// Puts a file at a path. What either had before is overwritten, and a file keeps its place in the order.
    pub(crate) fn insert(
        &mut self,
        alloc: Global,
        file: FileId,
        path: VfsPath,
    ) -> Result<(), AllocError>
        ensures ok { OnOk result (self.new ≡ with_set_file self.old file path) }
        ensures err { OnErr result (self.new ≡ self.old) }
    {
        let copy = path.try_clone(alloc)?;
        self.files.reserve(1)?;
        self.paths.reserve(1)?;
        match self.files.insert(copy, file) {
            Ok(_) => {}
            Err(_) => unreachable!(),
        }
        match self.paths.insert(file, path) {
            Ok(_) => {}
            Err(_) => unreachable!(),
        }
        Ok(())
    }

    /// The file at a path.
    pub(crate) fn file_at(&self, path: &VfsPath) -> Option<&FileId>
        ensures { option_copied result ≡ file_at self.now path.now }
    {
        self.files.get(path)
    }

    /// The path of a file.
    pub(crate) fn path_of(&self, file: &FileId) -> Option<&VfsPath>
        ensures { option_copied result ≡ path_of self.now file.now }
    {
        self.paths.get(file)
    }

    /// The files with their paths, in order of first insertion.
    pub(crate) fn iter(&self) -> Iter<'_, FileId, VfsPath>
        ensures { result ≡ self.now.paths }
    {
        self.paths.iter()
    }

    /// Whether the files of some rows are these, in their order.
    pub(crate) fn equal_rows(&self, rows: &[(FileId, VfsPath)]) -> bool
        ensures { result ≡ files_eq self.now (rows_content rows.now) }
    {
        let (mut files, mut paths) = (self.files.iter(), self.paths.iter());
        for (file, path) in rows {
            if !is_next(&mut files, path, file) {
                return false;
            }
            if !is_next(&mut paths, file, path) {
                return false;
            }
        }
        files.next().is_none() && paths.next().is_none()
    }
}

impl TryClone for FileMaps {
    fn try_clone(&self, alloc: Global) -> Result<Self, AllocError> {
        let files = copy_entries(alloc, &self.files)?;
        let paths = copy_entries(alloc, &self.paths)?;
        Ok(FileMaps { files, paths })
    }
}

impl PartialEq for FileMaps {
    ghost use Rattle.std.specs.Cmp.{partial_equiv_from_equiv};
    ghost use Rattle.vfs_sets.specs.FileSet.{files_eq, files_equiv};

    ghost eq = { files_eq };

    ghost laws = { partial_equiv_from_equiv files_equiv };

    fn eq(&self, other: &Self) -> bool {
        self.files.as_slice() == other.files.as_slice()
            && self.paths.as_slice() == other.paths.as_slice()
    }
}

/// Takes the next entry, and tells whether it is this one.
fn is_next<K: PartialEq, V: PartialEq>(entries: &mut Iter<'_, K, V>, key: &K, value: &V) -> bool
    ensures { ComparesNext K.eq V.eq entries.old entries.new ((key.now, value.now), result) }
{
    match entries.next() {
        Some((next_key, next_value)) => next_key == key && next_value == value,
        None => false,
    }
}
