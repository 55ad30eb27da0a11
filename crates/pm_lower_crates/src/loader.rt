//! What a loader is, and a loader in memory.

ghost use Rattle.std.specs.Prelude.{◌≡◌, ℕ, List, [], IfOk, OnErr, OnOk, Some, if◌then◌else◌};
ghost use Rattle.base_text_paths.specs.AbsPath.{abs_text};
ghost use Rattle.base_text_paths.specs.PathOrder.{path_eq};
ghost use Rattle.pm_lower_crates.specs.Loader.{FileNumbers, file_number, path_key, with_numbered_file};

use base_text_paths::{AbsPath, AbsPathBuf, FileId, TryClone, copy_entries};
use indexmap::IndexMap;
use std::alloc::{AllocError, Global};
use std::marker::Model;

/// A finite map from normalized path to the number of a file.
pub trait Loader {
    // The files that are live, by their paths.
    ghost files: { Self → FileNumbers };

    /// The number of the file at a path, once that is normalized, or None where there is none. The
    /// files stay as they are.
    fn load(&mut self, alloc: Global, path: AbsPath<'_>) -> Result<Option<FileId>, AllocError>
        ensures found { IfOk result
            (λ file. file ≡ file_number (files self.old) (abs_text path.entry)) }
        ensures same { files self.new ≡ files self.old };
}

/// A loader in memory, seen as its files by their paths, in the order in which the paths came.
#[derive(Debug, Drop)]
pub struct MapLoader {
    files: IndexMap<AbsPathBuf, FileId>,
}

impl Model for MapLoader {
    ghost use Rattle.pm_lower_crates.specs.Loader.{FileNumbers};

    ghost Value = { FileNumbers };

    ghost view = { λ a. a.files.entries };
}

impl MapLoader {
    /// A loader without files, which holds no memory.
    pub fn new(alloc: Global) -> Self
        ensures { result ≡ [] }
    {
        MapLoader {
            files: IndexMap::new(alloc),
        }
    }

    /// Puts a file in under a path, in place of an earlier file of the same normalized path.
    pub fn insert(&mut self, path: AbsPathBuf, id: FileId) -> Result<(), AllocError>
        ensures ok { OnOk result (self.new ≡ with_numbered_file self.old path id) }
        ensures last_counts { OnOk result ((asked : List ℕ) → file_number self.new asked
            ≡ (if path_eq (path_key path) (path_key asked) then Some id else file_number self.old asked)) }
        ensures err { OnErr result (self.new ≡ self.old) }
    {
        let alloc = *self.files.allocator();
        let path = path.as_path().normalize(alloc)?;
        self.files.insert(path, id)?;
        Ok(())
    }
}

impl TryClone for MapLoader {
    fn try_clone(&self, alloc: Global) -> Result<Self, AllocError> {
        let files = copy_entries(alloc, &self.files)?;
        Ok(MapLoader { files })
    }
}

impl Loader for MapLoader {
    ghost files = { λ a. a };

    fn load(&mut self, alloc: Global, path: AbsPath<'_>) -> Result<Option<FileId>, AllocError>
        ensures found { IfOk result (λ file. file ≡ file_number self.old (abs_text path.entry)) }
        ensures same { self.new ≡ self.old }
    {
        let path = path.normalize(alloc)?;
        Ok(self.files.get(&path).copied())
    }
}
