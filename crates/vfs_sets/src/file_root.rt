//! The roots that files are placed by, and the source roots that their files become.

ghost use Rattle.std.specs.Prelude.{◌≡◌, IfOk};
ghost use Rattle.vfs_sets.specs.FileRoots as spec;

use crate::file_set_config::FileSetConfig;
use base_text_paths::{Items, TryClone, copy_items};
use std::alloc::{AllocError, Global};
use vfs_core::VfsPath;

/// A root of files. It takes a file if one of its paths begins the text of the file's directory, unless a longer path of another
/// root does, or one as long of an earlier root.
#[derive(Debug, Drop, PartialEq, Eq)]
pub struct FileRoot {
    /// Whether the files are edited.
    pub is_local: bool,
    /// The directories, or texts that directories begin with.
    pub paths: Items<VfsPath>,
}

impl TryClone for FileRoot {
    fn try_clone(&self, alloc: Global) -> Result<Self, AllocError> {
        let paths = self.paths.try_clone(alloc)?;
        Ok(FileRoot {
            is_local: self.is_local,
            paths,
        })
    }
}

/// A set for each root, by its paths.
pub fn file_sets(alloc: Global, roots: &[FileRoot]) -> Result<FileSetConfig, AllocError>
    ensures { IfOk result (λ config. config ≡ spec.root_lists roots.now) }
{
    let mut sets = FileSetConfig::builder(alloc);
    for root in roots {
        sets.add_file_set(copy_items(alloc, root.paths.as_slice())?)?;
    }
    sets.build()
}

/// Whether the files of a set are local.
pub fn is_local_at(roots: &[FileRoot], number: usize) -> bool
    ensures { result ≡ spec.is_local_at roots.now number }
{
    match roots.get(number) {
        Some(root) => root.is_local,
        None => true,
    }
}
