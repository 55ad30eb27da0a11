//! The source roots that the files of roots become.

ghost use Rattle.std.specs.Prelude.{◌≡◌, IfOk};
ghost use Rattle.live_page.specs.SourceRoots as spec;

use input_db_files::SourceRoot;
use std::alloc::{AllocError, Global};
use vfs_sets::file_root::is_local_at;
use vfs_sets::{FileRoot, FileSet};

// Each set of files as a source root, which is local where its root is. A set that has no root is local.
pub fn source_roots(
    alloc: Global,
    roots: &[FileRoot],
    sets: Vec<FileSet>,
) -> Result<Vec<SourceRoot>, AllocError>
    ensures { IfOk result (λ made. made.items ≡ spec.source_roots roots.now sets.items) }
{
    let mut made = Vec::with_capacity(alloc, sets.len())?;
    for set in sets {
        let is_local = is_local_at(roots, made.len());
        made.push(source_root(is_local, set))?;
    }
    Ok(made)
}

// A set of files as a source root.
fn source_root(is_local: bool, set: FileSet) -> SourceRoot
    ensures { result ≡ spec.source_root is_local set }
{
    if is_local {
        SourceRoot::new_local(set)
    } else {
        SourceRoot::new_library(set)
    }
}
