//! The roots that place the files of a project.

ghost use Rattle.std.specs.Prelude.{◌≡◌, IfOk, map};
ghost use Rattle.live_project.specs.Roots.{live_root_path, file_root, file_roots};

use base_text::{Items, TryClone};
use pm_lower_load::PackageRoot;
use std::alloc::{AllocError, Global};
use vfs_core::VfsPath;
use vfs_sets::FileRoot;

// The directories of a root, as paths that place files.
fn directories(alloc: Global, root: &PackageRoot) -> Result<Items<VfsPath>, AllocError>
    ensures { IfOk result (λ paths. paths ≡ map live_root_path root.now.include) }
{
    let mut paths = Vec::new(alloc);
    for path in root.include.as_slice() {
        paths.push(VfsPath::from_abs(alloc, path.try_clone(alloc)?)?)?;
    }
    Ok(Items::new(paths))
}

// A root of a project as a root of files.
fn file_root(alloc: Global, root: &PackageRoot) -> Result<FileRoot, AllocError>
    ensures { IfOk result (λ made. made ≡ file_root root.now) }
{
    Ok(FileRoot {
        is_local: root.is_local,
        paths: directories(alloc, root)?,
    })
}

/// These roots as roots of files, by their directories. What is left out of them plays no part.
pub(crate) fn file_roots(
    alloc: Global,
    roots: &[PackageRoot],
) -> Result<Items<FileRoot>, AllocError>
    ensures { IfOk result (λ made. made ≡ file_roots roots.now) }
{
    let mut made = Vec::with_capacity(alloc, roots.len())?;
    for root in roots {
        made.push(file_root(alloc, root)?)?;
    }
    Ok(Items::new(made))
}
