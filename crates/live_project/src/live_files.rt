//! The files that live, as a loader finds them.

ghost use Rattle.std.specs.Prelude.{◌≡◌, IfOk, OnOk};
ghost use Rattle.vfs_core.specs.Files.{existing_files};
ghost use Rattle.live_project.specs.Crates.{files_by_path, with_live_file};

use base_text::FileId;
use pm_lower_crates::MapLoader;
use std::alloc::{AllocError, Global};
use vfs_core::{Vfs, VfsPath};

// Puts a file in under its path. One whose path is virtual is in no loader.
fn put_file(
    alloc: Global,
    loader: &mut MapLoader,
    id: FileId,
    path: &VfsPath,
) -> Result<(), AllocError>
    ensures { OnOk result (loader.new ≡ with_live_file loader.old (id, path.now)) }
{
    match path.as_path() {
        None => Ok(()),
        Some(path) => loader.insert(path.to_path_buf(alloc)?, id),
    }
}

/// The files that exist, by their real paths.
#[tactic(auto, unfolding(crate::specs::Crates::files_by_path))]
pub(crate) fn files_by_path(alloc: Global, files: &Vfs) -> Result<MapLoader, AllocError>
    ensures { IfOk result (λ loader. loader ≡ files_by_path (existing_files files.now)) }
{
    let mut loader = MapLoader::new(alloc);
    for (id, path) in files.iter() {
        put_file(alloc, &mut loader, id, path)?;
    }
    Ok(loader)
}
