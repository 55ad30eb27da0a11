//! The tree of the files that live, which a load keeps.

ghost use Rattle.std.specs.Prelude.{◌≡◌, IfOk, OnOk};
ghost use Rattle.std.specs.Option.{option_copied};
ghost use Rattle.vfs_core.specs.Files.{existing_files};
ghost use Rattle.live_project.specs.LiveTexts.{kept_by, with_row};

use crate::live_texts::LiveTexts;
use base_text::{MemoryTree, SharedText, TryClone};
use std::alloc::{AllocError, Global};
use vfs_core::{Vfs, VfsPath};

// Puts a file with its text in, where it has one. A file whose path is virtual is in no tree.
fn keep_file(
    alloc: Global,
    tree: &mut MemoryTree,
    path: &VfsPath,
    text: Option<&SharedText>,
) -> Result<(), AllocError>
    ensures { OnOk result (tree.new ≡ with_row tree.old path.now (option_copied text.entry)) }
{
    let Some(text) = text else {
        return Ok(());
    };
    match path.as_path() {
        None => Ok(()),
        Some(path) => tree.insert_shared(path.to_path_buf(alloc)?, text.try_clone(alloc)?),
    }
}

/// The files that exist with their texts, each under its real path. The texts stay shared.
#[tactic(auto, unfolding(crate::specs::LiveTexts::kept_by))]
pub(crate) fn kept_files(
    alloc: Global,
    files: &Vfs,
    texts: &LiveTexts,
) -> Result<MemoryTree, AllocError>
    ensures { IfOk result (λ tree. tree ≡ kept_by texts.now (existing_files files.now)) }
{
    let mut tree = MemoryTree::new(alloc);
    for (id, path) in files.iter() {
        keep_file(alloc, &mut tree, path, texts.text(id))?;
    }
    Ok(tree)
}
