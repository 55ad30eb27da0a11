//! What is given to a database: source roots, and changes of files.

ghost use Rattle.std.specs.Prelude.{◌≡◌, ◌<◌, ◌^◌, [], IfOk, None, OnOk, length, nat_eq, option_map, string_bytes};
ghost use Rattle.std.specs.List.{IsDistinct};
ghost use Rattle.std.specs.Map.{keys_of};
ghost use Rattle.live_page.specs.Refresh.{GivesChanges, GivesRoots, changes_taken, text_if, text_left};

use base_text::{FileId, Items};
use indexmap::IndexMap;
use input_db::{FileChange, InputDb};
use input_db_files::SourceRoot;
use std::alloc::{AllocError, Global};
use vfs_core::{Change, ChangedFile};

/// Gives these source roots to a database, with the files of each.
pub(crate) fn give_roots(
    alloc: Global,
    db: &mut InputDb,
    roots: Vec<SourceRoot>,
) -> Result<(), AllocError>
    requires { length roots.items < 2 ^ 32 }
    ensures { OnOk result (GivesRoots roots.items db.old db.new) }
{
    let mut change = FileChange::new(alloc);
    change.set_roots(roots);
    change.apply(alloc, db)?;
    Ok(())
}

/// Gives those changes to a database whose file has a root there.
pub(crate) fn give_changes(
    alloc: Global,
    db: &mut InputDb,
    changes: IndexMap<FileId, ChangedFile>,
) -> Result<(), AllocError>
    ensures ok { OnOk result (GivesChanges changes.entries db.old db.new) }
    ensures distinct { IsDistinct nat_eq (keys_of changes.entries) }
{
    let change = change_of(alloc, db, changes)?;
    change.apply(alloc, db)?;
    Ok(())
}

// Those changes whose file has a root in a database.
fn change_of(
    alloc: Global,
    db: &InputDb,
    changes: IndexMap<FileId, ChangedFile>,
) -> Result<FileChange, AllocError>
    ensures roots { IfOk result (λ change. change.roots ≡ None) }
    ensures crates { IfOk result (λ change. change.crate_graph ≡ None) }
    ensures taken { IfOk result (λ change. change.files_changed
        ≡ changes_taken db.now.files [] changes.entries) }
    ensures distinct { IsDistinct nat_eq (keys_of changes.entries) }
{
    let mut change = FileChange::new(alloc);
    for (file, changed) in changes {
        if change.fits_file(db, file) {
            change.change_file(file, text_left(changed.change))?;
        }
    }
    Ok(change)
}

// The text that a change leaves.
fn text_left(change: Change) -> Option<String>
    ensures { option_map string_bytes result ≡ text_left change }
{
    match change {
        Change::Create(bytes, _) => text_if(bytes),
        Change::Modify(bytes, _) => text_if(bytes),
        Change::Delete => None,
    }
}

// The text of bytes, where they are one.
fn text_if(bytes: Items<u8>) -> Option<String>
    ensures { option_map string_bytes result ≡ text_if bytes }
{
    match String::from_utf8(bytes.into_inner()) {
        Ok(text) => Some(text),
        Err(_) => None,
    }
}
