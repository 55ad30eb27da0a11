//! The crates whose root files are in a source root.

ghost use Rattle.std.specs.Prelude.{◌≡◌, ◌↔◌, IfOk, IsSome, IsTrue};
ghost use Rattle.input_db.specs.RootCrates.{HaveSourceRoots, crates_beside, crates_in_root};
ghost use Rattle.input_db_files.specs.Files.{file_root_of};

use crate::crate_input::Crate;
use crate::queries::all_crates;
use crate::source_database::SourceDatabase;
use base_text_paths::FileId;
use input_db_files::SourceRootId;
use std::alloc::{AllocError, Global};

/// Whether the root file of each crate that there is now has a source root.
pub fn crates_have_source_roots<D: SourceDatabase>(db: &D) -> bool
    ensures { IsTrue result ↔ HaveSourceRoots (D.seen db.now) }
{
    for krate in all_crates(db) {
        let root_file = krate.data(db).root_file_id;
        if !db.files().has_file_root(root_file) {
            return false;
        }
    }
    true
}

/// The crates that there are now whose root files are in a source root, in the order of all. Each root file is in one, as
/// `crates_have_source_roots` reports.
pub fn source_root_crates<D: SourceDatabase>(
    alloc: Global,
    db: &D,
    id: SourceRootId,
) -> Result<Vec<Crate>, AllocError>
    requires { HaveSourceRoots (D.seen db.now) }
    ensures { IfOk result (λ crates. crates.items ≡ crates_in_root (D.seen db.now) id) }
{
    let mut crates = Vec::new(alloc);
    for krate in all_crates(db) {
        let root_file = krate.data(db).root_file_id;
        if db.file_source_root(root_file).source_root_id == id {
            crates.push(*krate)?;
        }
    }
    Ok(crates)
}

/// The crates whose root files are in the source root of a file, which has one, as `has_file_root` of `files` reports. So has
/// each root file, as `crates_have_source_roots` reports.
pub fn relevant_crates<D: SourceDatabase>(
    alloc: Global,
    db: &D,
    file_id: FileId,
) -> Result<Vec<Crate>, AllocError>
    requires crates { HaveSourceRoots (D.seen db.now) }
    requires file { IsSome (file_root_of (D.seen db.now).files file_id) }
    ensures { IfOk result (λ crates. crates.items ≡ crates_beside (D.seen db.now) file_id) }
{
    let place = db.file_source_root(file_id);
    source_root_crates(alloc, db, place.source_root_id)
}
