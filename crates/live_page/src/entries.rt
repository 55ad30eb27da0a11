//! The entries of the crates that a database lists.

ghost use Rattle.std.specs.Prelude.{◌≡◌, ◌<◌, IfOk, length, map};
ghost use Rattle.std.specs.List.{All, filter_map};
ghost use Rattle.std.specs.Option.{option_copied};
ghost use Rattle.input_db.specs.Identity.{IsTable};
ghost use Rattle.live_page.specs.Entries.{dependency_entries, entries_shown, entry_in, named_number, path_in, root_file_path};

use crate::crate_entry::{CrateEntry, DependencyEntry};
use base_text::{FileId, Items, Text, sort_all};
use input_db::{BuiltCrateData, Crate, InputDb, SourceDatabase};
use input_db_files::Files;
use std::alloc::{AllocError, Global};

/// The entries of the crates that a database lists, in order, and equal ones once. A crate whose root file has no path in
/// a source root has none, and no entry names it.
pub fn crate_entries(alloc: Global, db: &InputDb) -> Result<Vec<CrateEntry>, AllocError>
    ensures { IfOk result (λ entries. entries.items ≡ entries_shown db.now) }
{
    let mut entries = listed_entries(alloc, db)?;
    sort_all(&mut entries)?;
    entries.dedup();
    Ok(entries)
}

// The entries in the order of the list, with repeats.
fn listed_entries(alloc: Global, db: &InputDb) -> Result<Vec<CrateEntry>, AllocError>
    ensures { IfOk result (λ entries. entries.items
        ≡ filter_map (entry_in (path_in db.now.files) db.now.crates) db.now.listed) }
{
    let mut entries = Vec::new(alloc);
    for krate in db.all_crates_list() {
        if let Some(entry) = entry_of(alloc, db, *krate)? {
            entries.push(entry)?;
        }
    }
    Ok(entries)
}

// The entry of a crate, where its root file has a path.
fn entry_of(alloc: Global, db: &InputDb, krate: Crate) -> Result<Option<CrateEntry>, AllocError>
    requires there { krate < length db.now.crates }
    requires table { IsTable db.now.crates }
    ensures { IfOk result (λ entry. entry ≡ entry_in (path_in db.now.files) db.now.crates krate) }
{
    let data = &db.crate_input(krate).crate_data;
    match path_of(db.files(), data.root_file_id) {
        None => Ok(None),
        Some(path) => {
            let root = Text::of_str(alloc, path)?;
            let deps = dependency_entries(alloc, db, data)?;
            Ok(Some(CrateEntry {
                root,
                deps: Items::new(deps),
            }))
        }
    }
}

// Those dependencies of a crate that are on crates whose root files have paths, in order.
fn dependency_entries(
    alloc: Global,
    db: &InputDb,
    krate: &BuiltCrateData,
) -> Result<Vec<DependencyEntry>, AllocError>
    requires { All (λ dep. dep.crate_id < length db.now.crates) krate.now.dependencies }
    ensures { IfOk result (λ found. found.items
        ≡ dependency_entries (root_file_path (path_in db.now.files) db.now.crates)
        (map (named_number (λ n. n)) krate.now.dependencies)) }
{
    let mut found = Vec::new(alloc);
    for dep in krate.dependencies.as_slice() {
        if let Some(path) = root_path(db, dep.crate_id) {
            let name = Text::of_str(alloc, dep.name.symbol().as_str())?;
            let root = Text::of_str(alloc, path)?;
            found.push(DependencyEntry { name, root })?;
        }
    }
    sort_all(&mut found)?;
    Ok(found)
}

// The path of a crate's root file.
fn root_path(db: &InputDb, krate: Crate) -> Option<&str>
    requires { krate < length db.now.crates }
    ensures { option_copied result ≡ root_file_path (path_in db.now.files) db.now.crates krate }
{
    path_of(db.files(), db.crate_input(krate).crate_data.root_file_id)
}

// The path of a file in its source root.
fn path_of(files: &Files, file: FileId) -> Option<&str>
    ensures { option_copied result ≡ path_in files.now file }
{
    if !files.has_file_root(file) {
        return None;
    }
    let root = files.file_source_root(file).source_root_id;
    if !files.has_root(root) {
        return None;
    }
    let path = files.source_root(root).source_root.path_for_file(&file)?;
    Some(path.as_str())
}
