//! The page that a database shows, as JSON text.

ghost use Rattle.std.specs.Prelude.{◌≡◌, ◌∷◌, ◌++◌, [], false, IfOk, OnOk, map, string_bytes};
ghost use Rattle.serde_json.specs.View.{items_view, view};
ghost use Rattle.serde_json.specs.Written.{compact_text, has_float};
ghost use Rattle.live_page.specs.Page.{dependency_entry_data, entry_data, numbers_listed, page_data, page_of, paths_shown, roots_listed, set_data, set_shown, texts_data};

use crate::crate_entry::{CrateEntry, DependencyEntry};
use crate::entries::crate_entries;
use base_text::{Text, sort_all};
use input_db::{InputDb, SourceDatabase};
use input_db_files::{SourceRoot, SourceRootId};
use serde_json::{Value, json};
use std::alloc::{AllocError, Global};
use std::collections::BTreeSet;

/// The page that a database shows: the entries of the crates that it lists, and the sets of the source roots that its lists
/// name, in order of their numbers.
#[tactic(auto, unfolding(crate::specs::Page::page_of))]
pub fn page(alloc: Global, db: &InputDb) -> Result<String, AllocError>
    ensures { IfOk result (λ text. string_bytes text ≡ page_of db.now) }
{
    let crates = entry_values(alloc, crate_entries(alloc, db)?)?;
    let sets = sets_of(alloc, db)?;
    let value = page_value(alloc, crates, sets)?;
    line_of(alloc, &value)
}

/// The entries as JSON objects.
pub fn entry_values(alloc: Global, entries: Vec<CrateEntry>) -> Result<Vec<Value>, AllocError>
    ensures { IfOk result (λ values. map view values.items ≡ map entry_data entries.items) }
{
    let mut values = Vec::new(alloc);
    for entry in entries {
        values.push(entry_value(alloc, entry)?)?;
    }
    Ok(values)
}

// An entry as a JSON object.
fn entry_value(alloc: Global, entry: CrateEntry) -> Result<Value, AllocError>
    ensures { IfOk result (λ value. view value ≡ entry_data entry) }
{
    let deps = dependency_values(alloc, entry.deps.into_inner())?;
    let root = Value::String(entry.root.into_inner());
    json!(in alloc; {"deps": deps, "root": root})
}

// The dependencies of an entry as JSON objects.
fn dependency_values(alloc: Global, deps: Vec<DependencyEntry>) -> Result<Vec<Value>, AllocError>
    ensures { IfOk result (λ values. map view values.items ≡ map dependency_entry_data deps.items) }
{
    let mut values = Vec::new(alloc);
    for dep in deps {
        values.push(dependency_value(alloc, dep)?)?;
    }
    Ok(values)
}

// A dependency as a JSON object.
fn dependency_value(alloc: Global, dep: DependencyEntry) -> Result<Value, AllocError>
    ensures { IfOk result (λ value. view value ≡ dependency_entry_data dep) }
{
    let name = Value::String(dep.name.into_inner());
    let root = Value::String(dep.root.into_inner());
    json!(in alloc; {"name": name, "root": root})
}

// The sets of the source roots that the lists name, in order.
fn sets_of(alloc: Global, db: &InputDb) -> Result<Vec<Value>, AllocError>
    ensures { IfOk result (λ sets. map view sets.items ≡ map set_shown (roots_listed db.now)) }
{
    let mut sets = Vec::new(alloc);
    for id in listed_roots(alloc, db)? {
        if db.files().has_root(id) {
            sets.push(set_of(alloc, &db.source_root(id).source_root)?)?;
        }
    }
    Ok(sets)
}

// The numbers of the source roots that the lists name, in order.
fn listed_roots(alloc: Global, db: &InputDb) -> Result<Vec<SourceRootId>, AllocError>
    ensures { IfOk result (λ ids. ids.items ≡ numbers_listed db.now) }
{
    let mut ids = Vec::new(alloc);
    append(&mut ids, &db.local_roots().roots)?;
    append(&mut ids, &db.library_roots().roots)?;
    sort_all(&mut ids)?;
    Ok(ids)
}

// Puts the numbers of a list behind others.
fn append(ids: &mut Vec<SourceRootId>, roots: &BTreeSet<SourceRootId>) -> Result<(), AllocError>
    ensures { OnOk result (ids.new.items ≡ ids.old.items ++ roots.now.keys) }
{
    for id in roots {
        ids.push(*id)?;
    }
    Ok(())
}

// A source root as the page shows it.
fn set_of(alloc: Global, root: &SourceRoot) -> Result<Value, AllocError>
    ensures { IfOk result (λ value. view value ≡ set_shown root.now) }
{
    let mut paths = texts_of(alloc, root)?;
    sort_all(&mut paths)?;
    set_value(alloc, paths, !root.is_library)
}

/// A value's compact text, and a newline.
pub fn line_of(alloc: Global, value: &Value) -> Result<String, AllocError>
    ensures { IfOk result (λ line. has_float (view value.now) ≡ false
        → string_bytes line ≡ compact_text (view value.now) ++ 10 ∷ []) }
{
    let mut line = value.to_string(alloc)?;
    line.push('\n')?;
    Ok(line)
}

// The paths of the files of a source root.
fn texts_of(alloc: Global, root: &SourceRoot) -> Result<Vec<Text>, AllocError>
    ensures { IfOk result (λ texts. texts.items ≡ paths_shown root.now) }
{
    let mut texts = Vec::new(alloc);
    for file in root.iter() {
        if let Some(path) = root.path_for_file(&file) {
            texts.push(Text::of_str(alloc, path.as_str())?)?;
        }
    }
    Ok(texts)
}

// The texts as JSON strings.
#[tactic(auto, using(crate::proofs::Pages::strings_view))]
fn strings(alloc: Global, texts: Vec<Text>) -> Result<Vec<Value>, AllocError>
    ensures { IfOk result (λ values. items_view values.items ≡ texts_data texts.items) }
{
    let mut values = Vec::new(alloc);
    for text in texts {
        values.push(Value::String(text.into_inner()))?;
    }
    Ok(values)
}

/// A set of files, each by its path, as a JSON object.
pub fn set_value(alloc: Global, files: Vec<Text>, is_local: bool) -> Result<Value, AllocError>
    ensures { IfOk result (λ value. view value ≡ set_data files.items is_local) }
{
    let files = strings(alloc, files)?;
    json!(in alloc; {"files": files, "local": is_local})
}

/// The whole page, of the entries of crates and the sets, as a JSON object.
pub fn page_value(alloc: Global, crates: Vec<Value>, sets: Vec<Value>) -> Result<Value, AllocError>
    ensures { IfOk result (λ value. view value
        ≡ page_data (items_view crates.items) (items_view sets.items)) }
{
    json!(in alloc; {"crates": crates, "sets": sets})
}
