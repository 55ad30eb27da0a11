//! What a database has of the files below four and of the roots below eight.

use base_text::FileId;
use cases::{Fault, List, Object, copied_answer, is_copied};
use input_db::{Durability, InputDb, Nonce, SourceDatabase, SourceRoot, SourceRootId, all_crates};
use serde_json::Value;
use std::alloc::Global;
use std::collections::BTreeSet;
use vfs_core::AnchoredPath;

/// What there is of files and roots, the lists of roots, how many crates and writes there are, and whether the nonce is
/// the invalid one.
pub fn contents(alloc: Global, db: &InputDb) -> Result<Value, Fault> {
    Object::new(alloc)
        .member("files", files(alloc, db))
        .member("roots", roots(alloc, db))
        .member("local", numbers(alloc, &db.local_roots().roots))
        .member("library", numbers(alloc, &db.library_roots().roots))
        .flag("copied", are_lists_copied(alloc, db)?)
        .number("crates", all_crates(db).len() as u64)
        .number("writes", db.writes())
        .flag("is_invalid", db.nonce() == Nonce::invalid())
        .answer()
}

fn are_lists_copied(alloc: Global, db: &InputDb) -> Result<bool, Fault> {
    Ok(is_copied(alloc, db.local_roots())? && is_copied(alloc, db.library_roots())?)
}

fn numbers(alloc: Global, ids: &BTreeSet<SourceRootId>) -> Result<Value, Fault> {
    let mut numbers = List::new(alloc);
    for id in ids {
        numbers = numbers.number(id.0 as u64);
    }
    numbers.answer()
}

fn name_of(durability: Durability) -> &'static str {
    match durability {
        Durability::Low => "low",
        Durability::Medium => "medium",
        Durability::High => "high",
    }
}

fn files(alloc: Global, db: &InputDb) -> Result<Value, Fault> {
    let mut files = List::new(alloc);
    for number in 0..4u32 {
        let id = FileId::from_raw(number);
        files = files.item(text(alloc, db, id)).item(place(alloc, db, id));
    }
    files.answer()
}

// A file's text, how durable it is, and whether the two equal their copy.
fn text(alloc: Global, db: &InputDb, id: FileId) -> Result<Value, Fault> {
    if !db.files().has_text(id) {
        return Ok(Value::Null);
    }
    let text = db.files().file_text(id);
    List::new(alloc)
        .text(text.text.as_str())
        .text(name_of(text.durability))
        .item(copied_answer(alloc, text))
        .answer()
}

// A file's root, how durable the place is, and the file beside it named b.rs.
fn place(alloc: Global, db: &InputDb, id: FileId) -> Result<Value, Fault> {
    if !db.files().has_file_root(id) {
        return Ok(Value::Null);
    }
    let place = db.file_source_root(id);
    if !db.files().has_root(place.source_root_id) {
        return Ok(Value::Null);
    }
    let path = AnchoredPath {
        anchor: id,
        path: "b.rs",
    };
    let answer = List::new(alloc)
        .number(place.source_root_id.0 as u64)
        .text(name_of(place.durability));
    match db.resolve_path(alloc, path)? {
        Some(file) => answer.number(file.index() as u64).answer(),
        None => answer.optional(None).answer(),
    }
}

fn roots(alloc: Global, db: &InputDb) -> Result<Value, Fault> {
    let mut roots = List::new(alloc);
    for number in 0..8u32 {
        if db.files().has_root(SourceRootId(number)) {
            roots = roots.item(root(alloc, db, SourceRootId(number)));
        }
    }
    roots.answer()
}

// The number of a root, whether it is a library and equals its copy, how durable it is, and its files.
fn root(alloc: Global, db: &InputDb, id: SourceRootId) -> Result<Value, Fault> {
    if !db.files().has_root(id) {
        return Ok(Value::Null);
    }
    let input = db.source_root(id);
    List::new(alloc)
        .number(id.0 as u64)
        .flag(input.source_root.is_library)
        .item(copied_answer(alloc, &input.source_root))
        .text(name_of(input.durability))
        .item(root_files(alloc, &input.source_root))
        .answer()
}

// The number of each file of a root, its path, and whether that is found at this path.
fn root_files(alloc: Global, root: &SourceRoot) -> Result<Value, Fault> {
    let mut files = List::new(alloc);
    for file in root.iter() {
        if let Some(path) = root.path_for_file(&file) {
            let is_found = root.file_for_path(path) == Some(&file);
            let answer = List::new(alloc).number(file.index() as u64);
            files = files.item(answer.text(path.as_str()).flag(is_found).answer());
        }
    }
    files.answer()
}
