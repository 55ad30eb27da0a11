//! Changes of a database, as cases give them: roots with their files, a graph, and texts.

ghost use Rattle.std.specs.Prelude.{◌<◌, ◌^◌, IfSome, IsTrue, length};

use crate::databases::contents::contents;
use crate::making::graph_of;
use base_text::{FileId, Items, TryClone};
use cases::{Case, Fault, List, is_copied, text_answer};
use input_db::{Crate, FileChange, InputDb, SourceDatabase, SourceRoot};
use live_page::{crate_entries, page};
use serde_json::Value;
use std::alloc::{AllocError, Global};
use vfs_core::VfsPath;
use vfs_sets::FileSet;

/// Applies a copy of a change: how many crates it gives, and what the database has then.
pub fn apply(alloc: Global, db: &mut InputDb, given: Case<'_>) -> Result<Value, Fault> {
    let change = change_of(alloc, given)?;
    match make(alloc, change.try_clone(alloc)?, db)? {
        Some(crates) => List::new(alloc)
            .number(crates.len() as u64)
            .item(contents(alloc, db))
            .answer(),
        None => text_answer(alloc, "it does not fit"),
    }
}

/// Makes the change that a case gives, which has to fit, and returns the crates of its graph in order.
pub fn make_given(alloc: Global, db: &mut InputDb, given: Case<'_>) -> Result<Vec<Crate>, Fault> {
    let change = change_of(alloc, given)?;
    make(alloc, Box::into_inner(change), db)?.ok_or(Fault::Condition)
}

/// The page after a change, where each entry equals its copy.
pub fn page_after(alloc: Global, db: &mut InputDb, given: Case<'_>) -> Result<Value, Fault> {
    drop(make_given(alloc, db, given)?);
    for entry in crate_entries(alloc, db)?.as_slice() {
        if !is_copied(alloc, entry)? {
            return Err(Fault::Condition);
        }
    }
    text_answer(alloc, page(alloc, db)?.as_str())
}

// Makes a change that fits, and returns the crates of its graph in order, none where there is no graph.
fn make<D: SourceDatabase>(
    alloc: Global,
    change: FileChange,
    db: &mut D,
) -> Result<Option<Vec<Crate>>, AllocError> {
    if !change.fits(db) || !are_few(&change.roots) {
        return Ok(None);
    }
    let mut crates = Vec::new(alloc);
    if let Some(ids) = change.apply(alloc, db)? {
        for krate in ids.values() {
            crates.push(*krate)?;
        }
    }
    Ok(Some(crates))
}

// Whether the roots that a change gives, where it gives some, are few.
fn are_few(roots: &Option<Items<SourceRoot>>) -> bool
    ensures { IsTrue result → IfSome roots.now (λ roots. length roots < 2 ^ 32) }
{
    match roots {
        Some(roots) => roots.len() < 100,
        None => true,
    }
}

fn change_of(alloc: Global, given: Case<'_>) -> Result<Box<FileChange>, Fault> {
    let mut change = Box::new(alloc, FileChange::new(alloc))?;
    if given.find("roots").is_some() {
        change.set_roots(roots_of(alloc, given)?);
    }
    if given.find("graph").is_some() {
        let graph = graph_of(alloc, given.of("graph"))?;
        change.set_crate_graph(Box::into_inner(graph));
    }
    change_files(alloc, &mut change, given)?;
    Ok(change)
}

fn roots_of(alloc: Global, given: Case<'_>) -> Result<Vec<SourceRoot>, Fault> {
    let mut roots = Vec::new(alloc);
    for root in given.list("roots") {
        roots.push(root_of(alloc, given.with(root))?)?;
    }
    Ok(roots)
}

// Sets the text of each file, or none.
fn change_files(alloc: Global, change: &mut FileChange, given: Case<'_>) -> Result<(), Fault> {
    for pair in given.list("texts") {
        let pair = given.with(pair);
        let text = match pair.at(1).value().as_str() {
            Some(text) => Some(String::from_str(alloc, text)?),
            None => None,
        };
        change.change_file(FileId::from_raw(pair.at(0).as_file_number()), text)?;
    }
    Ok(())
}

/// The root that a case gives: its files, which are local or of a library.
pub fn root_of(alloc: Global, given: Case<'_>) -> Result<SourceRoot, Fault> {
    let mut files = FileSet::new(alloc);
    for pair in given.list("files") {
        let pair = given.with(pair);
        let Ok(path) = VfsPath::new_real_path(alloc, pair.text_at(1)) else {
            return Err(Fault::Member("files"));
        };
        files.insert(FileId::from_raw(pair.at(0).as_file_number()), path)?;
    }
    if given.flag("local") {
        Ok(SourceRoot::new_local(files))
    } else {
        Ok(SourceRoot::new_library(files))
    }
}
