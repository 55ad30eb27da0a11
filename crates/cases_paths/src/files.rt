//! Tables of files, step by step, what a changed file says of its change, and the hash of contents.

use crate::marks;
use crate::vfs_paths::vfs_path;
use base_text::{FileId, Items, TryClone};
use cases::{Case, Fault, List, Object, bytes_answer, text_answer};
use serde_json::Value;
use std::alloc::Global;
use vfs_core::{Change, ChangeKind, ChangedFile, FileExcluded, Vfs, VfsError, content_hash};

/// What a call on files gives.
pub fn answer(alloc: Global, case: Case<'_>) -> Result<Value, Fault> {
    match case.text("call") {
        "Vfs" => table(alloc, case),
        "ChangedFile" => changed_file(alloc, case.text("change")),
        "live_text" => marks::answer(alloc, case),
        "content_hash" => Ok(Value::from(content_hash(case.text("text").as_bytes()))),
        _ => Err(Fault::Call),
    }
}

// What each step answers, what the table has then, and its batch of changes, which is empty once it is taken.
fn table(alloc: Global, case: Case<'_>) -> Result<Value, Fault> {
    let limit = case.of("limit").as_file_number();
    let mut vfs = Box::new(alloc, Vfs::new(alloc, limit))?;
    Object::new(alloc)
        .member("answers", take_steps(alloc, &mut vfs, case))
        .member("files", files(alloc, &vfs))
        .member("ids", ids(alloc, &vfs, case))
        .member("changes", changes(alloc, &mut vfs))
        .number("left", vfs.take_changes().len() as u64)
        .answer()
}

fn take_steps(alloc: Global, vfs: &mut Vfs, case: Case<'_>) -> Result<Value, Fault> {
    let mut answers = List::new(alloc);
    for step in case.list("steps") {
        answers = answers.item(take_step(alloc, vfs, case.with(step)));
    }
    answers.answer()
}

// A step: a path and its contents, or null where it has none; a path alone, which is excluded; or a new limit.
fn take_step(alloc: Global, vfs: &mut Vfs, step: Case<'_>) -> Result<Value, Fault> {
    match step.value() {
        Value::Number(_) => {
            vfs.set_limit(step.as_file_number());
            Ok(Value::Null)
        }
        Value::Array(items) if items.len() == 1 => exclude(alloc, vfs, step.text_at(0)),
        _ => set(alloc, vfs, step.text_at(0), step.at(1).value().as_str()),
    }
}

fn set(alloc: Global, vfs: &mut Vfs, path: &str, text: Option<&str>) -> Result<Value, Fault> {
    let path = vfs_path(alloc, path, false)?;
    let contents = match text {
        Some(text) => Some(text.as_bytes().to_vec(alloc)?),
        None => None,
    };
    match vfs.set_file_contents(path, contents) {
        Ok(has_changed) => Ok(Value::from(has_changed)),
        Err(VfsError::TooMany) => text_answer(alloc, "TooMany"),
        Err(VfsError::OutOfMemory) => Err(Fault::OutOfMemory),
    }
}

fn exclude(alloc: Global, vfs: &mut Vfs, path: &str) -> Result<Value, Fault> {
    match vfs.insert_excluded_file(vfs_path(alloc, path, false)?) {
        Ok(()) => Ok(Value::Null),
        Err(VfsError::TooMany) => text_answer(alloc, "TooMany"),
        Err(VfsError::OutOfMemory) => Err(Fault::OutOfMemory),
    }
}

// The batch of changes: of each file its number, the kind of its change, and its contents with their hash.
fn changes(alloc: Global, vfs: &mut Vfs) -> Result<Value, Fault> {
    let mut changes = List::new(alloc);
    for (id, changed) in vfs.take_changes().iter() {
        let change = List::new(alloc).number(id.index() as u64);
        changes = changes.item(with_change(alloc, change, &changed.change).answer());
    }
    changes.answer()
}

fn with_change(alloc: Global, answer: List, change: &Change) -> List {
    match change {
        Change::Create(contents, hash) => answer
            .text("create")
            .item(bytes_answer(alloc, contents.as_slice()))
            .flag(*hash == content_hash(contents.as_slice())),
        Change::Modify(contents, hash) => answer
            .text("modify")
            .item(bytes_answer(alloc, contents.as_slice()))
            .flag(*hash == content_hash(contents.as_slice())),
        Change::Delete => answer.text("delete"),
    }
}

// What a copy of a changed file says of its change, and whether the copy has the same change.
fn changed_file(alloc: Global, change: &str) -> Result<Value, Fault> {
    let changed = ChangedFile {
        file_id: FileId::from_raw(0),
        change: change_of(alloc, change),
    };
    let copy = changed.try_clone(alloc)?;
    Object::new(alloc)
        .flag("copied", copy.change == changed.change)
        .flag("is_delete", copy.kind() == ChangeKind::Delete)
        .flag("is_created", copy.is_created())
        .flag("is_modified", copy.is_modified())
        .flag("is_created_or_deleted", copy.is_created_or_deleted())
        .flag("exists", copy.exists())
        .answer()
}

fn change_of(alloc: Global, name: &str) -> Change {
    match name {
        "create" => Change::Create(Items::empty(alloc), 0),
        "modify" => Change::Modify(Items::empty(alloc), 0),
        _ => Change::Delete,
    }
}

// The number of the file at each path of the case, and whether it is left out.
fn ids(alloc: Global, vfs: &Vfs, case: Case<'_>) -> Result<Value, Fault> {
    let mut ids = List::new(alloc);
    for path in case.list("paths") {
        ids = ids.item(id_of(alloc, vfs, case.with(path).as_text()));
    }
    ids.answer()
}

fn id_of(alloc: Global, vfs: &Vfs, path: &str) -> Result<Value, Fault> {
    match vfs.file_id(&vfs_path(alloc, path, false)?) {
        Some((id, excluded)) => List::new(alloc)
            .number(id.index() as u64)
            .flag(excluded == FileExcluded::Yes)
            .answer(),
        None => Ok(Value::Null),
    }
}

// The files that exist, each a number and a path, which the table has under that number.
fn files(alloc: Global, vfs: &Vfs) -> Result<Value, Fault> {
    let mut files = List::new(alloc);
    for (id, path) in vfs.iter() {
        if vfs.has(id) {
            let file = List::new(alloc)
                .number(id.index() as u64)
                .text(path.as_str());
            let is_found = *vfs.file_path(id) == *path && vfs.exists(id);
            files = files.item(file.flag(is_found).answer());
        }
    }
    files.answer()
}
