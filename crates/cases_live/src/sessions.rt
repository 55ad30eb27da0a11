//! Sessions step by step.

use crate::values::{numbers_of, pages_of, words_at};
use base_text::{FaultSink, FileId, TryClone};
use cases::{Case, Fault, List, Object, text_answer};
use input_db::{InputDb, SourceDatabase};
use live::{Event, Live, LiveConfig, StepError};
use serde_json::Value;
use std::alloc::Global;
use vfs_core::{Vfs, VfsPath};

/// Steps the events of lines, and configures the session by the words of a line that has these: what became of each, the
/// pages, what the database has of files and roots, how many probes the flushes took, and how many packages the project has.
pub fn answer(alloc: Global, case: Case<'_>) -> Result<Value, Fault> {
    let mut live = Box::new(alloc, Live::new(alloc)?)?;
    let failing = numbers_of(alloc, case, "failing_writes")?;
    let mut out = FaultSink::new(alloc, failing);
    session(alloc, case, &mut live, &mut out)
}

fn session(
    alloc: Global,
    case: Case<'_>,
    live: &mut Live,
    out: &mut FaultSink,
) -> Result<Value, Fault> {
    Object::new(alloc)
        .member("answers", step_all(alloc, live, out, case))
        .member("pages", pages_of(alloc, out.bytes()))
        .member("database", database(alloc, case, live.files(), live.db()))
        .number("probes", live.probes())
        .member("packages", packages(live))
        .answer()
}

// How many packages the project has that was loaded last, and null where none was.
fn packages(live: &Live) -> Result<Value, Fault> {
    match live.project() {
        Some(project) => Ok(Value::from(project.n_packages() as u64)),
        None => Ok(Value::Null),
    }
}

fn step_all(
    alloc: Global,
    live: &mut Live,
    out: &mut FaultSink,
    case: Case<'_>,
) -> Result<Value, Fault> {
    let mut answers = List::new(alloc);
    for line in case.list("lines") {
        answers = answers.item(step_line(alloc, live, out, case.with(line)));
    }
    answers.answer()
}

fn step_line(
    alloc: Global,
    live: &mut Live,
    out: &mut FaultSink,
    line: Case<'_>,
) -> Result<Value, Fault> {
    if line.find("configure").is_some() {
        return configure(alloc, live, line);
    }
    let line = line.value().to_string(alloc)?;
    match Event::of_line(alloc, line.as_str().as_bytes()) {
        Ok(event) => text_answer(alloc, step(alloc, live, &event.try_clone(alloc)?, out)),
        Err(_) => Err(Fault::Member("lines")),
    }
}

// Configures the session by words.
fn configure(alloc: Global, live: &mut Live, line: Case<'_>) -> Result<Value, Fault> {
    let words = words_at(alloc, line, "configure")?;
    match LiveConfig::of_words(alloc, words.as_slice()) {
        Ok(config) => live.configure(config),
        Err(_) => return Err(Fault::Member("configure")),
    }
    text_answer(alloc, "configured")
}

// Steps an event, and says what became of it.
fn step(alloc: Global, live: &mut Live, event: &Event, out: &mut FaultSink) -> &'static str {
    match live.step(alloc, event, out) {
        Ok(()) => "taken",
        Err(StepError::Refused(_)) => "refused",
        Err(StepError::Ended) => "ended",
    }
}

// The files at the paths of a case, and how many local roots and how many libraries the database lists.
fn database(alloc: Global, case: Case<'_>, vfs: &Vfs, db: &InputDb) -> Result<Value, Fault> {
    Object::new(alloc)
        .member("files", files(alloc, case, vfs, db))
        .number("local", db.local_roots().roots.len() as u64)
        .number("library", db.library_roots().roots.len() as u64)
        .answer()
}

// Of each path the text and the root that the database has, and its number; and null for a file that does not live.
fn files(alloc: Global, case: Case<'_>, vfs: &Vfs, db: &InputDb) -> Result<Value, Fault> {
    let mut files = List::new(alloc);
    for path in case.list("paths") {
        files = files.item(file_at(alloc, vfs, db, case.with(path).as_text()));
    }
    files.answer()
}

fn file_at(alloc: Global, vfs: &Vfs, db: &InputDb, text: &str) -> Result<Value, Fault> {
    let Ok(path) = VfsPath::new_real_path(alloc, text) else {
        return Err(Fault::Member("paths"));
    };
    match vfs.file_id(&path) {
        Some((id, _)) => file(alloc, db, id),
        None => Ok(Value::Null),
    }
}

fn file(alloc: Global, db: &InputDb, id: FileId) -> Result<Value, Fault> {
    if !db.files().has_text(id) || !db.files().has_file_root(id) {
        return Ok(Value::Null);
    }
    List::new(alloc)
        .text(db.file_text(id).text.as_str())
        .number(db.file_source_root(id).source_root_id.0 as u64)
        .number(id.index() as u64)
        .answer()
}
