//! Sets of files: in which set a path belongs, and which file a relative path names.

use crate::vfs_paths::vfs_path;
use base_text::{Counter, FileId, Ledger, Steps, TryClone};
use cases::{Case, Fault, List, Object, bytes_answer};
use serde_json::Value;
use std::alloc::Global;
use vfs_core::{AnchoredPath, Vfs, VfsPath};
use vfs_sets::{FileSet, FileSetConfig, FileSetConfigBuilder};

/// What a call on sets gives.
pub fn answer(alloc: Global, case: Case<'_>) -> Result<Value, Fault> {
    match case.text("call") {
        "FileSet::resolve_path" => resolve(alloc, case),
        "FileSet::try_clone" => copied_set(alloc, case),
        call => of_config(alloc, case, call, &*builder(alloc, case)?),
    }
}

// Roots of each set, as virtual paths.
fn builder(alloc: Global, case: Case<'_>) -> Result<Box<FileSetConfigBuilder>, Fault> {
    let mut builder = Box::new(alloc, FileSetConfig::builder(alloc))?;
    for roots in case.list("roots") {
        builder.add_file_set(virtual_paths(alloc, case.with(roots))?)?;
    }
    Ok(builder)
}

fn virtual_paths(alloc: Global, roots: Case<'_>) -> Result<Vec<VfsPath>, Fault> {
    let mut paths = Vec::new(alloc);
    for root in roots.items() {
        paths.push(vfs_path(alloc, roots.with(root).as_text(), true)?)?;
    }
    Ok(paths)
}

// What a call gives on what a copy of the builder makes.
fn of_config(
    alloc: Global,
    case: Case<'_>,
    call: &str,
    builder: &FileSetConfigBuilder,
) -> Result<Value, Fault> {
    let config = Box::new(alloc, builder.try_clone(alloc)?.build()?)?;
    match call {
        "FileSetConfig::classify_path" => places(alloc, case, &config, builder.len()),
        "FileSetConfig::partition" => partition(alloc, &config, &*table(alloc, case)?),
        "FileSetConfig::roots" => roots(alloc, &config),
        _ => Err(Fault::Call),
    }
}

// Of the path of a case, which is a virtual one unless the case says that it is real: the set that takes it, by the
// configuration and by its copy, and none without roots; the same set, or the number of sets, as it is found in counted steps,
// and whether these are as few as the case says.
fn places(
    alloc: Global,
    case: Case<'_>,
    config: &FileSetConfig,
    sets: usize,
) -> Result<Value, Fault> {
    let path = vfs_path(alloc, case.text("path"), !case.flag("real"))?;
    let copy = Box::new(alloc, config.try_clone(alloc)?)?;
    let without = Box::new(alloc, FileSetConfig::new(alloc)?)?;
    let mut steps = Steps {
        ledger: Counter::new(),
    };
    let counted = config.classify_counted(&path, &mut steps);
    Object::new(alloc)
        .number("sets", sets as u64)
        .member("set", Ok(set_answer(config, &path)))
        .member("by_copy", Ok(set_answer(&copy, &path)))
        .member("without_roots", Ok(set_answer(&without, &path)))
        .number("counted", counted as u64)
        .flag("within", steps.ledger.count() <= case.number("most_steps"))
        .answer()
}

// The set that takes a path, or null.
fn set_answer(config: &FileSetConfig, path: &VfsPath) -> Value {
    match config.classify_path(path) {
        Some(set) => Value::from(set),
        None => Value::Null,
    }
}

// The paths of each set's files.
fn partition(alloc: Global, config: &FileSetConfig, files: &Vfs) -> Result<Value, Fault> {
    let sets = config.partition(alloc, files)?;
    let mut answers = List::new(alloc);
    for set in sets.iter() {
        answers = answers.item(paths_of(alloc, set));
    }
    answers.answer()
}

// A table of empty files.
fn table(alloc: Global, case: Case<'_>) -> Result<Box<Vfs>, Fault> {
    let mut vfs = Box::new(alloc, Vfs::new(alloc, 100))?;
    for file in case.list("files") {
        let path = vfs_path(alloc, case.with(file).as_text(), true)?;
        if vfs.set_file_contents(path, Some(Vec::new(alloc))).is_err() {
            return Err(Fault::Member("files"));
        }
    }
    Ok(vfs)
}

fn paths_of(alloc: Global, set: &FileSet) -> Result<Value, Fault> {
    let mut paths = List::new(alloc);
    for id in set.iter() {
        if let Some(path) = set.path_for_file(&id) {
            paths = paths.text(path.as_str());
        }
    }
    paths.answer()
}

// The encodings of the roots, each with its set.
fn roots(alloc: Global, config: &FileSetConfig) -> Result<Value, Fault> {
    let roots = config.roots(alloc)?;
    let mut answers = List::new(alloc);
    for (bytes, set) in roots.iter() {
        let root = List::new(alloc).item(bytes_answer(alloc, bytes.as_slice()));
        answers = answers.item(root.number(*set).answer());
    }
    answers.answer()
}

// A set of files, each a number and a virtual path.
fn set_of(alloc: Global, case: Case<'_>, key: &'static str) -> Result<Box<FileSet>, Fault> {
    let mut set = Box::new(alloc, FileSet::new(alloc))?;
    for pair in case.list(key) {
        let pair = case.with(pair);
        let path = vfs_path(alloc, pair.text_at(1), true)?;
        set.insert(FileId::from_raw(pair.at(0).as_file_number()), path)?;
    }
    Ok(set)
}

// How many files a set has, and whether it equals its copy and the set of other files.
fn copied_set(alloc: Global, case: Case<'_>) -> Result<Value, Fault> {
    let set = set_of(alloc, case, "files")?;
    let other = set_of(alloc, case, "other")?;
    let copy = Box::new(alloc, set.try_clone(alloc)?)?;
    Object::new(alloc)
        .flag("copied", *copy == *set)
        .flag("other", *copy == *other)
        .number("files", set.len() as u64)
        .answer()
}

// The number of the file that a path beside a file names.
fn resolve(alloc: Global, case: Case<'_>) -> Result<Value, Fault> {
    let path = AnchoredPath {
        anchor: FileId::from_raw(case.of("anchor").as_file_number()),
        path: case.text("path"),
    };
    let set = set_of(alloc, case, "files")?;
    match set.resolve_path(alloc, path)? {
        Some(id) => Ok(Value::from(id.index())),
        None => Ok(Value::Null),
    }
}
