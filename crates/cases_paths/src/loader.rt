//! Entries of a loader's configuration, and copies of that and of what a loader reports.

use base_text::{AbsPath, AbsPathBuf, Items, TryClone};
use cases::{Case, Fault, List, absolute, paths, paths_answer, texts, texts_answer};
use serde_json::Value;
use std::alloc::{AllocError, Global};
use std::fmt;
use vfs_core_loader::{Config, Directories, Entry, LoadingProgress, Message};

/// What a call on entries gives.
pub fn answer(alloc: Global, case: Case<'_>) -> Result<Value, Fault> {
    let call = case.text("call");
    match call {
        "Config::try_clone" => Ok(Value::from(is_shown_alike(alloc, &config(alloc, case)?)?)),
        "Message::try_clone" => Ok(Value::from(is_shown_alike(alloc, &message(alloc, case)?)?)),
        _ => match case.optional_text("path") {
            Some(path) => holds(alloc, case, call, path),
            None => of_base(alloc, call, absolute(alloc, case.text("base"))?),
        },
    }
}

// Whether a copy is shown as its original is.
fn is_shown_alike<T: TryClone + fmt::Debug + Drop>(
    alloc: Global,
    value: &T,
) -> Result<bool, AllocError> {
    let copy = value.try_clone(alloc)?;
    let shown = format!(in alloc; "{copy:?}")?;
    Ok(shown == format!(in alloc; "{value:?}")?)
}

// Whether an entry, or its directories, hold a path.
fn holds(alloc: Global, case: Case<'_>, call: &str, path: &str) -> Result<Value, Fault> {
    let path = absolute(alloc, path)?;
    let entry = entry(alloc, case)?;
    Ok(Value::from(is_held(&entry, call, path.as_path())))
}

fn is_held(entry: &Entry, call: &str, path: AbsPath<'_>) -> bool {
    match (call, entry) {
        ("Entry::contains_file", entry) => entry.contains_file(path),
        ("Entry::contains_dir", entry) => entry.contains_dir(path),
        ("Directories::contains_file", Entry::Directories(directories)) => {
            directories.contains_file(path)
        }
        (_, Entry::Directories(directories)) => directories.contains_dir(path),
        (_, Entry::Files(_)) => false,
    }
}

// The entry that a call makes of a directory.
fn of_base(alloc: Global, call: &str, base: AbsPathBuf) -> Result<Value, Fault> {
    let entry = match call {
        "Entry::rs_files_recursively" => Entry::rs_files_recursively(alloc, base),
        "Entry::local_cargo_package" => Entry::local_cargo_package(alloc, base),
        "Entry::cargo_package_dependency" => Entry::cargo_package_dependency(alloc, base),
        _ => return Err(Fault::Call),
    };
    entry_answer(alloc, &entry?)
}

// An entry of files where the case has files, else one of directories.
fn entry(alloc: Global, case: Case<'_>) -> Result<Entry, Fault> {
    if case.find("files").is_some() {
        return Ok(Entry::Files(paths(alloc, case, "files")?));
    }
    Ok(Entry::Directories(Directories {
        extensions: texts(alloc, case, "extensions")?,
        include: paths(alloc, case, "include")?,
        exclude: paths(alloc, case, "exclude")?,
    }))
}

// The files of an entry, or the extensions, includes and excludes of its directories.
fn entry_answer(alloc: Global, entry: &Entry) -> Result<Value, Fault> {
    match entry {
        Entry::Files(files) => paths_answer(alloc, files.as_slice()),
        Entry::Directories(directories) => List::new(alloc)
            .item(texts_answer(alloc, directories.extensions.as_slice()))
            .item(paths_answer(alloc, directories.include.as_slice()))
            .item(paths_answer(alloc, directories.exclude.as_slice()))
            .answer(),
    }
}

// A configuration of one entry, which is watched.
fn config(alloc: Global, case: Case<'_>) -> Result<Config, Fault> {
    let watch = Items::new(vec![in alloc; 0usize]?);
    let entry = entry(alloc, case)?;
    Ok(Config {
        version: 7,
        load: Items::new(vec![in alloc; entry]?),
        watch,
    })
}

// A message about the base: that it is loaded, that it has no contents, or that it has some.
fn message(alloc: Global, case: Case<'_>) -> Result<Message, Fault> {
    let base = absolute(alloc, case.text("base"))?;
    match case.text("message") {
        "Progress" => Ok(Message::Progress {
            n_total: 2,
            n_done: LoadingProgress::Progress(1),
            dir: Some(base),
            config_version: 7,
        }),
        "Loaded" => Ok(Message::Loaded {
            files: Items::new(vec![in alloc; (base, None)]?),
        }),
        _ => {
            let bytes = Items::new(vec![in alloc; 104u8]?);
            Ok(Message::Changed {
                files: Items::new(vec![in alloc; (base, Some(bytes))]?),
            })
        }
    }
}
