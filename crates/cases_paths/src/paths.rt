//! Absolute paths.

use base_text::{AbsPath, AbsPathBuf, PathError, RelPath, TryClone};
use cases::{
    Case, Fault, List, Object, error_answer, hash_of, optional_answer, printed_answer, text_answer,
};
use serde_json::Value;
use std::alloc::Global;
use std::cmp::Ordering;

/// What a call of an absolute path gives.
pub fn answer(alloc: Global, case: Case<'_>) -> Result<Value, Fault> {
    let (call, text) = (case.text("call"), case.text("path"));
    match AbsPathBuf::new(alloc, text) {
        Ok(path) => of_buf(alloc, case, call, path),
        Err(PathError::NotAbsolute) => error_answer(alloc, "NotAbsolute"),
        Err(PathError::OutOfMemory) => Err(Fault::OutOfMemory),
    }
}

fn of_buf(alloc: Global, case: Case<'_>, call: &str, path: AbsPathBuf) -> Result<Value, Fault> {
    match call {
        "AbsPathBuf::pop" => pop_path(alloc, path),
        "AbsPathBuf::try_clone" => copy_path(alloc, &path),
        _ => of_path(alloc, case, call, path.as_path()),
    }
}

// Whether a component was taken away, and the path that is left.
fn pop_path(alloc: Global, mut path: AbsPathBuf) -> Result<Value, Fault> {
    let popped = path.pop();
    List::new(alloc).flag(popped).text(path.as_str()).answer()
}

fn copy_path(alloc: Global, path: &AbsPathBuf) -> Result<Value, Fault> {
    let copy = path.as_path().to_path_buf(alloc)?.try_clone(alloc)?;
    compare_copy(alloc, path, &copy)
}

// Whether a copy equals the path, owned and lent, whether the two are hashed alike, and what is printed of both.
fn compare_copy(alloc: Global, path: &AbsPathBuf, copy: &AbsPathBuf) -> Result<Value, Fault> {
    let printed = format!(in alloc; "{path} {}", copy.as_path());
    Object::new(alloc)
        .flag("equal", *path == *copy)
        .flag("lent_equal", path.as_path() == copy.as_path())
        .flag("hashed_alike", hash_of(path) == hash_of(&copy.as_path()))
        .member("printed", printed_answer(alloc, printed))
        .answer()
}

fn of_path(alloc: Global, case: Case<'_>, call: &str, path: AbsPath<'_>) -> Result<Value, Fault> {
    match call {
        "AbsPathBuf::new" => text_answer(alloc, path.as_str()),
        "AbsPath::join" => printed_answer(alloc, path.join(alloc, case.text("tail"))),
        "AbsPath::normalize" => printed_answer(alloc, path.normalize(alloc)),
        "AbsPath::absolutize" => printed_answer(alloc, path.absolutize(alloc, case.text("tail"))),
        "AbsPath::parent" => parent(alloc, path),
        "AbsPath::file_name" => optional_answer(alloc, path.file_name()),
        "AbsPath::file_stem" => optional_answer(alloc, path.file_stem()),
        "AbsPath::extension" => optional_answer(alloc, path.extension()),
        _ => of_two(alloc, call, path, case.text("other")),
    }
}

fn parent(alloc: Global, path: AbsPath<'_>) -> Result<Value, Fault> {
    let parent = path.parent();
    optional_answer(alloc, parent.map(AbsPath::as_str))
}

// What a call of a path and another gives.
fn of_two(alloc: Global, call: &str, path: AbsPath<'_>, other: &str) -> Result<Value, Fault> {
    match AbsPathBuf::new(alloc, other) {
        Ok(other) => of_paths(alloc, call, path, other.as_path()),
        Err(_) => Err(Fault::Member("other")),
    }
}

fn of_paths(
    alloc: Global,
    call: &str,
    path: AbsPath<'_>,
    other: AbsPath<'_>,
) -> Result<Value, Fault> {
    match call {
        "AbsPath::starts_with" => Ok(Value::from(path.starts_with(other))),
        "AbsPath::strip_prefix" => rest(alloc, path, other),
        "AbsPath::cmp" => order_answer(alloc, path.cmp(&other)),
        _ => Err(Fault::Call),
    }
}

fn rest(alloc: Global, path: AbsPath<'_>, front: AbsPath<'_>) -> Result<Value, Fault> {
    let rest = path.strip_prefix(front);
    optional_answer(alloc, rest.map(RelPath::as_str))
}

/// The name of an order.
pub fn order_answer(alloc: Global, order: Ordering) -> Result<Value, Fault> {
    let name = match order {
        Ordering::Less => "less",
        Ordering::Equal => "equal",
        Ordering::Greater => "greater",
    };
    text_answer(alloc, name)
}
