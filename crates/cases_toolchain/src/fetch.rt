//! Fetching metadata from recorded answers.

use crate::config::metadata_config;
use crate::tools::root_of;
use base_text::{Progress, Quiet, RecordedRunner, TryClone};
use cargo_meta::{Error, Metadata};
use cases::{
    Case, Fault, Lines, Object, absolute, line_answer, manifest_of, print_answer, runner_of,
};
use pm_cargo_fetch::FetchMetadata;
use serde_json::Value;
use std::alloc::{AllocError, Global};

/// What a call on a question for metadata gives.
pub fn answer(alloc: Global, case: Case<'_>) -> Result<Value, Fault> {
    let runner = runner_of(alloc, case)?;
    let fetch = fetch_of(alloc, case, &runner)?;
    of_fetch(alloc, case, fetch, &runner)
}

fn of_fetch(
    alloc: Global,
    case: Case<'_>,
    fetch: Box<FetchMetadata>,
    runner: &RecordedRunner,
) -> Result<Value, Fault> {
    match case.text("call") {
        "FetchMetadata::new" => line_answer(alloc, fetch.question()),
        "FetchMetadata::exec" => exec(alloc, case, fetch, runner),
        _ => Err(Fault::Call),
    }
}

// The question of a case, about a manifest from a directory.
fn fetch_of(
    alloc: Global,
    case: Case<'_>,
    runner: &RecordedRunner,
) -> Result<Box<FetchMetadata>, Fault> {
    let (manifest, dir) = (case.text("manifest"), case.text("dir"));
    let no_deps = case.flag("no_deps");
    let root = root_of(alloc, case)?;
    let config = metadata_config(alloc, case)?;
    let manifest = manifest_of(alloc, manifest)?;
    let dir = absolute(alloc, dir)?;
    let dir = dir.as_path();
    let fetch = FetchMetadata::new(alloc, &manifest, dir, &config, &root, no_deps, runner);
    fetch_boxed(alloc, fetch)
}

fn fetch_boxed(
    alloc: Global,
    fetch: Result<FetchMetadata, AllocError>,
) -> Result<Box<FetchMetadata>, Fault> {
    Ok(Box::new(alloc, fetch?)?)
}

// What is fetched, and the lines of progress; a copy fetches quietly what its original does.
fn exec(
    alloc: Global,
    case: Case<'_>,
    fetch: Box<FetchMetadata>,
    runner: &RecordedRunner,
) -> Result<Value, Fault> {
    let locked = case.flag("locked");
    let copy = Box::new(alloc, fetch.try_clone(alloc)?)?;
    let quietly = fetch_with(alloc, copy, locked, runner, &mut Quiet)?;
    let mut lines = Lines::new(alloc);
    let fetched = fetch_with(alloc, fetch, locked, runner, &mut lines);
    Object::new(alloc)
        .member("fetched", fetched)
        .member("quietly", Ok(quietly))
        .flag("whole", lines.is_whole)
        .member("lines", Ok(Value::Array(lines.kept)))
        .answer()
}

fn fetch_with<P: Progress>(
    alloc: Global,
    fetch: Box<FetchMetadata>,
    locked: bool,
    runner: &RecordedRunner,
    progress: &mut P,
) -> Result<Value, Fault> {
    let answer = Box::into_inner(fetch).exec(alloc, locked, runner, progress);
    let answer = Box::new(alloc, answer)?;
    match &*answer {
        Ok((metadata, error)) => metadata_answer(alloc, metadata, error),
        Err(error) => error_answer(alloc, error),
    }
}

// How many packages the metadata has and whether it has a graph, and the error beside it.
fn metadata_answer(
    alloc: Global,
    metadata: &Metadata,
    error: &Option<Error>,
) -> Result<Value, Fault> {
    Object::new(alloc)
        .number("packages", metadata.packages.len() as u64)
        .flag("resolved", metadata.resolve.is_some())
        .member("beside", beside_answer(alloc, error))
        .answer()
}

fn beside_answer(alloc: Global, error: &Option<Error>) -> Result<Value, Fault> {
    match error {
        Some(error) => error_answer(alloc, error),
        None => Ok(Value::Null),
    }
}

// An error, as it is printed.
fn error_answer(alloc: Global, error: &Error) -> Result<Value, Fault> {
    match error {
        Error::OutOfMemory => Err(Fault::OutOfMemory),
        _ => print_answer(alloc, error),
    }
}
