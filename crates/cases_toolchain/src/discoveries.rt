//! Manifests that are discovered in a tree.

use crate::manifests::manifest_answer;
use base_text::MemoryTree;
use cases::{Case, Fault, List, Object, absolute, given_of, paths, print_answer};
use pm_tools_ask::{DiscoverError, ProjectManifest};
use serde_json::Value;
use std::alloc::Global;

/// What is discovered in a tree of files, which are empty.
pub fn answer(alloc: Global, case: Case<'_>) -> Result<Value, Fault> {
    let given = given_of(alloc, case)?;
    let ask = given.ask();
    in_tree(alloc, case, ask.tree)
}

fn in_tree(alloc: Global, case: Case<'_>, tree: &MemoryTree) -> Result<Value, Fault> {
    match case.text("call") {
        "ProjectManifest::discover" => discover(alloc, case, tree),
        "ProjectManifest::discover_single" => discover_single(alloc, case, tree),
        "ProjectManifest::discover_all" => discover_all(alloc, case, tree),
        _ => Err(Fault::Call),
    }
}

fn discover(alloc: Global, case: Case<'_>, tree: &MemoryTree) -> Result<Value, Fault> {
    let path = absolute(alloc, case.text("path"))?;
    match ProjectManifest::discover(alloc, path.as_path(), tree) {
        Ok(found) => manifests_answer(alloc, found.as_slice()),
        Err(error) => refusal(alloc, error),
    }
}

fn discover_single(alloc: Global, case: Case<'_>, tree: &MemoryTree) -> Result<Value, Fault> {
    let path = absolute(alloc, case.text("path"))?;
    match ProjectManifest::discover_single(alloc, path.as_path(), tree) {
        Ok(manifest) => manifest_answer(alloc, &manifest),
        Err(error) => refusal(alloc, error),
    }
}

fn discover_all(alloc: Global, case: Case<'_>, tree: &MemoryTree) -> Result<Value, Fault> {
    let paths = paths(alloc, case, "paths")?;
    let found = ProjectManifest::discover_all(alloc, paths.as_slice(), tree)?;
    manifests_answer(alloc, found.as_slice())
}

fn manifests_answer(alloc: Global, manifests: &[ProjectManifest]) -> Result<Value, Fault> {
    let mut answers = List::new(alloc);
    for manifest in manifests {
        answers = answers.item(manifest_answer(alloc, manifest));
    }
    answers.answer()
}

// Why nothing is discovered, by what is printed of it.
fn refusal(alloc: Global, error: DiscoverError) -> Result<Value, Fault> {
    match error {
        DiscoverError::OutOfMemory => Err(Fault::OutOfMemory),
        _ => Object::new(alloc)
            .member("error", print_answer(alloc, &error))
            .answer(),
    }
}
