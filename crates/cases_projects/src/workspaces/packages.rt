//! What the packages and targets of a workspace are.

use crate::values::edition_name;
use cases::{Fault, List, text_answer, texts_answer};
use crate_graph::TargetKind;
use pm_cargo::{CargoWorkspace, DepKind, PackageData, Target};
use serde_json::Value;
use std::alloc::Global;

/// The answer to a question that is asked of each package.
pub fn answer(alloc: Global, workspace: &CargoWorkspace, question: &str) -> Result<Value, Fault> {
    let mut answers = List::new(alloc);
    for id in workspace.packages() {
        if workspace.has_package(id) {
            answers = answers.item(of_package(alloc, &workspace[id], question));
        }
    }
    answers.answer()
}

fn of_package(alloc: Global, package: &PackageData, question: &str) -> Result<Value, Fault> {
    match question {
        "names" => text_answer(alloc, package.name.as_str()),
        "local" => Ok(Value::from(package.is_local)),
        "members" => Ok(Value::from(package.is_member)),
        "editions" => text_answer(alloc, edition_name(package.edition)),
        "active_features" => texts_answer(alloc, package.active_features.as_slice()),
        "dependencies" => dependencies(alloc, package),
        "all_member_deps" => all_member_deps(alloc, package),
        _ => Err(Fault::Member("ask")),
    }
}

// The dependencies of a package, each a place, a name and a kind.
fn dependencies(alloc: Global, package: &PackageData) -> Result<Value, Fault> {
    let mut answers = List::new(alloc);
    for dependency in package.dependencies.as_slice() {
        let answer = List::new(alloc)
            .number(dependency.pkg.into_raw() as u64)
            .text(dependency.name.as_str())
            .text(kind_name(dependency.kind));
        answers = answers.item(answer.answer());
    }
    answers.answer()
}

fn kind_name(kind: DepKind) -> &'static str {
    match kind {
        DepKind::Normal => "normal",
        DepKind::Dev => "dev",
        DepKind::Build => "build",
    }
}

// The places of the members that a package depends on, or null where it is no member.
fn all_member_deps(alloc: Global, package: &PackageData) -> Result<Value, Fault> {
    let Some(ids) = &package.all_member_deps else {
        return Ok(Value::Null);
    };
    let mut answers = List::new(alloc);
    for id in ids.get().as_slice() {
        answers = answers.number(id.into_raw() as u64);
    }
    answers.answer()
}

/// The targets of all packages in their order.
pub fn targets(alloc: Global, workspace: &CargoWorkspace) -> Result<Value, Fault> {
    let mut answers = List::new(alloc);
    for id in workspace.packages() {
        if workspace.has_package(id) {
            answers = with_targets(alloc, workspace, answers, &workspace[id]);
        }
    }
    answers.answer()
}

// Appends the targets of a package.
fn with_targets(
    alloc: Global,
    workspace: &CargoWorkspace,
    answers: List,
    package: &PackageData,
) -> List {
    let mut answers = answers;
    for target in package.targets.as_slice() {
        answers = answers.item(target_answer(alloc, workspace, *target));
    }
    answers
}

// A target: the place of its package, its name, root, kind and required features.
fn target_answer(
    alloc: Global,
    workspace: &CargoWorkspace,
    target: Target,
) -> Result<Value, Fault> {
    if !workspace.has_target(target) {
        return Err(Fault::Condition);
    }
    let data = &workspace[target];
    List::new(alloc)
        .number(data.package.into_raw() as u64)
        .text(data.name.as_str())
        .text(data.root.as_str())
        .text(target_kind_name(data.kind))
        .item(texts_answer(alloc, data.required_features.as_slice()))
        .answer()
}

fn target_kind_name(kind: TargetKind) -> &'static str {
    match kind {
        TargetKind::Bin => "bin",
        TargetKind::Lib {
            is_proc_macro: true,
        } => "proc-macro",
        TargetKind::Lib {
            is_proc_macro: false,
        } => "lib",
        TargetKind::Example => "example",
        TargetKind::Test => "test",
        TargetKind::Bench => "bench",
        TargetKind::BuildScript => "build-script",
        TargetKind::Other => "other",
    }
}
