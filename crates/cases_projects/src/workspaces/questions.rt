//! What a workspace is asked: by paths, by the names of its packages and by their features.

use base_text::AbsPath;
use cases::{Case, Fault, List, absolute, manifest_of};
use pm_cargo::{CargoWorkspace, Package};
use serde_json::Value;
use std::alloc::Global;

/// The answer to a question.
pub fn answer(
    alloc: Global,
    case: Case<'_>,
    workspace: &CargoWorkspace,
    question: &str,
) -> Result<Value, Fault> {
    match question {
        "package_flag" => package_flag(alloc, case, workspace),
        "parent_manifests" => parent_manifests(alloc, case, workspace),
        "target_by_root" => target_by_root(alloc, case, workspace),
        "workspace_features" => workspace_features(alloc, workspace),
        "is_virtual_workspace" => Ok(Value::from(workspace.is_virtual_workspace())),
        "rustc_private" => Ok(Value::from(workspace.requires_rustc_private())),
        "directories" => directories(alloc, workspace),
        "given" => answer_given(alloc, workspace),
        _ => Err(Fault::Member("ask")),
    }
}

fn package_flag(alloc: Global, case: Case<'_>, workspace: &CargoWorkspace) -> Result<Value, Fault> {
    let id = Package::from_raw(case.of("of").as_u32());
    if !workspace.has_package(id) {
        return Err(Fault::Condition);
    }
    Ok(Value::String(workspace.package_flag(alloc, &workspace[id])?))
}

fn parent_manifests(
    alloc: Global,
    case: Case<'_>,
    workspace: &CargoWorkspace,
) -> Result<Value, Fault> {
    let manifest = manifest_of(alloc, case.text("of"))?;
    let Some(found) = workspace.parent_manifests(alloc, &manifest)? else {
        return Ok(Value::Null);
    };
    let mut answers = List::new(alloc);
    for manifest in found.as_slice() {
        answers = answers.text(manifest.as_path().as_str());
    }
    answers.answer()
}

fn target_by_root(
    alloc: Global,
    case: Case<'_>,
    workspace: &CargoWorkspace,
) -> Result<Value, Fault> {
    let root = absolute(alloc, case.text("of"))?;
    match workspace.target_by_root(root.as_path()) {
        Some(target) => Ok(Value::from(target.into_raw())),
        None => Ok(Value::Null),
    }
}

fn workspace_features(alloc: Global, workspace: &CargoWorkspace) -> Result<Value, Fault> {
    let features = workspace.workspace_features(alloc)?;
    let mut answers = List::new(alloc);
    for feature in &features {
        answers = answers.text(feature.as_str());
    }
    answers.answer()
}

fn directories(alloc: Global, workspace: &CargoWorkspace) -> Result<Value, Fault> {
    let build = workspace.build_directory();
    List::new(alloc)
        .text(workspace.workspace_root().as_str())
        .text(workspace.target_directory().as_str())
        .optional(build.map(AbsPath::as_str))
        .answer()
}

// The manifest that a workspace was read with, whether it is that of the standard library, and whether its
// environment is empty.
fn answer_given(alloc: Global, workspace: &CargoWorkspace) -> Result<Value, Fault> {
    List::new(alloc)
        .text(workspace.manifest_path().as_path().as_str())
        .flag(workspace.is_sysroot())
        .flag(workspace.env().is_empty())
        .answer()
}
