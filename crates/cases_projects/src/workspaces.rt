//! Reads the document of a case, and asks its workspace what the case asks.

mod packages;
mod questions;

use crate::values::{limit_name, limit_of, read_workspace, with_text};
use base_text::Limits;
use cases::{Case, Fault, copied_answer};
use pm_cargo::{CargoWorkspace, WorkspaceError};
use serde_json::Value;
use std::alloc::Global;

/// What a case asks of its document.
pub fn answer(alloc: Global, case: Case<'_>) -> Result<Value, Fault> {
    if case.text("call") != "CargoWorkspace::new" {
        return Err(Fault::Call);
    }
    match &read_workspace(alloc, case, case.member("document"), &limits_of(case))? {
        Ok(workspace) => answer_question(alloc, case, workspace),
        Err(error) => refusal(alloc, error),
    }
}

// What a case asks of the workspace that was read.
fn answer_question(
    alloc: Global,
    case: Case<'_>,
    workspace: &CargoWorkspace,
) -> Result<Value, Fault> {
    let question = case.text("ask");
    match question {
        "refusal" => Ok(Value::Null),
        "equal" => is_equal(alloc, case, workspace),
        "copy" => copied_answer(alloc, workspace),
        "targets" => packages::targets(alloc, workspace),
        "names"
        | "local"
        | "members"
        | "editions"
        | "dependencies"
        | "active_features"
        | "all_member_deps" => packages::answer(alloc, workspace, question),
        _ => questions::answer(alloc, case, workspace, question),
    }
}

// Whether a workspace is equal to that of the other document.
fn is_equal(alloc: Global, case: Case<'_>, workspace: &CargoWorkspace) -> Result<Value, Fault> {
    match &read_workspace(alloc, case, case.member("other"), &Limits::greatest())? {
        Ok(other) => Ok(Value::from(*workspace == **other)),
        Err(error) => refusal(alloc, error),
    }
}

// The limits of a case. One that is left out is the greatest.
fn limits_of(case: Case<'_>) -> Limits {
    let mut limits = Limits::greatest();
    if case.find("limits").is_some() {
        limits.packages = limit_of(case.of("limits"), "packages", limits.packages);
        limits.targets = limit_of(case.of("limits"), "targets", limits.targets);
    }
    limits
}

// A refusal by its name, with its text or with what there is too much of.
fn refusal(alloc: Global, error: &WorkspaceError) -> Result<Value, Fault> {
    match error {
        WorkspaceError::NotAbsolute(text) => with_text(alloc, "NotAbsolute", text.as_str()),
        WorkspaceError::NoParent(text) => with_text(alloc, "NoParent", text.as_str()),
        WorkspaceError::UnknownPackage(id) => with_text(alloc, "UnknownPackage", id.as_str()),
        WorkspaceError::TooMany(limit) => with_text(alloc, "TooMany", limit_name(*limit)),
        WorkspaceError::OutOfMemory => Err(Fault::OutOfMemory),
    }
}
