//! Workspaces that cases are given, and roots, refusals and names that they give.

use base_text::{Edition, Limit, Limits};
use cargo_meta::Metadata;
use cases::{Case, Fault, List, Object, manifest_of, paths_answer};
use crate_graph::Env;
use pm_cargo::{CargoWorkspace, WorkspaceError};
use pm_lower_load::PackageRoot;
use serde_json::Value;
use std::alloc::Global;

/// The workspace of a document within limits, or why there is none. It is one of a sysroot where the case says so.
pub fn read_workspace(
    alloc: Global,
    case: Case<'_>,
    document: &Value,
    limits: &Limits,
) -> Result<Result<Box<CargoWorkspace>, WorkspaceError>, Fault> {
    let manifest = manifest_of(alloc, case.text("manifest"))?;
    let Ok(meta) = Metadata::of_value(alloc, document) else {
        return Err(Fault::Member("document"));
    };
    let env = Env::new(alloc);
    match CargoWorkspace::new(alloc, meta, manifest, env, case.flag("sysroot"), limits) {
        Ok(workspace) => Ok(Ok(Box::new(alloc, workspace)?)),
        Err(error) => Ok(Err(error)),
    }
}

/// The workspace of a case's document, which has one.
pub fn workspace_of(alloc: Global, case: Case<'_>) -> Result<Box<CargoWorkspace>, Fault> {
    let limits = Limits::greatest();
    let workspace = read_workspace(alloc, case, case.member("document"), &limits)?;
    workspace.ok().ok_or(Fault::Condition)
}

/// A limit of a case, which is the greatest where it is left out.
pub fn limit_of(case: Case<'_>, key: &'static str, greatest: u32) -> u32 {
    match case.find(key) {
        Some(limit) => case.with(limit).as_u32(),
        None => greatest,
    }
}

/// The roots, each whether it is local, with what it includes and excludes.
pub fn roots_answer(alloc: Global, roots: &[PackageRoot]) -> Result<Value, Fault> {
    let mut answers = List::new(alloc);
    for root in roots {
        let root = Object::new(alloc)
            .flag("local", root.is_local)
            .member("include", paths_answer(alloc, root.include.as_slice()))
            .member("exclude", paths_answer(alloc, root.exclude.as_slice()));
        answers = answers.item(root.answer());
    }
    answers.answer()
}

/// A refusal with its text.
pub fn with_text(alloc: Global, name: &str, text: &str) -> Result<Value, Fault> {
    Object::new(alloc)
        .text("error", name)
        .text("text", text)
        .answer()
}

/// The year of an edition.
pub fn edition_name(edition: Edition) -> &'static str {
    match edition {
        Edition::Edition2015 => "2015",
        Edition::Edition2018 => "2018",
        Edition::Edition2021 => "2021",
        Edition::Edition2024 => "2024",
    }
}

/// What there is too much of.
pub fn limit_name(limit: Limit) -> &'static str {
    match limit {
        Limit::Bytes => "Bytes",
        Limit::Paths => "Paths",
        Limit::Packages => "Packages",
        Limit::Targets => "Targets",
        Limit::Crates => "Crates",
    }
}
