//! Projects on a base: their crates, and what they are asked.

use crate::json::crates::{build_answer, crate_answer};
use crate::json::documents::refusal;
use base_text::{AbsPath, Limits, ManifestPath};
use cases::{
    Case, Fault, List, Object, absolute, error_answer, is_copied, manifest_of, paths_answer,
    text_answer,
};
use json_fields::TextJson;
use pm_json::{
    Crate, CrateArrayIdx, ProjectJson, ProjectJsonData, RunnableKind, WorkspaceJsonError,
};
use serde_json::Value;
use std::alloc::Global;

/// What a project answers. It is that of the case's document on its base.
pub fn answer(alloc: Global, case: Case<'_>) -> Result<Value, Fault> {
    let base = absolute(alloc, case.text("base"))?;
    let manifest = manifest(alloc, case)?;
    match ProjectJsonData::of_value(alloc, case.member("document")) {
        Ok(document) => {
            let limits = limits_of(case);
            let project = ProjectJson::new(alloc, manifest, base.as_path(), document, &limits);
            of_outcome(alloc, case, project)
        }
        Err(error) => refusal(alloc, error),
    }
}

// The limits of a case. That of the crates is the greatest, unless the case gives it.
fn limits_of(case: Case<'_>) -> Limits {
    let mut limits = Limits::greatest();
    if case.find("limit").is_some() {
        limits.crates = case.of("limit").as_u32();
    }
    limits
}

fn manifest(alloc: Global, case: Case<'_>) -> Result<Option<ManifestPath>, Fault> {
    match case.optional_text("manifest") {
        Some(text) => Ok(Some(manifest_of(alloc, text)?)),
        None => Ok(None),
    }
}

// What a project answers, or why there is none.
fn of_outcome(
    alloc: Global,
    case: Case<'_>,
    project: Result<ProjectJson, WorkspaceJsonError>,
) -> Result<Value, Fault> {
    match project {
        Ok(mut project) => of_project(alloc, case, &mut project),
        Err(WorkspaceJsonError::TooMany(_)) => error_answer(alloc, "TooMany"),
        Err(WorkspaceJsonError::NoParent(text)) => Object::new(alloc)
            .text("no_parent", text.as_str())
            .answer(),
        Err(WorkspaceJsonError::OutOfMemory) => Err(Fault::OutOfMemory),
    }
}

fn of_project(alloc: Global, case: Case<'_>, project: &mut ProjectJson) -> Result<Value, Fault> {
    if !is_copied(alloc, &*project)? {
        return Err(Fault::Condition);
    }
    match case.text("call") {
        "ProjectJson::take_sysroot_project" => take_sysroot_project(alloc, case, project),
        call => answer_question(alloc, case, call, project),
    }
}

fn answer_question(
    alloc: Global,
    case: Case<'_>,
    call: &str,
    project: &ProjectJson,
) -> Result<Value, Fault> {
    match call {
        "ProjectJson" => paths(alloc, project),
        "ProjectJson::crates" => crates(alloc, case, project),
        "ProjectJson::index" => crate_members(alloc, case, crate_at(case, project)?),
        "Crate::iter_deps" => deps(alloc, crate_at(case, project)?),
        "ProjectJson::crate_by_root" => {
            let root = absolute(alloc, case.text("root"))?;
            root_answer(alloc, project.crate_by_root(root.as_path()))
        }
        "ProjectJson::crate_by_label" => {
            root_answer(alloc, project.crate_by_label(case.text("label")))
        }
        "ProjectJson::crate_by_buildfile" => {
            let file = absolute(alloc, case.text("file"))?;
            build_answer(alloc, project.crate_by_buildfile(file.as_path()))
        }
        "ProjectJson::runnable_template" => template(alloc, case, project),
        _ => Err(Fault::Call),
    }
}

// The paths of a project, and how much it has of each.
fn paths(alloc: Global, project: &ProjectJson) -> Result<Value, Fault> {
    let manifest = project
        .manifest()
        .map(|manifest| manifest.as_path().as_str());
    Object::new(alloc)
        .optional("sysroot", project.sysroot().map(AbsPath::as_str))
        .optional("sysroot_src", project.sysroot_src().map(AbsPath::as_str))
        .optional("manifest", manifest)
        .text("manifest_or_root", project.manifest_or_root().as_str())
        .member("root", root_paths(alloc, project))
        .number("n_crates", project.n_crates() as u64)
        .number("runnables", project.runnables().len() as u64)
        .flag("sysroot_project", project.sysroot_project.is_some())
        .answer()
}

fn root_paths(alloc: Global, project: &ProjectJson) -> Result<Value, Fault> {
    List::new(alloc)
        .text(project.path().as_str())
        .text(project.project_root().as_str())
        .answer()
}

// The named members of each crate, with its place before them.
fn crates(alloc: Global, case: Case<'_>, project: &ProjectJson) -> Result<Value, Fault> {
    let mut rows = List::new(alloc);
    for (place, krate) in project.crates() {
        let row = List::new(alloc).number(place.0 as u64);
        rows = rows.item(row.item(crate_members(alloc, case, krate)).answer());
    }
    rows.answer()
}

// The members of a crate that the case names, in its order, or all of them.
fn crate_members(alloc: Global, case: Case<'_>, krate: &Crate) -> Result<Value, Fault> {
    let whole = crate_answer(alloc, krate)?;
    if case.find("members").is_none() {
        return Ok(whole);
    }
    let mut members = List::new(alloc);
    for key in case.list("members") {
        match whole.get(case.with(key).as_text()) {
            Some(member) => members = members.item(Ok(member.clone()?)),
            None => return Err(Fault::Member("members")),
        }
    }
    members.answer()
}

fn crate_at<'p>(case: Case<'_>, project: &'p ProjectJson) -> Result<&'p Crate, Fault> {
    let place = case.number("place") as usize;
    if place < project.n_crates() {
        Ok(&project[CrateArrayIdx(place)])
    } else {
        Err(Fault::Condition)
    }
}

fn deps(alloc: Global, krate: &Crate) -> Result<Value, Fault> {
    let mut places = List::new(alloc);
    for place in krate.iter_deps() {
        places = places.number(place.0 as u64);
    }
    places.answer()
}

// The project of the standard library, after which there is none left.
fn take_sysroot_project(
    alloc: Global,
    case: Case<'_>,
    project: &mut ProjectJson,
) -> Result<Value, Fault> {
    let taken = project.take_sysroot_project();
    if project.sysroot_project.is_some() {
        return Err(Fault::Condition);
    }
    match &taken {
        Some(inner) => Object::new(alloc)
            .member("paths", paths(alloc, inner.get()))
            .member("crates", crates(alloc, case, inner.get()))
            .answer(),
        None => Ok(Value::Null),
    }
}

fn root_answer(alloc: Global, krate: Option<&Crate>) -> Result<Value, Fault> {
    match krate {
        Some(krate) => List::new(alloc)
            .text(krate.root_module.as_str())
            .item(paths_answer(alloc, krate.include.as_slice()))
            .answer(),
        None => Ok(Value::Null),
    }
}

fn template(alloc: Global, case: Case<'_>, project: &ProjectJson) -> Result<Value, Fault> {
    let Ok(kind) = RunnableKind::read_text(alloc, case.text("kind")) else {
        return Err(Fault::Member("kind"));
    };
    match project.runnable_template(kind) {
        Some(runnable) => text_answer(alloc, runnable.program.as_str()),
        None => Ok(Value::Null),
    }
}
