//! Loads the project of a case, and asks it what the case asks.

ghost use Rattle.std.specs.Prelude.{IsTrue};
ghost use Rattle.pm_lower.specs.ToRoots.{HasNoRustc};

use crate::counting::{CountingRunner, counted};
use crate::given::{Given, configure};
use crate::graphs;
use crate::values::{limit_name, roots_answer, with_text};
use base_text::{MemoryTree, Progress, Quiet, RecordedRunner, Text, Version};
use cases::{
    Case, Fault, Lines, List, absolute, atoms_answer, env_answer, error_answer, optional_answer,
    paths_answer, text_answer,
};
use crate_graph_values::target::{Arch, TargetLoadResult};
use pm_cargo::CargoWorkspace;
use pm_cargo_config::CargoConfig;
use pm_lower::{LoadError, ProjectWorkspace, ProjectWorkspaceKind};
use pm_tools_ask::{Ask, ProjectManifest};
use serde_json::Value;
use std::alloc::Global;

/// What a case gives.
pub fn answer(alloc: Global, case: Case<'_>) -> Result<Value, Fault> {
    if case.text("call") != "ProjectWorkspace::load" {
        return Err(Fault::Call);
    }
    let manifest = project_manifest_of(alloc, case.text("manifest"))?;
    with_manifest(alloc, case, &manifest)
}

/// The manifest at a path, of the kind that its name says.
pub fn project_manifest_of(alloc: Global, text: &str) -> Result<ProjectManifest, Fault> {
    match ProjectManifest::from_manifest_file(absolute(alloc, text)?) {
        Ok(manifest) => Ok(manifest),
        Err(_) => Err(Fault::Condition),
    }
}

fn with_manifest(
    alloc: Global,
    case: Case<'_>,
    manifest: &ProjectManifest,
) -> Result<Value, Fault> {
    let mut config = Box::new(alloc, CargoConfig::new(alloc))?;
    configure(alloc, case, &mut config)?;
    with_config(alloc, case, manifest, &config)
}

fn with_config(
    alloc: Global,
    case: Case<'_>,
    manifest: &ProjectManifest,
    config: &CargoConfig,
) -> Result<Value, Fault> {
    let given = Given::of_case(alloc, case)?;
    load(alloc, case, manifest, config, &given)
}

// What a case asks of the project that is loaded, or why none is.
fn load(
    alloc: Global,
    case: Case<'_>,
    manifest: &ProjectManifest,
    config: &CargoConfig,
    given: &Given,
) -> Result<Value, Fault> {
    if let Some("questions") = case.optional_text("ask") {
        return count_questions(alloc, manifest, config, given);
    }
    let mut lines = Lines::new(alloc);
    let project = load_project(alloc, manifest, config, given, &mut lines)?;
    let project = Box::new(alloc, project)?;
    project_or_refusal(alloc, case, given, &given.ask(config), &project, lines)
}

// How many questions the load asks, whatever it gives.
fn count_questions(
    alloc: Global,
    manifest: &ProjectManifest,
    config: &CargoConfig,
    given: &Given,
) -> Result<Value, Fault> {
    if config.sysroot.is_some() || config.rustc_source.is_some() {
        return Err(Fault::Condition);
    }
    let ask = given.ask(config);
    let runner = CountingRunner::new(ask.runner);
    let ask = counted(&ask, &runner);
    drop(ProjectWorkspace::load(alloc, manifest, config, &given.limits, &ask, &mut Quiet));
    Ok(Value::from(runner.count()))
}

/// The project of a manifest, or why none is loaded.
pub fn load_project<P: Progress>(
    alloc: Global,
    manifest: &ProjectManifest,
    config: &CargoConfig,
    given: &Given,
    progress: &mut P,
) -> Result<Result<ProjectWorkspace, LoadError>, Fault> {
    if config.sysroot.is_some() || config.rustc_source.is_some() {
        return Err(Fault::Condition);
    }
    let ask = given.ask(config);
    Ok(ProjectWorkspace::load(alloc, manifest, config, &given.limits, &ask, progress))
}

fn project_or_refusal(
    alloc: Global,
    case: Case<'_>,
    given: &Given,
    ask: &Ask<'_, RecordedRunner, MemoryTree>,
    project: &Result<ProjectWorkspace, LoadError>,
    lines: Lines,
) -> Result<Value, Fault> {
    match project {
        Ok(project) => of_project(alloc, case, given, ask, project, lines),
        Err(error) => refusal(alloc, error),
    }
}

fn of_project(
    alloc: Global,
    case: Case<'_>,
    given: &Given,
    ask: &Ask<'_, RecordedRunner, MemoryTree>,
    project: &ProjectWorkspace,
    lines: Lines,
) -> Result<Value, Fault> {
    match case.optional_text("ask") {
        Some("graph") => graphs::answer(alloc, case, &given.limits, ask, project),
        Some("progress") if lines.is_whole => Ok(Value::Array(lines.kept)),
        Some(question) => answer_question(alloc, question, project),
        None => Err(Fault::Member("ask")),
    }
}

/// What a case asks of the project that was loaded.
pub fn answer_question(
    alloc: Global,
    question: &str,
    project: &ProjectWorkspace,
) -> Result<Value, Fault> {
    match question {
        "summary" => summary(alloc, project),
        "names" => names(alloc, project),
        "roots" => roots(alloc, project),
        "error" | "env" => asked_of_cargo(alloc, question, project),
        "cfgs" => atoms_answer(alloc, project.rustc_cfg.as_slice()),
        "toolchain" => version_answer(alloc, project.toolchain.as_ref()),
        "target" => target_answer(alloc, &project.target),
        "buildfiles" => paths_answer(alloc, project.buildfiles(alloc)?.as_slice()),
        _ => Err(Fault::Member("ask")),
    }
}

// What a case asks of a project's Cargo workspace, or null where there is none.
fn asked_of_cargo(
    alloc: Global,
    question: &str,
    project: &ProjectWorkspace,
) -> Result<Value, Fault> {
    match (question, cargo_of(project)) {
        ("error", Some((_, error))) => { optional_answer(alloc, error.as_ref().map(Text::as_str)) }
        (_, Some((cargo, _))) => env_answer(alloc, cargo.env()),
        (_, None) => Ok(Value::Null),
    }
}

/// The Cargo workspace of a project, where it has one, and the error beside it.
pub fn cargo_of(project: &ProjectWorkspace) -> Option<(&CargoWorkspace, &Option<Text>)> {
    match &project.kind {
        ProjectWorkspaceKind::Cargo { cargo, error, .. } => Some((cargo, error)),
        ProjectWorkspaceKind::Json(_) => None,
        ProjectWorkspaceKind::DetachedFile { cargo, .. } => {
            let (cargo, _, error) = cargo.as_ref()?;
            Some((cargo, error))
        }
    }
}

/// Whether no crates of the compiler were read beside the project.
pub fn has_no_rustc(project: &ProjectWorkspace) -> bool
    ensures { IsTrue result → HasNoRustc project.now }
{
    match &project.kind {
        ProjectWorkspaceKind::Cargo { rustc, .. } => rustc.is_err(),
        ProjectWorkspaceKind::Json(_) | ProjectWorkspaceKind::DetachedFile { .. } => true,
    }
}

fn version_answer(alloc: Global, version: Option<&Version>) -> Result<Value, Fault> {
    match version {
        Some(version) => Ok(Value::String(version.as_version().to_string(alloc)?)),
        None => Ok(Value::Null),
    }
}

// The roots of a project beside which no crates of the compiler were read.
fn roots(alloc: Global, project: &ProjectWorkspace) -> Result<Value, Fault> {
    if !has_no_rustc(project) {
        return Err(Fault::Condition);
    }
    match project.to_roots(alloc) {
        Ok(roots) => roots_answer(alloc, roots.as_slice()),
        Err(_) => Err(Fault::OutOfMemory),
    }
}

// How many packages there are, the manifest, the root, and what is known without a question.
fn summary(alloc: Global, project: &ProjectWorkspace) -> Result<Value, Fault> {
    List::new(alloc)
        .number(project.n_packages() as u64)
        .text(project.manifest_or_root().as_str())
        .text(project.workspace_root().as_str())
        .flag(project.manifest().is_some())
        .flag(project.is_json())
        .flag(project.set_test)
        .answer()
}

// The names of the packages, or the root modules of the crates of a JSON project; null for a detached file alone.
fn names(alloc: Global, project: &ProjectWorkspace) -> Result<Value, Fault> {
    let mut answers = List::new(alloc);
    if let ProjectWorkspaceKind::Json(project) = &project.kind {
        for krate in project.crates.as_slice() {
            answers = answers.text(krate.root_module.as_str());
        }
        return answers.answer();
    }
    match cargo_of(project) {
        Some((cargo, _)) => package_names(alloc, cargo),
        None => Ok(Value::Null),
    }
}

fn package_names(alloc: Global, cargo: &CargoWorkspace) -> Result<Value, Fault> {
    let mut answers = List::new(alloc);
    for id in cargo.packages() {
        if cargo.has_package(id) {
            answers = answers.text(cargo[id].name.as_str());
        }
    }
    answers.answer()
}

fn target_answer(alloc: Global, target: &TargetLoadResult) -> Result<Value, Fault> {
    match target {
        Ok(machine) => {
            let arch = match machine.arch {
                Arch::Wasm32 => "wasm32",
                Arch::Wasm64 => "wasm64",
                Arch::Other => "other",
            };
            List::new(alloc)
                .text(machine.data_layout.as_str())
                .text(arch)
                .answer()
        }
        Err(error) => text_answer(alloc, error.0.as_str()),
    }
}

// A refusal by its name, with its text or with what there is too much of.
fn refusal(alloc: Global, error: &LoadError) -> Result<Value, Fault> {
    match error {
        LoadError::NoSuchFile(path) => with_text(alloc, "NoSuchFile", path.as_str()),
        LoadError::CargoMetadata { stderr } => with_text(alloc, "CargoMetadata", stderr.as_str()),
        LoadError::Io { line } => with_text(alloc, "Io", line.as_str()),
        LoadError::Json { field } => with_text(alloc, "Json", field.as_str()),
        LoadError::NoJson => error_answer(alloc, "NoJson"),
        LoadError::NotAbsolute(text) => with_text(alloc, "NotAbsolute", text.as_str()),
        LoadError::NoParent(text) => with_text(alloc, "NoParent", text.as_str()),
        LoadError::UnknownPackage(id) => with_text(alloc, "UnknownPackage", id.as_str()),
        LoadError::TooMany(limit) => with_text(alloc, "TooMany", limit_name(*limit)),
        LoadError::OutOfMemory => Err(Fault::OutOfMemory),
    }
}
