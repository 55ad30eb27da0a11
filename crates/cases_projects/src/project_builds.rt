//! Builds of projects: what they give each of some projects, and what is asked of a project after builds.

use crate::counting::{CountingRunner, counted};
use crate::given::{Given, configure};
use crate::projects::{answer_question, cargo_of, load_project, project_manifest_of};
use crate::workspace_builds::build_config::command_of;
use crate::workspace_builds::outputs::{refusal_answer, result_answer};
use base_text::{AbsPathBuf, MemoryTree, Quiet, RecordedRunner, TryClone};
use cases::{Case, Fault, Lines, List, Object, absolute, output_of};
use pm_cargo_config::{CargoConfig, InvocationStrategy};
use pm_lower::ProjectWorkspace;
use pm_lower::build_scripts::BuildResult;
use pm_tools::WorkspaceBuildScripts;
use pm_tools_ask::Ask;
use serde_json::Value;
use std::alloc::Global;

/// What a case gives.
pub fn answer(alloc: Global, case: Case<'_>) -> Result<Value, Fault> {
    let mut config = Box::new(alloc, CargoConfig::new(alloc))?;
    configure(alloc, case, &mut config)?;
    config.run_build_script_command = command_of(alloc, case)?;
    if case.flag("once") {
        config.invocation_strategy = InvocationStrategy::Once;
    }
    with_config(alloc, case, &config)
}

fn with_config(alloc: Global, case: Case<'_>, config: &CargoConfig) -> Result<Value, Fault> {
    let given = Box::new(alloc, Given::of_case(alloc, case)?)?;
    let mut projects = projects_of(alloc, case, config, &given)?;
    of_projects(alloc, case, config, &given, projects.as_mut_slice())
}

// What a case asks of some projects.
fn of_projects(
    alloc: Global,
    case: Case<'_>,
    config: &CargoConfig,
    given: &Given,
    projects: &mut [ProjectWorkspace],
) -> Result<Value, Fault> {
    match case.text("call") {
        "ProjectWorkspace::run_all_build_scripts" => run_all(alloc, case, projects, config, given),
        "ProjectWorkspace::run_build_scripts" => run(alloc, projects, config, given),
        "ProjectWorkspace::set_build_scripts" => after_builds(alloc, case, projects),
        "ProjectWorkspace::eq_ignore_build_data" => equality(projects),
        _ => Err(Fault::Call),
    }
}

// The projects of the manifests of a case.
fn projects_of(
    alloc: Global,
    case: Case<'_>,
    config: &CargoConfig,
    given: &Given,
) -> Result<Vec<ProjectWorkspace>, Fault> {
    let mut projects = Vec::new(alloc);
    for manifest in case.list("manifests") {
        let manifest = case.with(manifest).as_text();
        push_project(alloc, &mut projects, manifest, config, given)?;
    }
    Ok(projects)
}

fn push_project(
    alloc: Global,
    projects: &mut Vec<ProjectWorkspace>,
    manifest: &str,
    config: &CargoConfig,
    given: &Given,
) -> Result<(), Fault> {
    let manifest = project_manifest_of(alloc, manifest)?;
    match load_project(alloc, &manifest, config, given, &mut Quiet)? {
        Ok(project) => projects.push(project)?,
        Err(_) => return Err(Fault::Condition),
    }
    Ok(())
}

// What builds give the projects, and the lines of progress.
fn run_all(
    alloc: Global,
    case: Case<'_>,
    projects: &[ProjectWorkspace],
    config: &CargoConfig,
    given: &Given,
) -> Result<Value, Fault> {
    let dir = absolute(alloc, case.text("dir"))?;
    let ask = given.ask(config);
    if case.flag("count") {
        return count_questions(alloc, projects, config, &dir, &ask);
    }
    let mut lines = Lines::new(alloc);
    let each = ProjectWorkspace::run_all_build_scripts(
        alloc, projects, config, &dir, &ask, &mut lines,
    )?;
    if !lines.is_whole {
        return Err(Fault::OutOfMemory);
    }
    Object::new(alloc)
        .member("each", each_answer(alloc, projects, each.as_slice()))
        .member("progress", Ok(Value::Array(lines.kept)))
        .answer()
}

// How many questions the builds ask.
fn count_questions(
    alloc: Global,
    projects: &[ProjectWorkspace],
    config: &CargoConfig,
    dir: &AbsPathBuf,
    ask: &Ask<'_, RecordedRunner, MemoryTree>,
) -> Result<Value, Fault> {
    let runner = CountingRunner::new(ask.runner);
    let ask = counted(ask, &runner);
    drop(ProjectWorkspace::run_all_build_scripts(alloc, projects, config, dir, &ask, &mut Quiet)?);
    Ok(Value::from(runner.count()))
}

fn each_answer(
    alloc: Global,
    projects: &[ProjectWorkspace],
    each: &[BuildResult],
) -> Result<Value, Fault> {
    let mut answers = List::new(alloc);
    for (project, scripts) in projects.iter().zip(each) {
        answers = answers.item(scripts_answer(alloc, project, scripts));
    }
    answers.answer()
}

fn scripts_answer(
    alloc: Global,
    project: &ProjectWorkspace,
    scripts: &BuildResult,
) -> Result<Value, Fault> {
    match (cargo_of(project), scripts) {
        (Some((cargo, _)), scripts) => result_answer(alloc, cargo, scripts),
        (None, Ok(_)) => Ok(Value::Null),
        (None, Err(error)) => refusal_answer(alloc, error),
    }
}

// What a build gives the project.
fn run(
    alloc: Global,
    projects: &[ProjectWorkspace],
    config: &CargoConfig,
    given: &Given,
) -> Result<Value, Fault> {
    let Some(project) = projects.first() else {
        return Err(Fault::Member("manifests"));
    };
    let scripts = project.run_build_scripts(alloc, config, &given.ask(config), &mut Quiet);
    scripts_answer(alloc, project, &scripts)
}

// What a case asks of the project after its builds.
fn after_builds(
    alloc: Global,
    case: Case<'_>,
    projects: &mut [ProjectWorkspace],
) -> Result<Value, Fault> {
    let Some(project) = projects.first_mut() else {
        return Err(Fault::Member("manifests"));
    };
    let before = Box::new(alloc, project.try_clone(alloc)?)?;
    for build in case.list("builds") {
        if let Some(refusal) = set_build(alloc, case.with(build), project)? {
            return Ok(refusal);
        }
    }
    match case.text("ask") {
        "equal" => Ok(Value::Bool(project.eq_ignore_build_data(&before))),
        question => answer_question(alloc, question, project),
    }
}

// Puts what a build gives the project into it. The refusal, where there is one.
fn set_build(
    alloc: Global,
    build: Case<'_>,
    project: &mut ProjectWorkspace,
) -> Result<Option<Value>, Fault> {
    let output = output_of(alloc, build)?;
    match project.build_scripts_of_output(alloc, &output, &mut Quiet) {
        Ok(scripts) => set_scripts(project, scripts),
        Err(error) => Ok(Some(refusal_answer(alloc, &error)?)),
    }
}

// Puts outputs into a project that has a Cargo workspace.
fn set_scripts(
    project: &mut ProjectWorkspace,
    scripts: WorkspaceBuildScripts,
) -> Result<Option<Value>, Fault> {
    if !project.has_cargo_workspace() {
        return Err(Fault::Condition);
    }
    project.set_build_scripts(scripts);
    Ok(None)
}

// Whether the first two projects are equal except for builds.
fn equality(projects: &[ProjectWorkspace]) -> Result<Value, Fault> {
    match projects {
        [first, second, ..] => Ok(Value::Bool(first.eq_ignore_build_data(second))),
        _ => Err(Fault::Member("manifests")),
    }
}
