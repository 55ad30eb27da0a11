//! Builds of workspaces: the question, and what its recorded answer gives.

use crate::values::workspace_of;
use crate::workspace_builds::build_config::config_of;
use crate::workspace_builds::outputs::given_answer;
use cases::{Case, Fault, Given, Lines, given_of, optional_version};
use pm_cargo::CargoWorkspace;
use pm_cargo_config::CargoConfig;
use pm_tools::WorkspaceBuildScripts;
use serde_json::Value;
use std::alloc::Global;

/// The outputs of the packages of a case, the error, and the lines of progress.
pub fn answer(alloc: Global, case: Case<'_>) -> Result<Value, Fault> {
    if case.text("call") != "WorkspaceBuildScripts::run_for_workspace" {
        return Err(Fault::Call);
    }
    let workspace = workspace_of(alloc, case)?;
    let given = given_of(alloc, case)?;
    let config = config_of(alloc, case)?;
    run(alloc, case, &workspace, &given, &config)
}

fn run(
    alloc: Global,
    case: Case<'_>,
    workspace: &CargoWorkspace,
    given: &Given,
    config: &CargoConfig,
) -> Result<Value, Fault> {
    let version = optional_version(alloc, case)?;
    let mut lines = Lines::new(alloc);
    let scripts = WorkspaceBuildScripts::run_for_workspace(
        alloc,
        config,
        workspace,
        &given.sysroot,
        version.as_ref(),
        &given.ask(),
        &mut lines,
    );
    given_answer(alloc, workspace, &scripts, lines)
}
