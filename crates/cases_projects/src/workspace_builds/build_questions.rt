//! The question by which a workspace is built.

use crate::values::workspace_of;
use crate::workspace_builds::build_config::{command_of, config_of};
use cases::{Case, Fault, Given, absolute, given_of, line_answer, optional_version};
use pm_cargo::CargoWorkspace;
use pm_cargo_config::CargoConfig;
use pm_tools::{build_question, configured_question};
use serde_json::Value;
use std::alloc::Global;

/// What a call that makes a question gives.
pub fn answer(alloc: Global, case: Case<'_>) -> Result<Value, Fault> {
    let call = case.text("call");
    let given = given_of(alloc, case)?;
    match call {
        "build_question" => of_workspace(alloc, case, &given),
        "configured_question" => of_command(alloc, case, &given),
        _ => Err(Fault::Call),
    }
}

fn of_workspace(alloc: Global, case: Case<'_>, given: &Given) -> Result<Value, Fault> {
    let workspace = workspace_of(alloc, case)?;
    let config = config_of(alloc, case)?;
    of_config(alloc, case, given, &workspace, &config)
}

fn of_config(
    alloc: Global,
    case: Case<'_>,
    given: &Given,
    workspace: &CargoWorkspace,
    config: &CargoConfig,
) -> Result<Value, Fault> {
    let version = optional_version(alloc, case)?;
    let (sysroot, version) = (&given.sysroot, version.as_ref());
    let line = build_question(alloc, config, workspace, sysroot, version, &given.ask())?;
    line_answer(alloc, &line)
}

// The configured command in a directory, or null where there is none.
fn of_command(alloc: Global, case: Case<'_>, given: &Given) -> Result<Value, Fault> {
    let dir = absolute(alloc, case.text("dir"))?;
    let command = command_of(alloc, case)?;
    match &configured_question(alloc, &command, dir.as_path(), &given.ask())? {
        Some(line) => line_answer(alloc, line),
        None => Ok(Value::Null),
    }
}
