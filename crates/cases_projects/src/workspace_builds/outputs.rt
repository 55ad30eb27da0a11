//! What a build's output gives packages.

use crate::values::workspace_of;
use base_text::{AbsPathBuf, ArenaMap, Output, Quiet};
use cases::{
    Case, Fault, Lines, List, Object, atoms_answer, copied_answer, env_answer, is_copied,
    optional_text, output_of, print_answer, text_answer,
};
use pm_cargo::CargoWorkspace;
use pm_tools::{BuildError, BuildScriptOutput, ProcMacroDylibPath, WorkspaceBuildScripts};
use serde_json::Value;
use std::alloc::Global;

/// The outputs of the packages of a case, the error, and the lines of progress. A build that is read quietly
/// gives the same.
pub fn answer(alloc: Global, case: Case<'_>) -> Result<Value, Fault> {
    let workspace = workspace_of(alloc, case)?;
    match case.text("call") {
        "WorkspaceBuildScripts::of_output" => read(alloc, &workspace, &output_of(alloc, case)?),
        "WorkspaceBuildScripts::of_parts" => {
            let error = optional_text(alloc, case, "error")?;
            let scripts = WorkspaceBuildScripts::of_parts(ArenaMap::new(alloc), error);
            result_answer(alloc, &workspace, &Ok(scripts))
        }
        _ => Err(Fault::Call),
    }
}

// A build that is read quietly gives the same.
fn read(alloc: Global, workspace: &CargoWorkspace, output: &Output) -> Result<Value, Fault> {
    let mut lines = Lines::new(alloc);
    let loud = WorkspaceBuildScripts::of_output(alloc, workspace, output, &mut lines);
    if WorkspaceBuildScripts::of_output(alloc, workspace, output, &mut Quiet) == loud {
        given_answer(alloc, workspace, &loud, lines)
    } else {
        Err(Fault::Condition)
    }
}

/// What a build gives, with its lines of progress, each of which was kept.
pub fn given_answer(
    alloc: Global,
    workspace: &CargoWorkspace,
    scripts: &Result<WorkspaceBuildScripts, BuildError>,
    lines: Lines,
) -> Result<Value, Fault> {
    match scripts {
        Ok(scripts) if lines.is_whole => Object::new(alloc)
            .member("outputs", outputs_answer(alloc, workspace, scripts))
            .optional("error", scripts.error())
            .member("progress", Ok(Value::Array(lines.kept)))
            .answer(),
        Ok(_) => Err(Fault::OutOfMemory),
        Err(error) => refusal_answer(alloc, error),
    }
}

/// What a build gives.
pub fn result_answer(
    alloc: Global,
    workspace: &CargoWorkspace,
    scripts: &Result<WorkspaceBuildScripts, BuildError>,
) -> Result<Value, Fault> {
    match scripts {
        Ok(scripts) => Object::new(alloc)
            .member("outputs", outputs_answer(alloc, workspace, scripts))
            .optional("error", scripts.error())
            .answer(),
        Err(error) => refusal_answer(alloc, error),
    }
}

/// An error by the name that it prints, with its text, and whether a copy equals it.
pub fn refusal_answer(alloc: Global, error: &BuildError) -> Result<Value, Fault> {
    match error {
        BuildError::Io(text) | BuildError::NotAbsolute(text) => Object::new(alloc)
            .member("error", print_answer(alloc, error))
            .text("text", text.as_str())
            .member("copied", copied_answer(alloc, error))
            .answer(),
        BuildError::OutOfMemory => Err(Fault::OutOfMemory),
    }
}

// The outputs of the packages, where a copy of what was built equals its original.
fn outputs_answer(
    alloc: Global,
    workspace: &CargoWorkspace,
    scripts: &WorkspaceBuildScripts,
) -> Result<Value, Fault> {
    if !is_copied(alloc, scripts)? {
        return Err(Fault::Condition);
    }
    let mut answers = List::new(alloc);
    for package in workspace.packages() {
        answers = answers.item(output_answer(alloc, scripts.get_output(package)));
    }
    answers.answer()
}

fn output_answer(alloc: Global, output: Option<&BuildScriptOutput>) -> Result<Value, Fault> {
    match output {
        Some(output) => Object::new(alloc)
            .member("cfgs", atoms_answer(alloc, output.cfgs.as_slice()))
            .member("envs", env_answer(alloc, &output.envs))
            .optional("out_dir", output.out_dir.as_ref().map(AbsPathBuf::as_str))
            .member("dylib", dylib_answer(alloc, &output.proc_macro_dylib_path))
            .answer(),
        None => Ok(Value::Null),
    }
}

fn dylib_answer(alloc: Global, dylib: &ProcMacroDylibPath) -> Result<Value, Fault> {
    match dylib {
        ProcMacroDylibPath::Path(path) => Object::new(alloc).text("path", path.as_str()).answer(),
        ProcMacroDylibPath::DylibNotFound => text_answer(alloc, "DylibNotFound"),
        ProcMacroDylibPath::NotProcMacro => text_answer(alloc, "NotProcMacro"),
        ProcMacroDylibPath::NotBuilt => text_answer(alloc, "NotBuilt"),
    }
}
