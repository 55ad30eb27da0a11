//! Commands that start the tools of a toolchain.

use base_text::{Tool, ToolRoot};
use cases::{Case, Fault, is_copied, line_answer, optional_path, usual_tools, variables};
use serde_json::Value;
use std::alloc::Global;

/// The command that starts a tool, if the copy of the toolchain is equal.
pub fn answer(alloc: Global, case: Case<'_>) -> Result<Value, Fault> {
    let tool = match case.text("call") {
        "ToolRoot::command cargo" => Tool::Cargo,
        "ToolRoot::command rustc" => Tool::Rustc,
        "ToolRoot::command rustup" => Tool::Rustup,
        _ => return Err(Fault::Call),
    };
    let root = root_of(alloc, case)?;
    if !is_copied(alloc, &*root)? {
        return Err(Fault::Condition);
    }
    let envs = variables(alloc, case, "env")?;
    line_answer(alloc, &root.command(alloc, tool, case.text("dir"), &envs)?)
}

/// The toolchain of a case, whose tools have their usual names.
pub fn root_of(alloc: Global, case: Case<'_>) -> Result<Box<ToolRoot>, Fault> {
    let root = optional_path(alloc, case, "root")?;
    let rustc = optional_path(alloc, case, "rustc")?;
    let root = ToolRoot {
        tools: usual_tools(alloc)?,
        root,
        rustc,
        toolchain_set: case.flag("toolchain_set"),
    };
    Ok(Box::new(alloc, root)?)
}
