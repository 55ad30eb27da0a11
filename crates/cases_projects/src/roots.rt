//! The roots of a workspace.

use crate::values::{roots_answer, workspace_of};
use base_text::{ArenaMap, Items};
use cases::{Case, Fault, absolute, copied_answer, paths};
use pm_cargo::{BuildScriptOutput, CargoWorkspace, Package, PackageTag};
use pm_lower_load::{PackageRoot, cargo_roots};
use serde_json::Value;
use std::alloc::Global;

/// What a case gives.
pub fn answer(alloc: Global, case: Case<'_>) -> Result<Value, Fault> {
    let call = case.text("call");
    let workspace = workspace_of(alloc, case)?;
    let roots = roots_of(alloc, case, &workspace)?;
    match call {
        "cargo_roots" => roots_answer(alloc, roots.as_slice()),
        "PackageRoot::try_clone" => copied_answer(alloc, &roots),
        _ => Err(Fault::Call),
    }
}

fn roots_of(
    alloc: Global,
    case: Case<'_>,
    workspace: &CargoWorkspace,
) -> Result<Items<PackageRoot>, Fault> {
    let outputs = outputs_of(alloc, case)?;
    let extra = paths(alloc, case, "extra")?;
    Ok(cargo_roots(alloc, workspace, &outputs, extra.as_slice())?)
}

/// Outputs of builds with nothing but the directories that they wrote into, each by the number of its package.
pub fn outputs_of(
    alloc: Global,
    case: Case<'_>,
) -> Result<ArenaMap<PackageTag, BuildScriptOutput>, Fault> {
    let mut outputs = ArenaMap::new(alloc);
    for pair in case.list("out_dirs") {
        let pair = case.with(pair);
        let mut output = BuildScriptOutput::new(alloc);
        output.out_dir = Some(absolute(alloc, pair.text_at(1))?);
        drop(outputs.insert(Package::from_raw(pair.at(0).as_u32()), output)?);
    }
    Ok(outputs)
}
