//! The graphs and the roots of detached files, each alone or with the workspace of the case's document.

use crate::loaders::live_loader;
use crate::lowerings::{Known, graph_answer, limits_of};
use crate::roots::outputs_of;
use crate::values::{roots_answer, workspace_of};
use cases::{Case, Fault, manifest_of, paths};
use pm_cargo::CargoWorkspace;
use pm_lower_crates::{Front, lower_detached};
use pm_lower_load::detached_roots;
use serde_json::Value;
use std::alloc::Global;

/// What a case asks of the graph of its file, or the roots of that.
pub fn answer(alloc: Global, case: Case<'_>) -> Result<Value, Fault> {
    let cargo = cargo_of(alloc, case)?;
    let cargo = cargo.as_deref();
    match case.text("call") {
        "lower_detached" => lower_case(alloc, case, cargo),
        "detached_roots" => roots(alloc, case, cargo),
        _ => Err(Fault::Call),
    }
}

// The workspace that Cargo reads the file as, where the case has a document.
fn cargo_of(alloc: Global, case: Case<'_>) -> Result<Option<Box<CargoWorkspace>>, Fault> {
    if case.find("document").is_none() {
        return Ok(None);
    }
    Ok(Some(workspace_of(alloc, case)?))
}

fn lower_case(
    alloc: Global,
    case: Case<'_>,
    cargo: Option<&CargoWorkspace>,
) -> Result<Value, Fault> {
    let limits = limits_of(case);
    let file = manifest_of(alloc, case.text("manifest"))?;
    let mut loader = live_loader(alloc, case)?;
    let in_sysroot = cargo.map_or(false, |cargo| cargo.is_sysroot());
    let known = Known::of(alloc, in_sysroot)?;
    let front = Front::empty(alloc, limits.crates);
    let graph = lower_detached(alloc, front, &file, cargo, &known.facts(), &mut loader);
    graph_answer(alloc, case, &graph)
}

fn roots(alloc: Global, case: Case<'_>, cargo: Option<&CargoWorkspace>) -> Result<Value, Fault> {
    let file = manifest_of(alloc, case.text("manifest"))?;
    let (outputs, extra) = (outputs_of(alloc, case)?, paths(alloc, case, "extra")?);
    let roots = detached_roots(alloc, &file, cargo, &outputs, extra.as_slice())?;
    roots_answer(alloc, roots.as_slice())
}
