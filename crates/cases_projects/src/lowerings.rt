//! Reads the document of a case as a workspace, and lowers it with the files that are live.

mod columns;
mod crates;

use crate::loaders::live_loader;
use crate::values::{limit_name, limit_of, with_text, workspace_of};
use base_text::{ArenaMap, CfgAtom, Items, Limits, Text};
use cases::{Case, Fault};
use crate_graph::{CrateGraphBuilder, CrateWorkspaceData};
use crate_graph_values::target::TargetLoadError;
use pm_cargo::{BuildScriptOutput, PackageTag};
use pm_cargo_config::CfgOverrides;
use pm_lower_crates::{CrateFacts, Front, LowerError, lower_cargo};
use serde_json::Value;
use std::alloc::Global;
use std::rc::Rc;

/// What a case asks of the graph of its document, or why there is none.
pub fn answer(alloc: Global, case: Case<'_>) -> Result<Value, Fault> {
    if case.text("call") != "lower_cargo" {
        return Err(Fault::Call);
    }
    graph_answer(alloc, case, &lower(alloc, case)?)
}

/// What a case asks of a graph, or why there is none.
pub fn graph_answer(
    alloc: Global,
    case: Case<'_>,
    graph: &Result<CrateGraphBuilder, LowerError>,
) -> Result<Value, Fault> {
    match graph {
        Ok(graph) => crates::answer(alloc, case, graph),
        Err(error) => refusal(alloc, error),
    }
}

fn lower(alloc: Global, case: Case<'_>) -> Result<Result<CrateGraphBuilder, LowerError>, Fault> {
    let limits = limits_of(case);
    let workspace = workspace_of(alloc, case)?;
    let mut loader = live_loader(alloc, case)?;
    let known = Known::of(alloc, workspace.is_sysroot())?;
    let front = Front::empty(alloc, limits.crates);
    Ok(lower_cargo(alloc, front, &workspace, &known.facts(), &mut loader))
}

/// The limits of a case. The limit of crates is the greatest where it is left out.
pub fn limits_of(case: Case<'_>) -> Limits {
    let mut limits = Limits::greatest();
    limits.crates = limit_of(case, "limit", limits.crates);
    limits
}

/// What is known of the crates of a case: what they share, and nothing else.
#[derive(Drop)]
pub struct Known {
    atoms: Items<CfgAtom>,
    overrides: CfgOverrides,
    outputs: ArenaMap<PackageTag, BuildScriptOutput>,
    shared: Rc<CrateWorkspaceData>,
    in_sysroot: bool,
}

impl Known {
    pub fn of(alloc: Global, in_sysroot: bool) -> Result<Known, Fault> {
        let text = Text::of_str(alloc, "bad target spec")?;
        let data = CrateWorkspaceData {
            target: Err(TargetLoadError(text)),
            toolchain: None,
        };
        Ok(Known {
            atoms: Items::empty(alloc),
            overrides: CfgOverrides::new(alloc),
            outputs: ArenaMap::new(alloc),
            shared: Rc::new(alloc, data)?,
            in_sysroot,
        })
    }

    /// The facts that a lowering takes.
    pub fn facts(&self) -> CrateFacts<'_, ArenaMap<PackageTag, BuildScriptOutput>> {
        CrateFacts {
            atoms: &self.atoms,
            overrides: &self.overrides,
            set_test: false,
            cargo: "cargo",
            outputs: &self.outputs,
            shared: &self.shared,
            in_sysroot: self.in_sysroot,
        }
    }
}

/// A refusal by its name, with a text: the bad name, or what there is too much of.
pub fn refusal(alloc: Global, error: &LowerError) -> Result<Value, Fault> {
    match error {
        LowerError::BadCrateName(name) => with_text(alloc, "BadCrateName", name.as_str()),
        LowerError::TooMany(limit) => with_text(alloc, "TooMany", limit_name(*limit)),
        LowerError::OutOfMemory => Err(Fault::OutOfMemory),
    }
}
