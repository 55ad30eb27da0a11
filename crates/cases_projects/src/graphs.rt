//! The graph of a project's crates.

use crate::loaders::live_loader;
use crate::lowerings::refusal;
use crate::projects::has_no_rustc;
use base_text::{Limits, MemoryTree, RecordedRunner};
use cases::{Case, Fault, List};
use crate_graph::{CrateBuilder, CrateGraphBuilder, ProcMacroPaths};
use pm_lower::{LowerError, ProjectWorkspace};
use pm_tools_ask::Ask;
use serde_json::Value;
use std::alloc::Global;

/// The crates of a project in order, each by the place of its root file among the live ones, with its dependencies; or
/// why there is no graph.
pub fn answer(
    alloc: Global,
    case: Case<'_>,
    limits: &Limits,
    ask: &Ask<'_, RecordedRunner, MemoryTree>,
    project: &ProjectWorkspace,
) -> Result<Value, Fault> {
    if !has_no_rustc(project) {
        return Err(Fault::Condition);
    }
    let mut loader = live_loader(alloc, case)?;
    graph_or_refusal(
        alloc,
        &project.to_crate_graph(alloc, &mut loader, limits, ask),
    )
}

fn graph_or_refusal(
    alloc: Global,
    lowered: &Result<(CrateGraphBuilder, ProcMacroPaths), LowerError>,
) -> Result<Value, Fault> {
    match lowered {
        Ok((graph, _)) => crates(alloc, graph),
        Err(error) => refusal(alloc, error),
    }
}

fn crates(alloc: Global, graph: &CrateGraphBuilder) -> Result<Value, Fault> {
    let mut answers = List::new(alloc);
    for id in graph.iter() {
        if graph.contains(id) {
            let file = graph[id].basic.root_file_id.index() as u64;
            let answer = List::new(alloc).number(file);
            answers = answers.item(answer.item(deps_answer(alloc, &graph[id])).answer());
        }
    }
    answers.answer()
}

fn deps_answer(alloc: Global, krate: &CrateBuilder) -> Result<Value, Fault> {
    let mut answers = List::new(alloc);
    for dep in krate.basic.dependencies.as_slice() {
        let answer = List::new(alloc).text(dep.name.symbol().as_str());
        answers = answers.item(answer.number(dep.crate_id.into_raw() as u64).answer());
    }
    answers.answer()
}
