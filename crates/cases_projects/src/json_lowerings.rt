//! The graphs and the roots of projects. A project is that of the case's document on its base.

use crate::loaders::live_loader;
use crate::lowerings::{Known, graph_answer, limits_of};
use crate::values::roots_answer;
use base_text::Limits;
use cases::{Case, Fault, absolute, paths};
use pm_json::{ProjectJson, ProjectJsonData};
use pm_lower_crates::{Front, lower_json};
use pm_lower_load::json_roots;
use serde_json::Value;
use std::alloc::Global;

/// What a case asks of the graph of its project, or the roots of that.
pub fn answer(alloc: Global, case: Case<'_>) -> Result<Value, Fault> {
    match case.text("call") {
        "lower_json" => lower_case(alloc, case),
        "json_roots" => roots(alloc, case),
        _ => Err(Fault::Call),
    }
}

fn lower_case(alloc: Global, case: Case<'_>) -> Result<Value, Fault> {
    let limits = limits_of(case);
    let project = project_of(alloc, case)?;
    let mut loader = live_loader(alloc, case)?;
    let known = Known::of(alloc, false)?;
    let front = Front::empty(alloc, limits.crates);
    let graph = lower_json(alloc, front, &project, &known.facts(), &mut loader);
    graph_answer(alloc, case, &graph)
}

fn roots(alloc: Global, case: Case<'_>) -> Result<Value, Fault> {
    let project = project_of(alloc, case)?;
    let extra = paths(alloc, case, "extra")?;
    let roots = json_roots(alloc, &project, extra.as_slice())?;
    roots_answer(alloc, roots.as_slice())
}

fn project_of(alloc: Global, case: Case<'_>) -> Result<ProjectJson, Fault> {
    let base = absolute(alloc, case.text("base"))?;
    let Ok(document) = ProjectJsonData::of_value(alloc, case.member("document")) else {
        return Err(Fault::Member("document"));
    };
    match ProjectJson::new(alloc, None, base.as_path(), document, &Limits::greatest()) {
        Ok(project) => Ok(project),
        Err(_) => Err(Fault::Condition),
    }
}
