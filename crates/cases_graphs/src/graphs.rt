//! Graphs of crates: what crates reach, which crates are left, and graphs that are joined to others.

use crate::closure::agrees_on_all;
use crate::edges::{counted_edges, edges, ranks, roots};
use crate::joining::join;
use crate::making::graph_of;
use base_text::TryClone;
use cases::{Case, Fault, List, Object, agreement_answer, copied_answer};
use crate_graph::{CrateBuilderId, CrateGraphBuilder};
use serde_json::Value;
use std::alloc::Global;

/// What a call on graphs gives.
pub fn answer(alloc: Global, case: Case<'_>) -> Result<Value, Fault> {
    match case.text("call") {
        "CrateGraphBuilder::add_crate_root" => roots(alloc, case),
        "CrateGraphBuilder::add_dep" => edges(alloc, case),
        "CrateGraphBuilder::add_dep_counted" => counted_edges(alloc, case),
        "CrateGraphBuilder::extend" => join(alloc, case),
        "closure" => Ok(Value::from(agrees_on_all(alloc, case)?)),
        call => of_graph(alloc, case, call),
    }
}

// What a call on one graph gives: a copy of the one that the case gives.
fn of_graph(alloc: Global, case: Case<'_>, call: &str) -> Result<Value, Fault> {
    let mut graph = graph_of(alloc, case.of("graph"))?;
    graph.shrink_to_fit();
    let mut copy = Box::new(alloc, graph.try_clone(alloc)?)?;
    match call {
        "CrateGraphBuilder::transitive_deps" => reachable_crates(alloc, case, &copy),
        "CrateGraphBuilder::is_closed" => {
            let kept = crates_to_keep(alloc, case)?;
            Ok(Value::from(copy.is_closed(kept.as_slice())))
        }
        "CrateGraphBuilder::remove_crates_except" => remove(alloc, case, &mut copy),
        "CrateData::cmp" => compared_crates(alloc, case, &copy),
        _ => Err(Fault::Call),
    }
}

fn id_of(case: Case<'_>, key: &'static str) -> CrateBuilderId {
    CrateBuilderId::from_raw(case.of(key).as_u32())
}

// Whether a crate equals its copy, and whether its data agree with those of another.
fn compared_crates(
    alloc: Global,
    case: Case<'_>,
    graph: &CrateGraphBuilder,
) -> Result<Value, Fault> {
    let (of, other) = (id_of(case, "of"), id_of(case, "other"));
    if !graph.contains(of) || !graph.contains(other) {
        return Err(Fault::Condition);
    }
    Object::new(alloc)
        .member("copied", copied_answer(alloc, &graph[of]))
        .member(
            "agree",
            agreement_answer(alloc, &graph[of].basic, &graph[other].basic),
        )
        .answer()
}

fn reachable_crates(
    alloc: Global,
    case: Case<'_>,
    graph: &CrateGraphBuilder,
) -> Result<Value, Fault> {
    let of = id_of(case, "of");
    if !graph.contains(of) {
        return Err(Fault::Condition);
    }
    let ids = graph.transitive_deps(alloc, of)?;
    let mut numbers = List::new(alloc);
    for id in &ids {
        numbers = numbers.number(id.into_raw() as u64);
    }
    numbers.answer()
}

fn crates_to_keep(alloc: Global, case: Case<'_>) -> Result<Vec<CrateBuilderId>, Fault> {
    let mut ids = Vec::new(alloc);
    for value in case.list("keep") {
        ids.push(CrateBuilderId::from_raw(case.with(value).as_u32()))?;
    }
    Ok(ids)
}

// What is left where some crates are kept: the new numbers, the dependencies of each crate, and the ranks.
fn remove(alloc: Global, case: Case<'_>, graph: &mut CrateGraphBuilder) -> Result<Value, Fault> {
    let kept = crates_to_keep(alloc, case)?;
    if !graph.is_closed(kept.as_slice()) {
        return Err(Fault::Condition);
    }
    let ids = graph.remove_crates_except(alloc, kept.as_slice())?;
    let mut numbers = List::new(alloc);
    for id in ids.iter() {
        numbers = match id {
            Some(id) => numbers.number(id.into_raw() as u64),
            None => numbers.optional(None),
        };
    }
    Object::new(alloc)
        .member("numbers", numbers.answer())
        .member("edges", edge_lists(alloc, graph))
        .member("ranks", ranks(alloc, graph))
        .answer()
}

/// The dependencies of each crate, as numbers.
pub fn edge_lists(alloc: Global, graph: &CrateGraphBuilder) -> Result<Value, Fault> {
    let mut lists = List::new(alloc);
    for id in graph.iter() {
        lists = lists.item(edge_list(alloc, graph, id));
    }
    lists.answer()
}

fn edge_list(alloc: Global, graph: &CrateGraphBuilder, id: CrateBuilderId) -> Result<Value, Fault> {
    if !graph.contains(id) {
        return Err(Fault::Condition);
    }
    let mut targets = List::new(alloc);
    for dep in graph[id].basic.dependencies.as_slice() {
        targets = targets.number(dep.crate_id.into_raw() as u64);
    }
    targets.answer()
}
