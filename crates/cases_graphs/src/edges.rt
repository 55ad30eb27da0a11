//! Crates and edges that a graph takes or refuses.

use crate::making::{add, depend, graph_of};
use base_text::{Counter, Ledger as _, Steps};
use cases::{Case, Fault, List, Object, print_answer};
use crate_graph::{
    AddDepError, CrateBuilderId, CrateGraphBuilder, CrateName, CyclicDependenciesError, Dependency,
};
use serde_json::Value;
use std::alloc::Global;

/// The number of each crate that is put in, or its refusal.
pub fn roots(alloc: Global, case: Case<'_>) -> Result<Value, Fault> {
    let limit = case.of("limit").as_u32();
    let mut graph = Box::new(alloc, CrateGraphBuilder::new(alloc, limit))?;
    let mut answers = List::new(alloc);
    for krate in case.list("crates") {
        answers = match add(alloc, &mut graph, case.with(krate))? {
            Ok(id) => answers.number(id.into_raw() as u64),
            Err(error) => answers.item(print_answer(alloc, &error)),
        };
    }
    answers.answer()
}

/// Null for each edge that is taken, else its refusal.
pub fn edges(alloc: Global, case: Case<'_>) -> Result<Value, Fault> {
    let mut graph = graph_of(alloc, case.of("graph"))?;
    let mut answers = List::new(alloc);
    for edge in case.list("edges") {
        let added = depend(alloc, &mut graph, case.with(edge))?;
        answers = answers.item(edge_answer(alloc, added));
    }
    answers.answer()
}

/// Of each edge the crates that the search for it visits and its answer, and the rank of each crate then.
pub fn counted_edges(alloc: Global, case: Case<'_>) -> Result<Value, Fault> {
    let mut graph = graph_of(alloc, case.of("graph"))?;
    let mut answers = List::new(alloc);
    for edge in case.list("edges") {
        answers = answers.item(counted_edge(alloc, &mut graph, case.with(edge)));
    }
    Object::new(alloc)
        .member("edges", answers.answer())
        .member("ranks", ranks(alloc, &graph))
        .answer()
}

fn counted_edge(
    alloc: Global,
    graph: &mut CrateGraphBuilder,
    edge: Case<'_>,
) -> Result<Value, Fault> {
    let from = CrateBuilderId::from_raw(edge.at(0).as_u32());
    let to = CrateBuilderId::from_raw(edge.at(1).as_u32());
    if !graph.contains(from) || !graph.contains(to) {
        return Err(Fault::Condition);
    }
    let name = CrateName::normalize_dashes(alloc, "dep")?;
    let mut steps = Steps {
        ledger: Counter::new(),
    };
    let added = graph.add_dep_counted(from, Dependency::new(name, to), &mut steps);
    Object::new(alloc)
        .number("visits", steps.ledger.count())
        .member("answer", edge_answer(alloc, added))
        .answer()
}

/// The rank of each crate.
pub fn ranks(alloc: Global, graph: &CrateGraphBuilder) -> Result<Value, Fault> {
    let mut ranks = List::new(alloc);
    for id in graph.iter() {
        if graph.contains(id) {
            ranks = ranks.item(Ok(Value::from(graph.rank(id))));
        }
    }
    ranks.answer()
}

fn edge_answer(alloc: Global, added: Result<(), AddDepError>) -> Result<Value, Fault> {
    match &added {
        Ok(()) => Ok(Value::Null),
        Err(AddDepError::OutOfMemory) => Err(Fault::OutOfMemory),
        Err(AddDepError::Cyclic(error)) => cycle_answer(alloc, error),
    }
}

// The path of a cycle, and what is printed of it.
fn cycle_answer(alloc: Global, error: &CyclicDependenciesError) -> Result<Value, Fault> {
    let mut path = List::new(alloc);
    for (id, _) in error.path() {
        path = path.number(id.into_raw() as u64);
    }
    Object::new(alloc)
        .member("path", path.answer())
        .member("printed", print_answer(alloc, error))
        .answer()
}
