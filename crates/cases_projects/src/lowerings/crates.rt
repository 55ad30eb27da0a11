//! The crates of a graph: what each depends on, and what is known of it.

use crate::lowerings::columns;
use cases::{Case, Fault, List, text_answer};
use crate_graph::{CrateBuilder, CrateGraphBuilder, DependencyBuilder};
use serde_json::Value;
use std::alloc::Global;

/// What a case asks of each crate of a graph, in order.
pub fn answer(alloc: Global, case: Case<'_>, graph: &CrateGraphBuilder) -> Result<Value, Fault> {
    let question = case.text("ask");
    let mut answers = List::new(alloc);
    for id in graph.iter() {
        if graph.contains(id) {
            answers = answers.item(of_crate(alloc, case, &graph[id], question));
        }
    }
    answers.answer()
}

fn of_crate(
    alloc: Global,
    case: Case<'_>,
    krate: &CrateBuilder,
    question: &str,
) -> Result<Value, Fault> {
    match question {
        "roots" => root(alloc, case, krate),
        "edges" => edges(alloc, case, krate),
        "columns" => columns::answer(alloc, krate),
        "attributes" => attributes(alloc, krate),
        _ => Err(Fault::Member("ask")),
    }
}

// The path of the file that a crate begins in.
fn root(alloc: Global, case: Case<'_>, krate: &CrateBuilder) -> Result<Value, Fault> {
    let place = krate.basic.root_file_id.index() as usize;
    text_answer(alloc, case.of("live").text_at(place))
}

// The root of a crate, with its dependencies in order.
fn edges(alloc: Global, case: Case<'_>, krate: &CrateBuilder) -> Result<Value, Fault> {
    List::new(alloc)
        .item(root(alloc, case, krate))
        .item(dependencies(alloc, krate))
        .answer()
}

fn dependencies(alloc: Global, krate: &CrateBuilder) -> Result<Value, Fault> {
    let mut answers = List::new(alloc);
    for dep in krate.basic.dependencies.as_slice() {
        answers = answers.item(dependency(alloc, dep));
    }
    answers.answer()
}

// The name of a dependency with the number of its crate, and its marks where they are not the usual ones.
fn dependency(alloc: Global, dep: &DependencyBuilder) -> Result<Value, Fault> {
    let answer = List::new(alloc)
        .text(dep.name.symbol().as_str())
        .number(dep.crate_id.into_raw() as u64);
    let (is_prelude, is_sysroot) = (dep.is_prelude(), dep.is_sysroot());
    if is_prelude && !is_sysroot {
        answer.answer()
    } else {
        answer.flag(is_prelude).flag(is_sysroot).answer()
    }
}

fn attributes(alloc: Global, krate: &CrateBuilder) -> Result<Value, Fault> {
    let mut answers = List::new(alloc);
    for attribute in krate.basic.crate_attrs.as_slice() {
        answers = answers.text(attribute.as_str());
    }
    answers.answer()
}
