//! Graphs that are joined to others, with the libraries of their procedural macros.

use crate::edges::ranks;
use crate::graphs::edge_lists;
use crate::making::graph_of;
use cases::{Case, Fault, List, Object, print_answer};
use crate_graph::{CrateBuilderId, CrateGraphBuilder, ProcMacroLoadingError, ProcMacroPaths};
use serde_json::Value;
use std::alloc::Global;
use std::collections::BTreeMap;

/// The new number of each crate of the other graph, the dependencies and the rank of each crate then, and the
/// libraries under their new numbers.
pub fn join(alloc: Global, case: Case<'_>) -> Result<Value, Fault> {
    let mut macros = libraries(alloc, case)?;
    let mut graph = graph_of(alloc, case.of("graph"))?;
    Object::new(alloc)
        .member("numbers", extend(alloc, case, &mut graph, &mut macros))
        .member("edges", edge_lists(alloc, &graph))
        .member("ranks", ranks(alloc, &graph))
        .member("macros", macros_answer(alloc, &macros))
        .answer()
}

// The libraries of procedural macros, each a crate's number and whether it is disabled, else it is not yet built.
fn libraries(alloc: Global, case: Case<'_>) -> Result<ProcMacroPaths, Fault> {
    let mut macros = BTreeMap::new(alloc);
    for pair in case.list("macros") {
        let pair = case.with(pair);
        let error = match pair.text_at(1) {
            "Disabled" => ProcMacroLoadingError::Disabled,
            _ => ProcMacroLoadingError::NotYetBuilt,
        };
        drop(macros.insert(CrateBuilderId::from_raw(pair.at(0).as_u32()), Err(error))?);
    }
    Ok(macros)
}

fn extend(
    alloc: Global,
    case: Case<'_>,
    graph: &mut CrateGraphBuilder,
    macros: &mut ProcMacroPaths,
) -> Result<Value, Fault> {
    let other = graph_of(alloc, case.of("other"))?;
    if !macros.keys().all(|id| other.contains(*id)) {
        return Err(Fault::Condition);
    }
    match graph.extend(alloc, Box::into_inner(other), macros) {
        Ok(ids) => new_numbers(alloc, &ids),
        Err(error) => print_answer(alloc, &error),
    }
}

fn new_numbers(
    alloc: Global,
    ids: &BTreeMap<CrateBuilderId, CrateBuilderId>,
) -> Result<Value, Fault> {
    let mut numbers = List::new(alloc);
    for (_, new) in ids {
        numbers = numbers.number(new.into_raw() as u64);
    }
    numbers.answer()
}

fn macros_answer(alloc: Global, macros: &ProcMacroPaths) -> Result<Value, Fault> {
    let mut answers = List::new(alloc);
    for (id, library) in macros {
        if let Err(error) = library {
            let answer = List::new(alloc).number(id.into_raw() as u64);
            answers = answers.item(answer.item(print_answer(alloc, error)).answer());
        }
    }
    answers.answer()
}
