//! Crates of a graph become crates of a database.

ghost use Rattle.std.specs.Prelude.{◌≡◌, ◌<◌, ◌^◌, IfOk, OnOk, length, slice_get};
ghost use Rattle.std.specs.BTreeMap as tree;
ghost use Rattle.std.specs.List.{All};
ghost use Rattle.base_text_paths.specs.Arena.{number_of};
ghost use Rattle.graph_base.specs.Finish.{IsBehindTargets};
ghost use Rattle.crate_graph.specs.Graph.{IsWellMadeGraph, edges, target_of};
ghost use Rattle.crate_graph.specs.Extend.{Id};
ghost use Rattle.input_db.specs.Identity.{IsTable, data_of, named_in, number_in};
ghost use Rattle.input_db.specs.FinishSteps.{IsSetInSteps, LeavesWhatWasSet, finish_crate, none_finished, progress_after, with_new_list};
ghost use Rattle.input_db.specs.SetInDb.{IsSetInDb};

mod finished;
mod renamed;

use crate::crate_input::Crate;
use crate::lowering::finished::FinishedCrates;
use crate::lowering::renamed::{input_of, unique_of};
use crate::source_database::SourceDatabase;
use crate_graph::CrateGraphBuilder;
use crate_graph_values::{CrateBuilder, CrateBuilderId};
use input_db_files::Durability;
use std::alloc::{AllocError, Global};
use std::collections::BTreeMap;

/// The crate of a database that each crate of a graph is.
pub type CratesIdMap = BTreeMap<CrateBuilderId, Crate>;

/// The crates of a database that those of a graph are, by their numbers in the graph, and in the order of these.
#[derive(Drop)]
pub struct SetCrates {
    pub ids: CratesIdMap,
    pub numbers: Vec<Crate>,
}

/// Sets the crates of a graph in a database. They are finished depth first in the order of their numbers,
/// each after its dependencies. The first of a root file is identified by that file alone, and each further
/// one by its data, with dependencies as the database numbers them, and its conditional compilation. Crates
/// of one identity are one crate, which holds what was finished last, with a durability of `Medium`. The
/// list of crates is stored where it differs. When out of memory the database is safe, and no more is said.
pub fn set_in_db<D: SourceDatabase>(
    alloc: Global,
    graph: CrateGraphBuilder,
    db: &mut D,
) -> Result<CratesIdMap, AllocError>
    ensures set { IfOk result (IsSetInDb ⟦<CrateBuilderId as Ord>⟧.cmp graph.crates
        (D.seen db.old) (D.seen db.new)) }
    ensures steps { IfOk result (IsSetInSteps ⟦<CrateBuilderId as Ord>⟧.cmp graph.crates
        (D.seen db.old) (D.seen db.new)) }
    ensures again { OnOk result (LeavesWhatWasSet ⟦<CrateBuilderId as Ord>⟧.cmp graph.crates
        (D.seen db.old) (D.seen db.new)) }
{
    let made = set_graph_in_db(alloc, &graph, db)?;
    Ok(made.ids)
}

/// Sets the crates of a graph that is kept, as `set_in_db` does.
pub fn set_graph_in_db<D: SourceDatabase>(
    alloc: Global,
    graph: &CrateGraphBuilder,
    db: &mut D,
) -> Result<SetCrates, AllocError>
    ensures steps { IfOk result (λ made. (steps : IsSetInSteps ⟦<CrateBuilderId as Ord>⟧.cmp
        graph.now.crates (D.seen db.old) (D.seen db.new) made.ids)
        × (steps.set.numbers ≡ made.numbers.items)) }
    ensures again { OnOk result (LeavesWhatWasSet ⟦<CrateBuilderId as Ord>⟧.cmp graph.now.crates
        (D.seen db.old) (D.seen db.new)) }
{
    let unfinished = FinishedCrates::new(alloc, graph.len())?;
    let order = graph_base::finish_order(alloc, graph)?;
    let finished = finish_all(alloc, graph, &order, unfinished, db)?;
    let ids = ids_of_numbers(alloc, finished.numbers())?;
    let given = finished.given_crates(alloc)?;
    store_list(db, given);
    Ok(SetCrates {
        ids,
        numbers: finished.into_numbers(),
    })
}

// Finishes one crate of a graph. Those that it depends on are finished.
fn finish<D: SourceDatabase>(
    alloc: Global,
    krate: &CrateBuilder,
    number: u32,
    db: &mut D,
    finished: &mut FinishedCrates,
) -> Result<(), AllocError>
    requires number { number < length finished.old.numbers }
    requires targets { All (λ dep. target_of dep < length finished.old.numbers)
        krate.now.basic.dependencies }
    requires known { All (λ named. named < length (D.seen db.old).crates)
        (named_in (data_of (number_in finished.old.numbers) krate.now)) }
    ensures { OnOk result (record { db = D.seen db.new; finished = finished.new }
        ≡ finish_crate (record { db = D.seen db.old; finished = finished.old }) number krate.now) }
{
    let file = krate.basic.root_file_id;
    let input = input_of(alloc, finished.numbers(), krate)?;
    let unique = unique_of(alloc, finished.is_first_of_root(file), &input)?;
    let given = db.put_crate(unique, input)?;
    finished.note(number, file, given)
}

// Finishes all crates of a graph, in order.
fn finish_all<D: SourceDatabase>(
    alloc: Global,
    graph: &CrateGraphBuilder,
    order: &[u32],
    mut finished: FinishedCrates,
    db: &mut D,
) -> Result<FinishedCrates, AllocError>
    requires well_made { IsWellMadeGraph graph.now.crates graph.now.limit }
    requires behind { IsBehindTargets (edges graph.now.crates) order.now }
    requires none { finished ≡ none_finished (length graph.now.crates) }
    ensures { IfOk result (λ made. record { db = D.seen db.new; finished = made }
        ≡ progress_after graph.now.crates (D.seen db.old) order.now) }
{
    for number in order {
        let krate = &graph[CrateBuilderId::from_raw(*number)];
        finish(alloc, krate, *number, db, &mut finished)?;
    }
    Ok(finished)
}

// Stores the list of crates where it differs. They are of a table, as all crates of a database are.
fn store_list<D: SourceDatabase>(db: &mut D, given: Vec<Crate>)
    requires { All (λ krate. krate < length (D.seen db.old).crates) given.items }
    ensures list { D.seen db.new ≡ with_new_list (D.seen db.old) given.items }
    ensures table { IsTable (D.seen db.old).crates }
{
    if *db.all_crates_list() != *given.as_slice() {
        db.store_all_crates(given, Durability::Medium);
    }
}

// The numbers in the database as a map.
fn ids_of_numbers(alloc: Global, numbers: &[Crate]) -> Result<CratesIdMap, AllocError>
    requires { length numbers.now < 2 ^ 32 }
    ensures { IfOk result (λ ids. (id : Id)
        → tree.get ⟦<CrateBuilderId as Ord>⟧.cmp ids id ≡ slice_get numbers.now (number_of id)) }
{
    let mut ids = BTreeMap::new(alloc);
    for (number, new) in numbers.iter().enumerate() {
        let id = CrateBuilderId::from_raw(number as u32);
        drop(ids.insert(id, *new)?);
    }
    Ok(ids)
}
