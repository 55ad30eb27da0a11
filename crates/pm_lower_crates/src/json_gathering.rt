//! The crates of all rows come into a graph, in the order of the document.

ghost use Rattle.std.specs.Prelude.{◌≡◌, ◌≤◌, ◌+◌, ◌<◌, [], ◌∷◌, length, option_map, IfErr, IfOk, OnOk};
ghost use Rattle.std.specs.Option.{option_to_list};
ghost use Rattle.pm_lower_crates.specs.Facts.{facts_of};
ghost use Rattle.pm_lower_crates.specs.Refusal.{IfTooMany};
ghost use Rattle.pm_lower_crates.specs.JsonGathering.{AddsJsonRows};
ghost use Rattle.pm_lower_crates.specs.JsonRows.{row_in, rows_among, rows_by_place};

use crate::columns::cfgs_of;
use crate::facts::CrateFacts;
use crate::json_columns::{attributes_of, directory_of, name_of, origin_of, version_text};
use crate::json_rows::Row;
use crate::loader::Loader;
use crate::lower_error::LowerError;
use base_text_paths::{FileId, TryClone};
use crate_graph::CrateGraphBuilder;
use crate_graph_values::{Env, TargetKind};
use pm_cargo::BuildOutputs;
use pm_json::{Crate, ProjectJson};
use std::alloc::Global;

/// What becomes crates: a project, and the facts of its crates.
#[derive(Drop)]
pub(crate) struct Project<'a, O> {
    pub(crate) json: &'a ProjectJson,
    pub(crate) facts: &'a CrateFacts<'a, O>,
}

// Puts the crate of a row into the graph, under the next number.
#[tactic(auto, unfolding(crate::specs::JsonColumns::json_columns))]
fn add_crate<O: BuildOutputs>(
    alloc: Global,
    graph: &mut CrateGraphBuilder,
    project: &Project<'_, O>,
    row: &Row,
) -> Result<(), LowerError>
    ensures added { OnOk result (AddsJsonRows (facts_of O.output_at O.is_failed project.now.facts.now)
        project.now.json.now graph.old graph.new (row.now ∷ [])) }
    ensures full { IfErr result (λ e. IfTooMany e
        (length graph.old.crates ≡ graph.old.limit)) }
{
    let krate = row.of();
    let shared = project.facts.shared.clone()?;
    let directory = directory_of(alloc, project.json, krate)?;
    let version = version_text(alloc, krate)?;
    let attributes = attributes_of(alloc, krate)?;
    let display_name = krate.display_name.try_clone(alloc)?;
    let origin = origin_of(alloc, project.facts, krate)?;
    let cfgs = cfgs_of(alloc, project.facts, name_of(krate))?;
    graph.add_crate_root(
        row.file(),
        krate.edition,
        display_name,
        version,
        cfgs,
        None,
        Env::new(alloc),
        origin,
        attributes,
        TargetKind::Lib {
            is_proc_macro: krate.is_proc_macro,
        },
        directory,
        shared,
    )?;
    Ok(())
}

// Puts the crate of the document that begins in a file into the graph. There is no row where there is no file.
fn add_row<'a, O: BuildOutputs>(
    alloc: Global,
    graph: &mut CrateGraphBuilder,
    project: &Project<'a, O>,
    krate: &'a Crate,
    place: usize,
    file: Option<FileId>,
) -> Result<Option<Row<'a>>, LowerError>
    ensures row { IfOk result (λ row. row
        ≡ option_map (row_in place (length graph.old.crates) krate.now) file) }
    ensures added { IfOk result (λ row. AddsJsonRows
        (facts_of O.output_at O.is_failed project.now.facts.now)
        project.now.json.now graph.old graph.new (option_to_list row)) }
    ensures full { IfErr result (λ e. IfTooMany e (graph.old.limit
        < length graph.old.crates + length (option_to_list file))) }
{
    let Some(file) = file else {
        return Ok(None);
    };
    let row = Row::new(graph.len() as u32, krate, place, file);
    add_crate(alloc, graph, project, &row)?;
    Ok(Some(row))
}

/// Puts the crates of all rows into the graph. The answer knows the row of each crate of the document.
pub(crate) fn add_rows<'a, O: BuildOutputs, L: Loader>(
    alloc: Global,
    graph: &mut CrateGraphBuilder,
    project: &Project<'a, O>,
    loader: &mut L,
) -> Result<Vec<Option<Row<'a>>>, LowerError>
    requires { length graph.old.crates ≤ graph.old.limit }
    ensures rows { IfOk result (λ rows. rows.items ≡ rows_by_place (L.files loader.old)
        (length graph.old.crates) project.now.json.now) }
    ensures added { IfOk result (λ rows. AddsJsonRows
        (facts_of O.output_at O.is_failed project.now.facts.now)
        project.now.json.now graph.old graph.new (rows_among rows.items)) }
    ensures full { IfErr result (λ e. IfTooMany e (graph.old.limit < length graph.old.crates
        + length (rows_among (rows_by_place (L.files loader.old)
        (length graph.old.crates) project.now.json.now)))) }
    ensures loader { L.files loader.new ≡ L.files loader.old }
{
    let mut rows = Vec::new(alloc);
    for (place, krate) in project.json.crates.as_slice().iter().enumerate() {
        let file = loader.load(alloc, krate.root_module.as_path())?;
        rows.push(add_row(alloc, graph, project, krate, place, file)?)?;
    }
    Ok(rows)
}
