//! The crates of all rows come into a graph, package by package.

ghost use Rattle.std.specs.Prelude.{◌≡◌, ◌≤◌, ◌+◌, ◌<◌, [], ◌∷◌, length, option_map, slice_get, IfErr, IfOk, OnOk};
ghost use Rattle.base_text_paths.specs.Arena.{number_of};
ghost use Rattle.pm_lower_crates.specs.Facts.{facts_of};
ghost use Rattle.pm_lower_crates.specs.Gathering.{AddsRows, found_target, owner_by, owners_by};
ghost use Rattle.pm_lower_crates.specs.Refusal.{IfTooMany};
ghost use Rattle.pm_lower_crates.specs.Rows.{row_at, rows_of};

use crate::columns::{cfgs_of, environment_of, origin_of, version_text, working_directory};
use crate::facts::CrateFacts;
use crate::lower_error::LowerError;
use crate::rows::{Owner, Row, is_lib};
use base_text_paths::{FileId, Items};
use crate_graph::CrateGraphBuilder;
use crate_graph_values::CrateDisplayName;
use pm_cargo::{BuildOutputs, CargoWorkspace};
use pm_cargo_packages::{Package, PackageData};
use std::alloc::Global;

/// What becomes crates: a workspace, and the facts of its crates.
#[derive(Drop)]
pub(crate) struct Project<'a, O> {
    pub(crate) workspace: &'a CargoWorkspace,
    pub(crate) facts: &'a CrateFacts<'a, O>,
}

// The row of the target at a place of its package, where its crate begins in a file.
#[tactic(auto, unfolding(crate::specs::Gathering::found_target))]
fn row_of<'a>(
    workspace: &'a CargoWorkspace,
    of: &'a PackageData,
    of_number: Package,
    place: usize,
    file: Option<FileId>,
    number: u32,
) -> Option<Row<'a>>
    ensures { result ≡ option_map (λ t. row_at (number_of of_number) of.now (place, t.0, t.1) number)
        (found_target workspace.now (slice_get of.now.targets place) file) }
{
    let file = file?;
    let id = *of.targets.as_slice().get(place)?;
    if !workspace.has_target(id) {
        return None;
    }
    let target = &workspace[id];
    Some(Row::new(number, of, of_number, place, target, file))
}

// Puts the crate of a row into the graph, under the next number.
#[tactic(auto, unfolding(crate::specs::Columns::columns_of))]
fn add_crate<O: BuildOutputs>(
    alloc: Global,
    graph: &mut CrateGraphBuilder,
    project: &Project<'_, O>,
    row: &Row,
) -> Result<(), LowerError>
    ensures added { OnOk result (AddsRows (facts_of O.output_at O.is_failed project.now.facts.now)
        project.now.workspace.now graph.old graph.new (row.now ∷ [])) }
    ensures full { IfErr result (λ e. IfTooMany e
        (length graph.old.crates ≡ graph.old.limit)) }
{
    let facts = project.facts;
    let shared = facts.shared.clone()?;
    let directory = working_directory(alloc, project.workspace, row.of())?;
    let version = version_text(alloc, row.of())?;
    let display_name = CrateDisplayName::from_canonical_name(alloc, row.target().name.as_str())?;
    let origin = origin_of(alloc, facts, row.of())?;
    let cfgs = cfgs_of(alloc, facts, row.of().name.as_str())?;
    let env = environment_of(alloc, facts, row.of_number())?;
    graph.add_crate_root(
        row.file(),
        row.of().edition,
        Some(display_name),
        Some(version),
        cfgs,
        None,
        env,
        origin,
        Vec::new(alloc),
        row.target().kind,
        directory,
        shared,
    )?;
    Ok(())
}

// Puts the crates of a package's rows into the graph.
fn add_package<'a, O: BuildOutputs>(
    alloc: Global,
    graph: &mut CrateGraphBuilder,
    project: &Project<'a, O>,
    id: Package,
    of: &'a PackageData,
    files: &[Option<FileId>],
) -> Result<Owner<'a>, LowerError>
    requires { length graph.old.crates ≤ graph.old.limit }
    ensures owner { IfOk result (λ made. made ≡ owner_by project.now.workspace.now (number_of id)
        (length graph.old.crates) of.now files.now) }
    ensures added { IfOk result (λ made. AddsRows
        (facts_of O.output_at O.is_failed project.now.facts.now)
        project.now.workspace.now graph.old graph.new made.rows) }
    ensures full { IfErr result (λ e. IfTooMany e (graph.old.limit < length graph.old.crates
        + length (owner_by project.now.workspace.now (number_of id)
        (length graph.old.crates) of.now files.now).rows)) }
{
    let mut rows = Vec::new(alloc);
    let mut library = None;
    for (place, file) in files.iter().enumerate() {
        let number = graph.len() as u32;
        if let Some(row) = row_of(project.workspace, of, id, place, *file, number) {
            add_crate(alloc, graph, project, &row)?;
            if is_lib(row.target().kind) {
                library = Some(row.copy());
            }
            rows.push(row)?;
        }
    }
    Ok(Owner::new(of, Items::new(rows), library))
}

/// Puts the crates of all rows into the graph, by the files that they begin in. The answer knows each
/// package's rows.
pub(crate) fn add_rows<'a, O: BuildOutputs>(
    alloc: Global,
    graph: &mut CrateGraphBuilder,
    project: &Project<'a, O>,
    files: &[Items<Option<FileId>>],
) -> Result<Vec<Owner<'a>>, LowerError>
    requires room { length graph.old.crates ≤ graph.old.limit }
    requires files { length files.now ≡ length project.now.workspace.now.packages }
    ensures owners { IfOk result (λ made. made.items ≡ owners_by project.now.workspace.now 0
        (length graph.old.crates) project.now.workspace.now.packages files.now) }
    ensures added { IfOk result (λ made. AddsRows
        (facts_of O.output_at O.is_failed project.now.facts.now)
        project.now.workspace.now graph.old graph.new (rows_of made.items)) }
    ensures full { IfErr result (λ e. IfTooMany e (graph.old.limit < length graph.old.crates
        + length (rows_of (owners_by project.now.workspace.now 0
        (length graph.old.crates) project.now.workspace.now.packages files.now)))) }
{
    let mut owners = Vec::new(alloc);
    for id in project.workspace.packages() {
        let of = &project.workspace[id];
        let files = files[id.into_raw() as usize].as_slice();
        owners.push(add_package(alloc, graph, project, id, of, files)?)?;
    }
    Ok(owners)
}
