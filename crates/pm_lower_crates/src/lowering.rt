//! A Cargo workspace as the crates of an acyclic graph.

ghost use Rattle.std.specs.Prelude.{◌≡◌, length, IfOk};
ghost use Rattle.pm_lower_crates.specs.Loader.{FileNumbers};
ghost use Rattle.pm_lower_crates.specs.Facts.{facts_of};
ghost use Rattle.pm_lower_crates.specs.Gathering.{AreFilesOf};
ghost use Rattle.pm_lower_crates.specs.Lowering.{IsLoweredBehind, LacksCyclesAlone, cargo_rows, lowered_behind, wanted_edges};

use crate::edges::wanted_edges;
use crate::facts::CrateFacts;
use crate::front::Front;
use crate::gathering::{Project, add_rows};
use crate::keeping::keep_edges;
use crate::loader::Loader;
use crate::lower_error::LowerError;
use crate::root_files::root_files;
use base_text_paths::{FileId, Items};
use crate_graph::CrateGraphBuilder;
use pm_cargo::{BuildOutputs, CargoWorkspace};
use std::alloc::Global;

/// The graph of a front, and behind it the crates of a workspace by what is known of them: one for each row, in
/// order, with the edges that are kept of those wanted.
pub fn lower_cargo<L: Loader, O: BuildOutputs>(
    alloc: Global,
    front: Front,
    workspace: &CargoWorkspace,
    facts: &CrateFacts<'_, O>,
    loader: &mut L,
) -> Result<CrateGraphBuilder, LowerError>
    ensures lowers { IsLoweredBehind front.graph result (lowered_behind
        front.graph.limit (length front.graph.crates) (cargo_rows (L.files loader.old)
        (facts_of O.output_at O.is_failed facts.now) front.public
        (length front.graph.crates) workspace.now)) }
    ensures missing { IfOk result (λ graph. LacksCyclesAlone (wanted_edges
        (cargo_rows (L.files loader.old) (facts_of O.output_at O.is_failed facts.now)
        front.public (length front.graph.crates) workspace.now)) graph.crates) }
    ensures loader { L.files loader.new ≡ L.files loader.old }
{
    let files = root_files(alloc, workspace, loader)?;
    graph_of(alloc, front, workspace, facts, files.as_slice())
}

// The same, by the files that the crates of all targets begin in.
fn graph_of<O: BuildOutputs>(
    alloc: Global,
    front: Front,
    workspace: &CargoWorkspace,
    facts: &CrateFacts<'_, O>,
    files: &[Items<Option<FileId>>],
) -> Result<CrateGraphBuilder, LowerError>
    requires { length files.now ≡ length workspace.now.packages }
    ensures lowers { (live : FileNumbers) → AreFilesOf live workspace.now files.now
        → IsLoweredBehind front.graph result (lowered_behind
        front.graph.limit (length front.graph.crates) (cargo_rows live
        (facts_of O.output_at O.is_failed facts.now) front.public
        (length front.graph.crates) workspace.now)) }
    ensures missing { (live : FileNumbers) → AreFilesOf live workspace.now files.now
        → IfOk result (λ graph. LacksCyclesAlone (wanted_edges
        (cargo_rows live (facts_of O.output_at O.is_failed facts.now)
        front.public (length front.graph.crates) workspace.now)) graph.crates) }
{
    let (mut graph, public) = front.into_parts();
    let project = Project { workspace, facts };
    let owners = add_rows(alloc, &mut graph, &project, files)?;
    let edges = wanted_edges(alloc, &public, owners.as_slice())?;
    keep_edges(&mut graph, edges)?;
    Ok(graph)
}
