//! A JSON project as the crates of an acyclic graph.

ghost use Rattle.std.specs.Prelude.{◌≡◌, length, IfOk};
ghost use Rattle.pm_lower_crates.specs.Facts.{facts_of};
ghost use Rattle.pm_lower_crates.specs.Lowering.{IsLoweredBehind, LacksCyclesAlone, lowered_behind, wanted_edges};
ghost use Rattle.pm_lower_crates.specs.JsonLowering.{json_rows};

use crate::facts::CrateFacts;
use crate::front::Front;
use crate::json_edges::wanted_edges;
use crate::json_gathering::{Project, add_rows};
use crate::keeping::keep_edges;
use crate::loader::Loader;
use crate::lower_error::LowerError;
use crate_graph::CrateGraphBuilder;
use pm_cargo::BuildOutputs;
use pm_json::ProjectJson;
use std::alloc::Global;

/// The graph of a front, and behind it the crates of a project by what is known of them: one for each crate of the
/// document whose root module is live, in order, with the edges that are kept of those wanted. It is refused where
/// there are more crates than the limit.
pub fn lower_json<L: Loader, O: BuildOutputs>(
    alloc: Global,
    front: Front,
    project: &ProjectJson,
    facts: &CrateFacts<'_, O>,
    loader: &mut L,
) -> Result<CrateGraphBuilder, LowerError>
    ensures lowers { IsLoweredBehind front.graph result (lowered_behind
        front.graph.limit (length front.graph.crates) (json_rows (L.files loader.old)
        (facts_of O.output_at O.is_failed facts.now) front.public
        (length front.graph.crates) project.now)) }
    ensures missing { IfOk result (λ graph. LacksCyclesAlone (wanted_edges
        (json_rows (L.files loader.old) (facts_of O.output_at O.is_failed facts.now)
        front.public (length front.graph.crates) project.now)) graph.crates) }
    ensures loader { L.files loader.new ≡ L.files loader.old }
{
    let (mut graph, public) = front.into_parts();
    let document = Project {
        json: project,
        facts,
    };
    let rows = add_rows(alloc, &mut graph, &document, loader)?;
    let edges = wanted_edges(alloc, &public, rows.as_slice())?;
    keep_edges(&mut graph, edges)?;
    Ok(graph)
}
