//! The edges that a graph keeps: each unless it would close a cycle.

ghost use Rattle.std.specs.Prelude.{◌≡◌, ◌<◌, List, ◌∷◌, [], ◌++◌, length, map, OnOk};
ghost use Rattle.std.specs.List.{All};
ghost use Rattle.pm_lower_crates.specs.KeptEdges.{IsWithinRows, kept_edges};
ghost use Rattle.pm_lower_crates.specs.Keeping.{AreLowered, HaveEdges, IsFrontWith, StartBehind};
ghost use Rattle.pm_lower_crates.specs.Lowering.{Crate, crate_seen, with_deps};
ghost use Rattle.pm_lower_crates.specs.WantedEdges.{Edge};

use crate::wanted_edge::WantedEdge;
use crate_graph::{AddDepError, CrateGraphBuilder};
use std::alloc::AllocError;

// Lets a crate depend on another unless that would close a cycle.
fn keep_edge(graph: &mut CrateGraphBuilder, edge: WantedEdge) -> Result<(), AllocError>
    requires { IsWithinRows (length graph.old.crates) edge }
    ensures limit { OnOk result (graph.new.limit ≡ graph.old.limit) }
    ensures count { OnOk result (length graph.new.crates ≡ length graph.old.crates) }
    ensures keeps { OnOk result ((before : List Edge) (bare : List Crate) (want : List Edge)
        → AreLowered before bare want graph.old.crates
        → AreLowered before bare (want ++ edge ∷ []) graph.new.crates) }
{
    let (source, dep) = edge.into_parts();
    match graph.add_dep(source, dep) {
        Ok(()) => Ok(()),
        Err(AddDepError::Cyclic(_)) => Ok(()),
        Err(AddDepError::OutOfMemory) => Err(AllocError),
    }
}

/// Gives the crates of a graph the wanted edges between them, in their order, except those that would close a
/// cycle. The graph may have edges before: where they are those of a front that no edge leaves, they settle
/// nothing of what is kept behind it. Out of memory leaves some of the wanted edges in the graph.
pub fn keep_edges(graph: &mut CrateGraphBuilder, edges: Vec<WantedEdge>) -> Result<(), AllocError>
    requires { All (IsWithinRows (length graph.old.crates)) edges.items }
    ensures limit { OnOk result (graph.new.limit ≡ graph.old.limit) }
    ensures keeps { OnOk result ((before : List Edge) (bare : List Crate)
        → HaveEdges before graph.old.crates bare
        → AreLowered before bare edges.items graph.new.crates) }
    ensures behind { OnOk result ((front rows : List Crate)
        → IsFrontWith front rows graph.old.crates → StartBehind (length front) edges.items
        → map crate_seen graph.new.crates
        ≡ front ++ with_deps (kept_edges edges.items) (length front) rows) }
{
    for edge in edges {
        keep_edge(graph, edge)?;
    }
    Ok(())
}
