//! The crates that a crate depends on, over whatever others.

ghost use Rattle.std.specs.Prelude.{◌≡◌, ◌↔◌, ℕ, ◌<◌, length, map, IfOk};
ghost use Rattle.std.specs.List.{Contains};
ghost use Rattle.base_text_paths.specs.Arena.{number_of};
ghost use Rattle.graph_base.specs.Edges.{IsAscending};
ghost use Rattle.graph_base.specs.Reach.{Reaches};
ghost use Rattle.crate_graph.specs.Graph.{edges};

use crate::graph::CrateGraphBuilder;
use crate_graph_values::CrateBuilderId;
use std::alloc::{AllocError, Global};

impl CrateGraphBuilder {
    /// The crates that a crate reaches over dependencies, itself among them, by their numbers.
    pub fn transitive_deps(
        &self,
        alloc: Global,
        of: CrateBuilderId,
    ) -> Result<Vec<CrateBuilderId>, AllocError>
        requires { number_of of < length self.now.crates }
        ensures exact { IfOk result (λ ids. (n : ℕ) → Contains (map number_of ids.items) n
            ↔ Reaches (edges self.now.crates) (number_of of) n) }
        ensures ascending { IfOk result (λ ids. IsAscending (map number_of ids.items)) }
    {
        let nodes = graph_base::reachable_nodes(alloc, self, of.into_raw())?;
        ids_of(alloc, &nodes)
    }
}

// The numbers, typed as those of crates.
fn ids_of(alloc: Global, nodes: &[u32]) -> Result<Vec<CrateBuilderId>, AllocError>
    ensures { IfOk result (λ ids. map number_of ids.items ≡ nodes.now) }
{
    let mut ids = Vec::with_capacity(alloc, nodes.len())?;
    for node in nodes {
        ids.push(CrateBuilderId::from_raw(*node))?;
    }
    Ok(ids)
}
