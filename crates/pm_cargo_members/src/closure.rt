//! For each node of a graph, all to which it comes over one or more edges. Nodes that reach each other
//! share one list.

ghost use Rattle.std.specs.Prelude.{◌≡◌, ◌<◌, ◌^◌, length, flat_map, IfOk, OnOk};
ghost use Rattle.std.specs.List.{All};
ghost use Rattle.graph_base.specs.Edges.{IsInRange, row};
ghost use Rattle.graph_base.specs.Reach.{Reaches};
ghost use Rattle.graph_base.specs.Trail.{empty_trail, trail_after_clear};
ghost use Rattle.pm_cargo_members.specs.Closure.{closure};
ghost use Rattle.graph_base.specs.Reversed.{target_rows};

use graph_base::{Graph as _, Rows, Trail, search_into};
use std::alloc::{AllocError, Global};
use std::marker::Model;

// The targets of the edges of some nodes, in their order.
fn all_targets(alloc: Global, rows: &[Vec<u32>], nodes: &[u32]) -> Result<Vec<u32>, AllocError>
    requires { All (λ node. node < length rows.now) nodes.now }
    ensures { IfOk result
        (λ targets. targets.items ≡ flat_map (row (target_rows rows.now)) nodes.now) }
{
    let mut targets = Vec::new(alloc);
    for node in nodes {
        targets.extend_from_slice(rows[*node as usize].as_slice())?;
    }
    Ok(targets)
}

// The nodes to which one comes from a node over one or more edges. The trail is empty before and after.
fn closure_of(
    alloc: Global,
    graph: &Rows,
    trail: &mut Trail,
    start: u32,
) -> Result<Vec<u32>, AllocError>
    requires empty { trail.old ≡ empty_trail (length graph.now) }
    requires start { start < length graph.now }
    requires in_range { IsInRange graph.now }
    ensures exact { IfOk result (λ nodes. nodes.items ≡ closure graph.now start) }
    ensures empty { OnOk result (trail.new ≡ empty_trail (length graph.now)) }
{
    search_into(graph, trail, start)?;
    let mut nodes = all_targets(alloc, graph.as_slice(), trail.nodes())?;
    nodes.sort_unstable();
    nodes.dedup();
    trail.clear();
    Ok(nodes)
}

/// A graph whose edges can be followed both ways.
#[derive(Drop)]
pub(crate) struct Graph {
    rows: Rows,
    // The same edges, from their targets to their sources.
    back: Rows,
}

/// Contracts see a graph as its rows.
impl Model for Graph {
    ghost use Rattle.std.specs.Prelude.{ℕ, List};
    ghost use Rattle.pm_cargo_members.specs.Gathering.{IsGraphBothWays};

    ghost Value = { List (List ℕ) };

    ghost view = { λ a. a.rows };

    ghost invariant = { λ a. IsGraphBothWays a.rows a.back };
}

impl Graph {
    /// The graph of some rows of targets.
    pub(crate) fn new(alloc: Global, rows: Vec<Vec<u32>>) -> Result<Self, AllocError>
        requires short { length rows.items < 2 ^ 32 }
        requires in_range { IsInRange (target_rows rows.items) }
        ensures { IfOk result (λ graph. graph ≡ target_rows rows.items) }
    {
        let rows = Rows::new(rows);
        let back = Rows::reversed(alloc, &rows)?;
        Ok(Graph { rows, back })
    }

    /// How many nodes there are.
    pub(crate) fn len(&self) -> u32
        ensures len { result ≡ length self.now }
        ensures in_range { IsInRange self.now }
    {
        self.rows.count()
    }

    /// The nodes to which one comes from a node over one or more edges, ascending.
    pub(crate) fn closure(
        &self,
        alloc: Global,
        trail: &mut Trail,
        start: u32,
    ) -> Result<Vec<u32>, AllocError>
        requires empty { trail.old ≡ empty_trail (length self.now) }
        requires start { start < length self.now }
        ensures exact { IfOk result (λ nodes. nodes.items ≡ closure self.now start) }
        ensures empty { OnOk result (trail.new ≡ empty_trail (length self.now)) }
    {
        closure_of(alloc, &self.rows, trail, start)
    }

    /// Leaves in the trail the nodes that reach a node.
    pub(crate) fn find_reaching(&self, trail: &mut Trail, target: u32) -> Result<(), AllocError>
        requires empty { trail.old ≡ empty_trail (length self.now) }
        requires target { target < length self.now }
        ensures reach { OnOk result (All (λ node. Reaches self.now node target) trail.new.nodes) }
        ensures within { OnOk result (All (λ node. node < length self.now) trail.new.nodes) }
        ensures marks { OnOk result (All (λ node. node < length trail.new.marks) trail.new.nodes) }
        ensures cleared { OnOk result
            (trail_after_clear trail.new ≡ empty_trail (length self.now)) }
    {
        search_into(&self.back, trail, target)
    }
}
