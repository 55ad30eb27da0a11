//! A search from the target of a new edge that stays above the rank of its source: an edge that leads below
//! it leads back to where it begins. So a search that knows no ranks stays above, with its own marks.

ghost use Rattle.std.specs.Prelude.{◌≡◌, ◌<◌, length, slice_index, OnOk};
ghost use Rattle.graph_base.specs.Edges.{IsInRange};
ghost use Rattle.graph_base.specs.Trail.{IsClearable, IsWhole, empty_trail};
ghost use Rattle.crate_graph.specs.Walking.{bounded};

use graph_base::{Graph, LabelTable, Trail, search_into};
use std::alloc::AllocError;

/// A graph's edges from a node's rank up.
struct Bounded<'a, G: Graph> {
    graph: &'a G,
    table: &'a LabelTable,
    from: u32,
    ghost long: { length table.now ≡ length (G.rows graph.now) },
    ghost within: { from < length table.now },
    ghost in_range: { IsInRange (G.rows graph.now) },
}

impl<'a, G: Graph> Graph for Bounded<'a, G> {
    ghost rows = { λ b. bounded b.table.now b.from (G.rows b.graph.now) };

    fn count(&self) -> u32 {
        self.graph.count()
    }

    fn degree(&self, node: u32) -> usize {
        self.graph.degree(node)
    }

    fn target(&self, node: u32, place: usize) -> u32 {
        let target = self.graph.target(node, place);
        if self.table.is_below(target, self.from) {
            node
        } else {
            target
        }
    }
}

// Leaves in a trail, which is empty before, what a node reaches that has no lower rank than another.
pub(crate) fn search_above<G: Graph>(
    graph: &G,
    table: &LabelTable,
    trail: &mut Trail,
    from: u32,
    to: u32,
) -> Result<(), AllocError>
    requires long { length table.now ≡ length (G.rows graph.now) }
    requires nodes { (from < length table.now) × (to < length table.now) }
    requires in_range { IsInRange (G.rows graph.now) }
    requires empty { trail.old ≡ empty_trail (length (G.rows graph.now)) }
    ensures ok { OnOk result (IsWhole (bounded table.now from (G.rows graph.now)) to trail.new) }
    ensures clearable { IsClearable (length (G.rows graph.now)) trail.new }
{
    let above = Bounded { graph, table, from };
    let searched = search_into(&above, trail, to);
    let Bounded {
        graph: _,
        table: _,
        from: _,
    } = above;
    searched
}
