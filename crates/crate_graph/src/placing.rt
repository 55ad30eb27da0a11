//! Nodes that are to go directly below another or directly above it, and how an order takes them there.

ghost use Rattle.std.specs.Prelude.{◌≡◌};
ghost use Rattle.crate_graph.specs.Placing.{FitsOrder, Rearranges, placement_above, placement_below};

use crate::order::Order;
use std::marker::Model;

/// Nodes, from the lowest up, that go directly below a node, or directly above it.
#[derive(Drop)]
pub struct Placement {
    above: bool,
    mark: u32,
    nodes: Vec<u32>,
}

impl Model for Placement {
    ghost use Rattle.crate_graph.specs.Placing as seen;

    ghost Value = { seen.Placement };

    ghost view = { λ a. record { above = a.above; mark = a.mark; nodes = a.nodes.items } };
}

impl Placement {
    // Nodes go below one.
    pub(crate) fn below(mark: u32, nodes: Vec<u32>) -> Placement
        ensures { result ≡ placement_below mark nodes.items }
    {
        Placement {
            above: false,
            mark,
            nodes,
        }
    }

    // Nodes go above one.
    pub(crate) fn above(mark: u32, nodes: Vec<u32>) -> Placement
        ensures { result ≡ placement_above mark nodes.items }
    {
        Placement {
            above: true,
            mark,
            nodes,
        }
    }
}

impl Order {
    /// Gives the nodes of a placement their new ranks.
    pub fn apply(&mut self, placement: Placement)
        requires { FitsOrder placement self.old }
        ensures { Rearranges placement self.old self.new }
    {
        let Some(table) = &mut self.table else {
            unreachable!()
        };
        let nodes = placement.nodes.as_slice();
        if placement.above {
            table.move_all_above(nodes, placement.mark);
        } else {
            table.move_all_below(nodes, placement.mark);
        }
    }
}
