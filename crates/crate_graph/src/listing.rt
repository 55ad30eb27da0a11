//! The nodes of an order as a list, from the lowest rank up, and an order by such a list.

ghost use Rattle.std.specs.Prelude.{◌≡◌, ◌<◌, ◌^◌, length, IfOk};
ghost use Rattle.crate_graph.specs.Order.{IsOrder};
ghost use Rattle.crate_graph.specs.Suborder.{HasEachOnce};

use crate::order::Order;
use graph_base::LabelTable;
use std::alloc::{AllocError, Global};

impl Order {
    // The nodes from the lowest rank up.
    pub(crate) fn nodes(&self, alloc: Global) -> Result<Vec<u32>, AllocError>
        ensures nodes { IfOk result (λ nodes. nodes.items ≡ self.now.nodes) }
        ensures order { IsOrder self.now }
    {
        match &self.table {
            None => Ok(Vec::new(alloc)),
            Some(table) => table.nodes(alloc),
        }
    }

    // The order of nodes that are listed from the lowest rank up.
    pub(crate) fn of_nodes(alloc: Global, nodes: &[u32]) -> Result<Order, AllocError>
        requires short { length nodes.now < 2 ^ 32 }
        requires once { HasEachOnce nodes.now }
        ensures nodes { IfOk result (λ order. order.nodes ≡ nodes.now) }
        ensures order { IfOk result IsOrder }
    {
        let table = LabelTable::of_nodes(alloc, nodes)?;
        Ok(Order::of_table(alloc, table))
    }
}
