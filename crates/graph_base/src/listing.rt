//! The nodes of an order as a list, from the lowest rank up, and an order by such a list.

ghost use Rattle.std.specs.Prelude.{◌≡◌, ◌<◌, ◌≤◌, ◌^◌, ℕ, length, slice_index, IfOk};
ghost use Rattle.std.specs.List.Sorted.{IsPermutation};
ghost use Rattle.graph_base.specs.Listing.{HasEach, IsInverse};
ghost use Rattle.graph_base.specs.Ranks.{AreRanks};

use crate::table::LabelTable;
use std::alloc::{AllocError, Global};

impl LabelTable {
    /// The nodes from the lowest rank up.
    pub fn nodes(&self, alloc: Global) -> Result<Vec<u32>, AllocError>
        ensures { IfOk result (λ nodes. IsInverse nodes.items self.now) }
    {
        let mut nodes = Vec::with_capacity(alloc, self.len() as usize)?;
        let mut next = self.lowest();
        while let Some(node) = next {
            nodes.push(node)?;
            next = self.above(node);
        }
        Ok(nodes)
    }

    /// The order of nodes that are listed from the lowest rank up.
    pub fn of_nodes(alloc: Global, nodes: &[u32]) -> Result<LabelTable, AllocError>
        requires short { length nodes.now < 2 ^ 32 }
        requires each { HasEach nodes.now }
        ensures nodes { IfOk result (IsInverse nodes.now) }
        ensures ranks { IfOk result AreRanks }
    {
        let mut table = LabelTable::with_nodes(alloc, nodes.len())?;
        arrange(&mut table, nodes);
        Ok(table)
    }

    // An order of so many nodes, in the order of their numbers.
    fn with_nodes(alloc: Global, count: usize) -> Result<LabelTable, AllocError>
        requires { count < 2 ^ 32 }
        ensures count { IfOk result (λ table. length table ≡ count) }
        ensures ranks { IfOk result AreRanks }
    {
        let mut table = LabelTable::new(alloc)?;
        for _ in 0..count {
            table.push()?;
        }
        Ok(table)
    }
}

// Puts each node of a list directly above the one before it.
fn arrange(table: &mut LabelTable, nodes: &[u32])
    requires count { length table.old ≡ length nodes.now }
    requires ranks { AreRanks table.old }
    requires short { length nodes.now < 2 ^ 32 }
    requires each { HasEach nodes.now }
    ensures nodes { IsInverse nodes.now table.new }
    ensures ranks { AreRanks table.new }
{
    let count = nodes.len() as u32;
    let mut last = 0;
    for (place, node) in nodes.iter().enumerate() {
        let left = count - place as u32;
        if place > 0 {
            table.move_above(*node, last, left);
        }
        last = *node;
    }
}
