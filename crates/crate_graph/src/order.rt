//! The order itself: a table keeps the nodes in the order of their ranks.

ghost use Rattle.std.specs.Prelude.{◌≡◌, ◌+◌, ◌<◌, ◌^◌, length, slice_index, IfOk, OnErr, OnOk};
ghost use Rattle.crate_graph.specs.Order.{AreKeptRanks, IsOrder, empty_order, ranking};
ghost use Rattle.crate_graph.specs.Order.{with_next_node, with_next_nodes};

use base_text_paths::TryClone;
use graph_base::LabelTable;
use std::alloc::{AllocError, Global};
use std::marker::Model;

/// The ranks of a graph's nodes, which are numbered from 0 on.
#[derive(Drop)]
pub struct Order {
    // Nothing until there is a node, since an empty table takes memory.
    pub(crate) table: Option<LabelTable>,
    alloc: Global,
}

impl Model for Order {
    ghost use Rattle.crate_graph.specs.Order as seen;

    ghost Value = { seen.Ranking };

    ghost view = { λ a. seen.ranking (seen.ranks_in a.table) };

    ghost invariant = { λ a. seen.AreKeptRanks (seen.ranks_in a.table) };
}

impl Order {
    /// An order of no nodes.
    pub fn new(alloc: Global) -> Order
        ensures { result ≡ empty_order }
    {
        Order { table: None, alloc }
    }

    // The order that a table keeps.
    pub(crate) fn of_table(alloc: Global, table: LabelTable) -> Order
        requires { AreKeptRanks table }
        ensures { result ≡ ranking table }
    {
        Order {
            table: Some(table),
            alloc,
        }
    }

    /// How many nodes there are. The ranks are the numbers below that, each once.
    pub fn len(&self) -> usize
        ensures length { result ≡ length self.now.nodes }
        ensures order { IsOrder self.now }
    {
        match &self.table {
            None => 0,
            Some(table) => table.len() as usize,
        }
    }

    /// The rank of a node. It is counted, over all nodes.
    pub fn rank(&self, node: u32) -> u32
        requires { node < length self.now.nodes }
        ensures { result ≡ slice_index self.now.ranks node }
    {
        match &self.table {
            None => unreachable!(),
            Some(table) => table.rank(node),
        }
    }

    /// Puts the next node in, which gets the highest rank.
    pub fn push(&mut self) -> Result<(), AllocError>
        requires { length self.old.nodes + 1 < 2 ^ 32 }
        ensures ok { OnOk result (self.new ≡ with_next_node self.old) }
        ensures err { OnErr result (self.new ≡ self.old) }
    {
        match &mut self.table {
            Some(table) => table.push(),
            None => {
                let mut table = LabelTable::new(self.alloc)?;
                table.push()?;
                self.table = Some(table);
                Ok(())
            }
        }
    }

    /// The order with so many more nodes, which get the highest ranks in the order of their numbers.
    pub fn with_next_nodes(&self, alloc: Global, count: usize) -> Result<Order, AllocError>
        requires { length self.now.nodes + count < 2 ^ 32 }
        ensures { IfOk result (λ order. order ≡ with_next_nodes count self.now) }
    {
        let mut order = self.try_clone(alloc)?;
        for _ in 0..count {
            order.push()?;
        }
        Ok(order)
    }
}

impl TryClone for Order {
    fn try_clone(&self, alloc: Global) -> Result<Self, AllocError> {
        let table = self.table.try_clone(alloc)?;
        Ok(Order { table, alloc })
    }
}
