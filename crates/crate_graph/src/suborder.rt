//! The order of some of the nodes alone, which are numbered anew: they keep the order of their ranks.

ghost use Rattle.std.specs.Prelude.{◌≡◌, ◌<◌, ◌^◌, ℕ, None, true, false, length, map, slice_index_or, IfOk};
ghost use Rattle.std.specs.List.{All, filter_map, range_with_len};
ghost use Rattle.graph_base.specs.Kept.{is_named};
ghost use Rattle.crate_graph.specs.Suborder.{FitsKept, KeepsRanks};
ghost use Rattle.crate_graph.specs.Suborder.{kept_nodes, new_number};

use crate::order::Order;
use std::alloc::{AllocError, Global};

// Of each node, whether it is named.
fn marks_of(alloc: Global, keep: &[u32], count: usize) -> Result<Vec<bool>, AllocError>
    requires { (n : ℕ) → is_named keep.now n ≡ true → n < count }
    ensures long { IfOk result (λ marks. length marks.items ≡ count) }
    ensures named { IfOk result (λ marks. (n : ℕ) → n < count
        → slice_index_or marks.items n false ≡ is_named keep.now n) }
{
    let mut marks = vec![in alloc; false; count]?;
    for node in keep {
        marks[*node as usize] = true;
    }
    Ok(marks)
}

// Of each node its new number, where it is named.
fn new_numbers(alloc: Global, keep: &[u32], count: usize) -> Result<Vec<Option<u32>>, AllocError>
    requires short { count < 2 ^ 32 }
    requires known { (n : ℕ) → is_named keep.now n ≡ true → n < count }
    ensures { IfOk result (λ numbers.
        numbers.items ≡ map (new_number keep.now) (range_with_len 0 count)) }
{
    let marks = marks_of(alloc, keep, count)?;
    let mut numbers = Vec::with_capacity(alloc, count)?;
    let mut next = 0;
    for mark in &marks {
        if *mark {
            numbers.push(Some(next))?;
            next += 1;
        } else {
            numbers.push(None)?;
        }
    }
    Ok(numbers)
}

// The new numbers of nodes, without those that have none.
fn renumber(alloc: Global, numbers: &[Option<u32>], nodes: &[u32]) -> Result<Vec<u32>, AllocError>
    requires { All (λ node. node < length numbers.now) nodes.now }
    ensures { IfOk result (λ kept. kept.items
        ≡ filter_map (λ node. slice_index_or numbers.now node None) nodes.now) }
{
    let mut kept = Vec::new(alloc);
    for node in nodes {
        if let Some(number) = numbers[*node as usize] {
            kept.push(number)?;
        }
    }
    Ok(kept)
}

impl Order {
    /// The order of the named nodes alone. Each gets a new number, which is how many named nodes have a
    /// lower one, and they keep the order of their ranks.
    pub fn suborder(&self, alloc: Global, keep: &[u32]) -> Result<Order, AllocError>
        requires { (n : ℕ) → is_named keep.now n ≡ true → n < length self.now.nodes }
        ensures nodes { IfOk result (λ order.
            order.nodes ≡ kept_nodes keep.now self.now.nodes) }
        ensures ranks { IfOk result (KeepsRanks keep.now self.now) }
        ensures fits { IfOk result (FitsKept keep.now self.now) }
    {
        let nodes = self.nodes(alloc)?;
        let numbers = new_numbers(alloc, keep, nodes.len())?;
        let kept = renumber(alloc, &numbers, &nodes)?;
        Order::of_nodes(alloc, &kept)
    }
}
