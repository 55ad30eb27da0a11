//! The nodes between the two of a new edge that its target does not reach: where they are fewer than those
//! that it reaches, they move.

ghost use Rattle.std.specs.Prelude.{◌≡◌, ◌<◌, ◌≤◌, length, slice_index, IfOk, IfSome};
ghost use Rattle.graph_base.specs.Ranks.{AreRanks};
ghost use Rattle.crate_graph.specs.Walking.{AreUnmarked};

use graph_base::LabelTable;
use std::alloc::{AllocError, Global};

// The nodes without a mark from one node up to another, if they are at most so many.
pub(crate) fn unmarked_between(
    alloc: Global,
    table: &LabelTable,
    marks: &[bool],
    from: u32,
    to: u32,
    most: usize,
) -> Result<Option<Vec<u32>>, AllocError>
    requires ranks { AreRanks table.now }
    requires marks { length marks.now ≡ length table.now }
    requires nodes { (from < length table.now) × (to < length table.now) }
    requires up { slice_index table.now from ≤ slice_index table.now to }
    ensures { IfOk result (λ answer. IfSome answer
        (λ nodes. AreUnmarked marks.now table.now from to nodes.items)) }
{
    let mut nodes = Vec::new(alloc);
    let mut node = from;
    while node != to {
        if !marks[node as usize] {
            if nodes.len() == most {
                return Ok(None);
            }
            nodes.push(node)?;
        }
        let Some(above) = table.above(node) else {
            return Ok(None);
        };
        node = above;
    }
    Ok(Some(nodes))
}
