//! A position goes directly before another.

ghost use Rattle.std.specs.Prelude.{◌≡◌, ℕ, ◌+◌, ◌*◌, ◌-◌, ◌<◌, ◌≤◌, ◌^◌, length, slice_index};
ghost use Rattle.graph_base.specs.Ring.{IsPosition, IsRing, lower};
ghost use Rattle.graph_base.specs.Placing.{PutsBefore};

use crate::links::{lower, put_before};
use crate::room::open_gap;

// A label between two, at so many parts of what lies between: where more follow at the same place they
// share it evenly.
fn label_between(low: u64, high: u64, parts: u64) -> u64
    requires apart { low + 2 ≤ high }
    requires parts { 2 ≤ parts }
    ensures above { low < result }
    ensures below { result < high }
{
    let step = (high - low) / parts;
    if step == 0 { low + 1 } else { low + step }
}

// Puts a position directly before another, where so many go there one after the other, this one included.
pub(crate) fn move_before(
    labels: &mut [u64],
    next: &mut [u32],
    prev: &mut [u32],
    node: u32,
    mark: u32,
    many: u32,
)
    requires ring { IsRing labels.old next.old prev.old }
    requires node { IsPosition labels.old node }
    requires mark { mark < length labels.old }
    requires many { 0 < many }
    ensures ring { IsRing labels.new next.new prev.new }
    ensures put { PutsBefore node mark labels.old labels.new }
{
    if mark == node || prev[mark as usize] == node {
        return;
    }
    open_gap(labels, next, prev, mark, many as u64);
    let low = lower(labels, prev[mark as usize]);
    let high = labels[mark as usize];
    let label = label_between(low, high, many as u64 + 1);
    put_before(labels, next, prev, node, mark, label);
}
