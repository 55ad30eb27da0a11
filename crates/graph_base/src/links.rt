//! A ring of positions in the order of their labels. Position 0 is its end, under the highest label; each
//! other position has a lower label of its own.

ghost use Rattle.std.specs.Prelude.{◌≡◌, ◌<◌, ◌≢◌, length, slice_index, slice_set};
ghost use Rattle.graph_base.specs.Ring.{IsPosition, IsRing, lower, relinked_next, relinked_prev};
ghost use Rattle.graph_base.specs.Placing.{CanRelink, FitsBefore, PutsBefore};

/// The label of the end.
pub(crate) const TOP: u64 = 1 << 63;

// The label of a position as seen from what follows it: nothing is below the first one.
pub(crate) fn lower(labels: &[u64], position: u32) -> u64
    requires { position < length labels.now }
    ensures { result ≡ lower labels.now position }
{
    if position == 0 {
        0
    } else {
        labels[position as usize]
    }
}

// Takes a position out of the ring and puts it in before another.
fn relink(next: &mut [u32], prev: &mut [u32], node: u32, mark: u32)
    requires { CanRelink next.old prev.old node mark }
    ensures next { next.new ≡ relinked_next next.old prev.old node mark }
    ensures prev { prev.new ≡ relinked_prev next.old prev.old node mark }
{
    let behind = prev[node as usize];
    let ahead = next[node as usize];
    let last = prev[mark as usize];
    next[behind as usize] = ahead;
    next[last as usize] = node;
    next[node as usize] = mark;
    prev[ahead as usize] = behind;
    prev[mark as usize] = node;
    prev[node as usize] = last;
}

// Gives a position a label between that of another and of what comes before it.
pub(crate) fn put_before(
    labels: &mut [u64],
    next: &mut [u32],
    prev: &mut [u32],
    node: u32,
    mark: u32,
    label: u64,
)
    requires ring { IsRing labels.old next.old prev.old }
    requires fits { FitsBefore labels.old prev.old node mark label }
    ensures ring { IsRing labels.new next.new prev.new }
    ensures put { PutsBefore node mark labels.old labels.new }
{
    relink(next, prev, node, mark);
    labels[node as usize] = label;
}
