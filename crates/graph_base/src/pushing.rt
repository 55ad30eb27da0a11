//! The next position goes to the end of the ring, under a label above all others.

ghost use Rattle.std.specs.Prelude.{◌≡◌, ℕ, [], ◌∷◌, ◌++◌, ◌+◌, ◌-◌, ◌<◌, ◌≤◌, ◌^◌, length, slice_index, slice_set, vec_capacity, OnErr, OnOk};
ghost use Rattle.graph_base.specs.Pushing.{AddsLast};
ghost use Rattle.graph_base.specs.Ring.{IsRing, lower};
ghost use Rattle.graph_base.specs.Spreading.{KeepsOrder};

use crate::links::{TOP, lower};
use crate::room::open_gap;
use std::alloc::AllocError;

/// The label of the first node: half of all labels are left for what goes below it.
const FIRST: u64 = 1 << 62;

/// How far apart the labels of new nodes are, while there is room.
const STEP: u64 = 1 << 40;

// A label above one and below that of the end.
fn top_label(last: u32, low: u64) -> u64
    requires room { low + 2 ≤ 2 ^ 63 }
    requires first { last ≡ 0 → low ≡ 0 }
    ensures above { low < result }
    ensures below { result < 2 ^ 63 }
{
    if last == 0 {
        return FIRST;
    }
    let half = (TOP - low) / 2;
    if half < STEP { low + half } else { low + STEP }
}

// The label of the last position, once there is room above it.
fn make_top_room(labels: &mut [u64], next: &[u32], prev: &[u32]) -> u64
    requires ring { IsRing labels.old next.now prev.now }
    ensures keeps { KeepsOrder labels.old labels.new }
    ensures room { lower labels.new (slice_index prev.now 0) + 2 ≤ 2 ^ 63 }
    ensures low { result ≡ lower labels.new (slice_index prev.now 0) }
{
    open_gap(labels, next, prev, 0, 1);
    lower(labels, prev[0])
}

// Links a new last position in, where what it needs is reserved.
pub(crate) fn push_position(
    labels: &mut Vec<u64>,
    next: &mut Vec<u32>,
    prev: &mut Vec<u32>,
) -> Result<(), AllocError>
    requires ring { IsRing labels.old.items next.old.items prev.old.items }
    requires short { length labels.old.items < 2 ^ 32 }
    ensures ring { IsRing labels.new.items next.new.items prev.new.items }
    ensures ok { OnOk result (AddsLast labels.old.items labels.new.items) }
    ensures err { OnErr result (KeepsOrder labels.old.items labels.new.items) }
{
    labels.reserve(1)?;
    next.reserve(1)?;
    prev.reserve(1)?;
    let low = make_room_on_top(labels, next.as_slice(), prev.as_slice());
    let new = labels.len() as u32;
    let last = prev[0];
    let label = top_label(last, low);
    labels.push_reserved(label);
    next.push_reserved(0);
    prev.push_reserved(last);
    tie_last(next, prev, last, new);
    Ok(())
}

// Ties a new last position in between the one before it and the end.
fn link_last(next: &mut [u32], prev: &mut [u32], last: u32, new: u32)
    requires { (last < length next.old) × (0 < length prev.old) }
    ensures next { next.new ≡ slice_set next.old last new }
    ensures prev { prev.new ≡ slice_set prev.old 0 new }
{
    next[last as usize] = new;
    prev[0] = new;
}

// The same over vectors.
fn make_room_on_top(labels: &mut Vec<u64>, next: &[u32], prev: &[u32]) -> u64
    requires ring { IsRing labels.old.items next.now prev.now }
    ensures keeps { KeepsOrder labels.old.items labels.new.items }
    ensures room { lower labels.new.items (slice_index prev.now 0) + 2 ≤ 2 ^ 63 }
    ensures low { result ≡ lower labels.new.items (slice_index prev.now 0) }
    ensures reserved { vec_capacity labels.new ≡ vec_capacity labels.old }
{
    make_top_room(labels, next, prev)
}

// The same over vectors.
fn tie_last(next: &mut Vec<u32>, prev: &mut Vec<u32>, last: u32, new: u32)
    requires { (last < length next.old.items) × (0 < length prev.old.items) }
    ensures next { next.new.items ≡ slice_set next.old.items last new }
    ensures prev { prev.new.items ≡ slice_set prev.old.items 0 new }
{
    link_last(next, prev, last, new);
}
