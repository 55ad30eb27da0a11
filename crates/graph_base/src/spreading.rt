//! Labels are spread evenly over a window. No position changes its place.

ghost use Rattle.std.specs.Prelude.{◌≡◌, ℕ, ◌+◌, ◌*◌, ◌<◌, ◌≤◌, ◌^◌, length, slice_index};
ghost use Rattle.graph_base.specs.Ring.{IsPosition, IsRing, IsRising};
ghost use Rattle.graph_base.specs.Spreading.{AreStepsApart, HasRun, IsFirstFrom, KeepsOrder, SpreadFits, follow};

// The lowest position from a label on, reached down from another.
pub(crate) fn first_from(labels: &[u64], next: &[u32], prev: &[u32], anchor: u32, low: u64) -> u32
    requires ring { IsRing labels.now next.now prev.now }
    requires anchor { IsPosition labels.now anchor }
    requires from { low ≤ slice_index labels.now anchor }
    ensures { IsFirstFrom labels.now low result }
{
    let mut first = anchor;
    loop {
        let before = prev[first as usize];
        if before == 0 || labels[before as usize] < low {
            return first;
        }
        first = before;
    }
}

// How many positions follow one another, from one on, before a label.
pub(crate) fn count_run(labels: &[u64], next: &[u32], first: u32, high: u64) -> u64
    requires rising { IsRising labels.now next.now }
    requires first { first < length labels.now }
    requires top { high ≤ 2 ^ 63 }
    ensures { HasRun labels.now next.now first high result }
{
    let mut here = first;
    let mut count = 0;
    while labels[here as usize] < high {
        here = next[here as usize];
        count += 1;
    }
    count
}

// Gives so many positions, from one on, labels a step apart.
pub(crate) fn spread(labels: &mut [u64], next: &[u32], first: u32, count: u64, low: u64, step: u64)
    requires rising { IsRising labels.old next.now }
    requires fits { SpreadFits labels.old next.now first count low step }
    ensures keeps { KeepsOrder labels.old labels.new }
    ensures apart { let last = follow next.now count first in
        AreStepsApart labels.old labels.new last count low step }
{
    let mut here = first;
    for k in 0..count {
        labels[here as usize] = low + step * (k + 1);
        here = next[here as usize];
    }
}
