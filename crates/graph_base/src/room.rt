//! Room for labels: the smallest window around a position that is thin enough gets its labels spread evenly.

ghost use Rattle.std.specs.Prelude.{◌≡◌, ℕ, ◌+◌, ◌*◌, ◌-◌, ◌<◌, ◌≤◌, ◌^◌, length, slice_index};
ghost use Rattle.graph_base.specs.Ring.{IsPosition, IsRing, lower};
ghost use Rattle.graph_base.specs.Spreading.{HasGaps, KeepsOrder};

use crate::links::{TOP, lower};
use crate::spreading::{count_run, first_from, spread};

/// How wide the smallest window is.
const NARROW: u64 = 64;

/// The labels from one up to another.
#[derive(Clone, Copy)]
pub(crate) struct Window {
    pub(crate) low: u64,
    pub(crate) high: u64,
}

// The aligned window of a width around a label.
fn window_around(label: u64, width: u64) -> Window
    requires label { label < 2 ^ 63 }
    requires width { (0 < width) × (width ≤ 2 ^ 63) }
    ensures low { result.low ≤ label }
    ensures high { (label < result.high) × (result.high ≤ 2 ^ 63) }
{
    let low = label - label % width;
    let end = low + width;
    let high = if end < TOP { end } else { TOP };
    Window { low, high }
}

// How many positions have labels in a window, of which one is given.
fn count_window(labels: &[u64], next: &[u32], prev: &[u32], anchor: u32, window: Window) -> u64
    requires ring { IsRing labels.now next.now prev.now }
    requires anchor { IsPosition labels.now anchor }
    requires from { window.low ≤ slice_index labels.now anchor }
    requires top { window.high ≤ 2 ^ 63 }
{
    let first = first_from(labels, next, prev, anchor, window.low);
    count_run(labels, next, first, window.high)
}

// The least double of a width in which so many labels are thin: their number is at most its root.
fn wide_enough(width: u64, count: u64) -> u64
    requires { (0 < width) × (width ≤ 2 ^ 63) }
    ensures more { width ≤ result }
    ensures top { result ≤ 2 ^ 63 }
{
    let mut wide = width;
    while wide < TOP / 2 && wide / count.max(1) < count {
        wide *= 2;
    }
    if wide / count.max(1) < count {
        TOP
    } else {
        wide
    }
}

// The smallest window around a position in which its labels and so many more are thin.
fn thin_window(labels: &[u64], next: &[u32], prev: &[u32], anchor: u32, more: u64) -> Window
    requires ring { IsRing labels.now next.now prev.now }
    requires anchor { IsPosition labels.now anchor }
    requires more { more < 2 ^ 32 }
    ensures low { result.low ≤ slice_index labels.now anchor }
    ensures high { (slice_index labels.now anchor < result.high) × (result.high ≤ 2 ^ 63) }
{
    let label = labels[anchor as usize];
    let mut width = NARROW;
    loop {
        let window = window_around(label, width);
        let count = count_window(labels, next, prev, anchor, window);
        let wide = wide_enough(width, count.saturating_add(more));
        if wide <= width {
            return window;
        }
        width = wide;
    }
}

// Spreads the labels around a position evenly, where there is more than a label for each.
fn spread_around(labels: &mut [u64], next: &[u32], prev: &[u32], anchor: u32, more: u64)
    requires ring { IsRing labels.old next.now prev.now }
    requires anchor { IsPosition labels.old anchor }
    requires more { more < 2 ^ 32 }
    ensures { KeepsOrder labels.old labels.new }
{
    let window = thin_window(labels, next, prev, anchor, more);
    let first = first_from(labels, next, prev, anchor, window.low);
    let count = count_run(labels, next, first, window.high);
    let step = step_of(window, count);
    if step > 0 {
        spread(labels, next, first, count, window.low, step);
    }
}

// How far apart so many labels stand that are spread over a window.
fn step_of(window: Window, count: u64) -> u64
    requires window { window.low ≤ window.high }
    requires count { count < 2 ^ 64 - 1 }
    ensures { window.low + result * (count + 1) ≤ window.high }
{
    (window.high - window.low) / (count + 1)
}

// Makes room for so many labels before a position, if there is not enough.
fn make_room(labels: &mut [u64], next: &[u32], prev: &[u32], mark: u32, more: u64)
    requires ring { IsRing labels.old next.now prev.now }
    requires mark { mark < length labels.old }
    requires more { more < 2 ^ 32 }
    ensures { KeepsOrder labels.old labels.new }
{
    let before = prev[mark as usize];
    if labels[mark as usize] - lower(labels, before) > more {
        return;
    }
    let anchor = if mark == 0 { before } else { mark };
    if anchor != 0 {
        spread_around(labels, next, prev, anchor, more);
    }
}

// How far apart so many labels stand that are spread over all there are.
fn whole_step(count: u64) -> u64
    requires { count ≤ 2 ^ 32 }
    ensures wide { 2 ≤ result }
    ensures fits { result * (count + 1) ≤ 2 ^ 63 }
{
    TOP / (count + 1)
}

// Spreads all labels evenly.
fn spread_all(labels: &mut [u64], next: &[u32], prev: &[u32])
    requires ring { IsRing labels.old next.now prev.now }
    ensures keeps { KeepsOrder labels.old labels.new }
    ensures gaps { HasGaps prev.now labels.new }
{
    let first = next[0];
    if first == 0 {
        return;
    }
    let count = count_run(labels, next, first, TOP);
    let step = whole_step(count);
    spread(labels, next, first, count, 0, step);
}

// Makes room for a label before a position, and for so many where a window has it.
pub(crate) fn open_gap(labels: &mut [u64], next: &[u32], prev: &[u32], mark: u32, more: u64)
    requires ring { IsRing labels.old next.now prev.now }
    requires mark { mark < length labels.old }
    requires more { more < 2 ^ 32 }
    ensures keeps { KeepsOrder labels.old labels.new }
    ensures gap { lower labels.new (slice_index prev.now mark) + 2 ≤ slice_index labels.new mark }
{
    make_room(labels, next, prev, mark, more);
    if labels[mark as usize] - lower(labels, prev[mark as usize]) < 2 {
        spread_all(labels, next, prev);
    }
}
