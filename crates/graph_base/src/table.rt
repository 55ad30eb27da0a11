//! The table: nodes are numbered from 0 on, and node n stands at position n + 1 of the ring.

ghost use Rattle.std.specs.Prelude.{◌≡◌, ℕ, ◌+◌, ◌-◌, ◌<◌, ◌≤◌, ◌^◌, ◌↔◌, [], length, slice_index, IfOk, IfSome, IsTrue, OnErr, OnOk};
ghost use Rattle.std.specs.Option.{IfNone};
ghost use Rattle.graph_base.specs.Placing.{PutsBefore};
ghost use Rattle.std.specs.List.Sorted.{IsNonDecreasingBy, IsPermutation};
ghost use Rattle.graph_base.specs.Listing.{AreAscending, IsLowest};
ghost use Rattle.graph_base.specs.Ranks.{AreRanks, IsHighest, IsNextAbove, MovesAbove, MovesBelow, labels_below, ranks_of, with_next_rank};
ghost use Rattle.graph_base.specs.Ring.{IsPosition, IsRing, IsRising, lower};

use crate::links::TOP;
use crate::moving::move_before;
use crate::pushing::push_position;
use base_values::TryClone;
use std::alloc::{AllocError, Global};
use std::marker::Model;

/// An order of numbered nodes, seen as the rank of each.
#[derive(Drop)]
pub struct LabelTable {
    labels: Vec<u64>,
    next: Vec<u32>,
    prev: Vec<u32>,
}

impl Model for LabelTable {
    ghost use Rattle.std.specs.Prelude.{ℕ, List};
    ghost use Rattle.graph_base.specs.Ranks as seen;
    ghost use Rattle.graph_base.specs.Ring as kept;

    ghost Value = { List ℕ };

    ghost view = { λ a. seen.ranks_of a.labels.items };

    ghost invariant = { λ a. kept.IsRing a.labels.items a.next.items a.prev.items };
}

impl LabelTable {
    /// An order of no nodes.
    pub fn new(alloc: Global) -> Result<LabelTable, AllocError>
        ensures empty { IfOk result (λ table. table ≡ []) }
        ensures ranks { IfOk result AreRanks }
    {
        let labels = vec![in alloc; TOP; 1]?;
        let next = vec![in alloc; 0; 1]?;
        let prev = vec![in alloc; 0; 1]?;
        Ok(LabelTable { labels, next, prev })
    }

    /// How many nodes there are. The ranks are the numbers below that, each once.
    pub fn len(&self) -> u32
        ensures length { result ≡ length self.now }
        ensures ranks { AreRanks self.now }
    {
        (self.labels.len() - 1) as u32
    }

    /// Whether a node has a lower rank than another.
    pub fn is_below(&self, node: u32, other: u32) -> bool
        requires nodes { (node < length self.now) × (other < length self.now) }
        ensures { IsTrue result ↔ slice_index self.now node < slice_index self.now other }
    {
        is_lower(self.labels.as_slice(), node, other)
    }

    /// The node of the next higher rank.
    pub fn above(&self, node: u32) -> Option<u32>
        requires { node < length self.now }
        ensures some { IfSome result (IsNextAbove self.now node) }
        ensures none { IfNone result (IsHighest self.now node) }
    {
        next_above(self.labels.as_slice(), self.next.as_slice(), node)
    }

    /// The node of the lowest rank.
    pub fn lowest(&self) -> Option<u32>
        ensures some { IfSome result (IsLowest self.now) }
        ensures none { IfNone result (length self.now ≡ 0) }
    {
        first_node(self.next.as_slice())
    }

    /// Sorts nodes by their ranks.
    pub fn sort(&self, nodes: &mut Vec<u32>)
        requires { (k : ℕ) → k < length nodes.old.items
            → slice_index nodes.old.items k < length self.now }
        ensures same { IsPermutation nodes.old.items nodes.new.items }
        ensures ascending { AreAscending self.now nodes.new.items }
    {
        sort_by_label(self.labels.as_slice(), nodes);
    }

    /// The rank of a node. It is counted, over all nodes of lower ranks.
    pub fn rank(&self, node: u32) -> u32
        requires { node < length self.now }
        ensures { result ≡ slice_index self.now node }
    {
        count_below(self.labels.as_slice(), node)
    }

    /// Puts the next node in, which gets the highest rank.
    pub fn push(&mut self) -> Result<(), AllocError>
        requires { length self.old + 1 < 2 ^ 32 }
        ensures ok { OnOk result (self.new ≡ with_next_rank self.old) }
        ensures err { OnErr result (self.new ≡ self.old) }
        ensures ranks { AreRanks self.new }
    {
        push_position(&mut self.labels, &mut self.next, &mut self.prev)
    }

    /// Puts a node directly below another. Where so many nodes go there one after the other, this one
    /// included, they share what room there is.
    pub fn move_below(&mut self, node: u32, mark: u32, many: u32)
        requires nodes { (node < length self.old) × (mark < length self.old) }
        requires many { 0 < many }
        ensures moved { MovesBelow node mark self.old self.new }
        ensures ranks { AreRanks self.new }
    {
        move_under(
            &mut self.labels,
            &mut self.next,
            &mut self.prev,
            node,
            mark,
            many,
        );
    }

    /// Puts a node directly above another.
    pub fn move_above(&mut self, node: u32, mark: u32, many: u32)
        requires nodes { (node < length self.old) × (mark < length self.old) }
        requires many { 0 < many }
        ensures moved { MovesAbove node mark self.old self.new }
        ensures ranks { AreRanks self.new }
    {
        move_over(
            &mut self.labels,
            &mut self.next,
            &mut self.prev,
            node,
            mark,
            many,
        );
    }
}

impl TryClone for LabelTable {
    fn try_clone(&self, alloc: Global) -> Result<Self, AllocError> {
        let mut labels = Vec::new(alloc);
        let mut next = Vec::new(alloc);
        let mut prev = Vec::new(alloc);
        labels.extend_from_slice(self.labels.as_slice())?;
        next.extend_from_slice(self.next.as_slice())?;
        prev.extend_from_slice(self.prev.as_slice())?;
        Ok(LabelTable { labels, next, prev })
    }
}

// The first node of the ring.
fn first_node(next: &[u32]) -> Option<u32>
    requires { 0 < length next.now }
    ensures some { IfSome result (λ node. slice_index next.now 0 ≡ node + 1) }
    ensures none { IfNone result (slice_index next.now 0 ≡ 0) }
{
    let first = next[0];
    if first == 0 { None } else { Some(first - 1) }
}

// The label of a node.
fn label_of(labels: &[u64], node: u32) -> u64
    ensures { result ≡ slice_index labels.now (node + 1) }
{
    match labels.get(node as usize + 1) {
        Some(label) => *label,
        None => 0,
    }
}

// Sorts nodes by their labels.
fn sort_by_label(labels: &[u64], nodes: &mut Vec<u32>)
    ensures same { IsPermutation nodes.old.items nodes.new.items }
    ensures sorted { IsNonDecreasingBy (λ n. slice_index labels.now (n + 1)) nodes.new.items }
{
    nodes.sort_unstable_by_key(|node| label_of(labels, *node));
}

// Whether the label of a node is below that of another.
fn is_lower(labels: &[u64], node: u32, other: u32) -> bool
    requires { (node + 1 < length labels.now) × (other + 1 < length labels.now) }
    ensures { IsTrue result ↔ slice_index labels.now (node + 1) < slice_index labels.now (other + 1) }
{
    labels[node as usize + 1] < labels[other as usize + 1]
}

// What follows a node.
fn next_above(labels: &[u64], next: &[u32], node: u32) -> Option<u32>
    requires rising { IsRising labels.now next.now }
    requires node { node + 1 < length labels.now }
    ensures some { IfSome result (λ above. slice_index next.now (node + 1) ≡ above + 1) }
    ensures none { IfNone result (slice_index next.now (node + 1) ≡ 0) }
{
    let above = next[node as usize + 1];
    if above == 0 { None } else { Some(above - 1) }
}

// How many labels are below that of a node.
fn count_below(labels: &[u64], node: u32) -> u32
    requires short { length labels.now ≤ 2 ^ 32 }
    requires node { node + 1 < length labels.now }
    ensures { result ≡ labels_below labels.now (slice_index labels.now (node + 1)) }
{
    count_lower(labels, labels[node as usize + 1]) as u32
}

// How many labels are below one.
fn count_lower(labels: &[u64], label: u64) -> usize
    ensures { result ≡ labels_below labels.now label }
{
    labels.iter().filter(|other| **other < label).count()
}

// Puts a node before another.
fn move_under(
    labels: &mut Vec<u64>,
    next: &mut Vec<u32>,
    prev: &mut Vec<u32>,
    node: u32,
    mark: u32,
    many: u32,
)
    requires ring { IsRing labels.old.items next.old.items prev.old.items }
    requires nodes { (node + 1 < length labels.old.items) × (mark + 1 < length labels.old.items) }
    requires many { 0 < many }
    ensures ring { IsRing labels.new.items next.new.items prev.new.items }
    ensures put { PutsBefore (node + 1) (mark + 1) labels.old.items labels.new.items }
{
    move_before(labels, next, prev, node + 1, mark + 1, many);
}

// Puts a node before what follows another.
fn move_over(
    labels: &mut Vec<u64>,
    next: &mut Vec<u32>,
    prev: &mut Vec<u32>,
    node: u32,
    mark: u32,
    many: u32,
)
    requires ring { IsRing labels.old.items next.old.items prev.old.items }
    requires nodes { (node + 1 < length labels.old.items) × (mark + 1 < length labels.old.items) }
    requires many { 0 < many }
    ensures ring { IsRing labels.new.items next.new.items prev.new.items }
    ensures put { let above = slice_index next.old.items (mark + 1) in
        PutsBefore (node + 1) above labels.old.items labels.new.items }
{
    let above = next[mark as usize + 1];
    move_before(labels, next, prev, node + 1, above, many);
}
