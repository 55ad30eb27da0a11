//! One more edge: it fits the order, or has nodes change their ranks, or closes a cycle.

ghost use Rattle.std.specs.Prelude.{◌≡◌, ℕ, ◌+◌, ◌<◌, ◌≤◌, length, slice_index, IfErr, IfOk, OnOk};
ghost use Rattle.graph_base.specs.Edges.{IsInRange};
ghost use Rattle.graph_base.specs.Reach.{IsPathBack, Reaches};
ghost use Rattle.graph_base.specs.Trail.{IsClearable, empty_trail};
ghost use Rattle.graph_base.specs.Ranks.{AreRanks};
ghost use Rattle.base_text_outside.specs.Causes.{raised_by};
ghost use Rattle.crate_graph.specs.Insertion.{CountsVisits, GivesRoom, most_visits};
ghost use Rattle.crate_graph.specs.Order.{AreKeptRanks, Descends, ranking};
ghost use Rattle.crate_graph.specs.Walking.{IsPlaced};

use crate::order::Order;
use crate::placing::Placement;
use crate::search::search_above;
use crate::walking::unmarked_between;
use base_text_paths::{Ledger, Steps};
use graph_base::{Graph, LabelTable, Trail, trace};
use std::alloc::{AllocError, Global};
use std::marker::Model;

/// The marks of a search, which one search after another uses: each takes them back.
#[derive(Drop)]
pub struct Marks {
    trail: Trail,
}

/// Contracts see nothing of them.
impl Model for Marks {
    ghost use Rattle.std.specs.Prelude.{◌≡◌, ℕ, length};
    ghost use Rattle.graph_base.specs.Trail.{empty_trail};

    ghost Value = { ℕ };

    ghost view = { λ a. length a.trail.marks };

    ghost invariant = { λ a. a.trail ≡ empty_trail (length a.trail.marks) };
}

impl Marks {
    /// Marks for no nodes: a search takes what it needs.
    pub fn new(alloc: Global) -> Marks {
        Marks {
            trail: Trail::empty(alloc),
        }
    }
}

impl Order {
    /// How the nodes are to be placed so that an edge from one node to another leads down too, as all
    /// edges of the graph do. Where the other node reaches the first there is no such order, and the
    /// answer is a path, listed from its end. Each node that the search visits is a step.
    pub fn room_for<G: Graph, L: Ledger>(
        &self,
        alloc: Global,
        graph: &G,
        from: u32,
        to: u32,
        marks: &mut Marks,
        steps: &mut Steps<L>,
    ) -> Result<Result<Placement, Vec<u32>>, AllocError>
        requires count { length self.now.nodes ≡ length (G.rows graph.now) }
        requires in_range { IsInRange (G.rows graph.now) }
        requires descends { Descends self.now.ranks (G.rows graph.now) }
        requires nodes { (from < length self.now.nodes) × (to < length self.now.nodes) }
        ensures room { IfOk result (λ answer. IfOk answer
            (GivesRoom (G.rows graph.now) from to self.now)) }
        ensures apart { IfOk result (λ answer. IfOk answer
            (λ _. Reaches (G.rows graph.now) to from → ⊥)) }
        ensures path { IfOk result (λ answer. IfErr answer
            (λ path. IsPathBack (G.rows graph.now) path.items from to)) }
        ensures visits { OnOk result (CountsVisits (G.rows graph.now) from to self.now
            (L.count steps.old.ledger) (L.count steps.new.ledger)) }
        ensures steps { L.count steps.new.ledger
            ≤ L.count steps.old.ledger + most_visits self.now from to }
    {
        let Some(table) = &self.table else {
            unreachable!()
        };
        if table.is_below(to, from) {
            return Ok(Ok(Placement::below(from, Vec::new(alloc))));
        }
        marks.trail.resize(graph.count())?;
        let answer = find_room(alloc, graph, table, from, to, &mut marks.trail, steps);
        marks.trail.clear();
        answer
    }
}

// The answer where the edge does not lead down yet. What was found stays in the trail.
fn find_room<G: Graph, L: Ledger>(
    alloc: Global,
    graph: &G,
    table: &LabelTable,
    from: u32,
    to: u32,
    trail: &mut Trail,
    steps: &mut Steps<L>,
) -> Result<Result<Placement, Vec<u32>>, AllocError>
    requires kept { AreKeptRanks table.now }
    requires count { length table.now ≡ length (G.rows graph.now) }
    requires in_range { IsInRange (G.rows graph.now) }
    requires descends { Descends table.now (G.rows graph.now) }
    requires nodes { (from < length table.now) × (to < length table.now) }
    requires up { slice_index table.now from ≤ slice_index table.now to }
    requires empty { trail.old ≡ empty_trail (length (G.rows graph.now)) }
    ensures room { IfOk result (λ answer. IfOk answer
        (GivesRoom (G.rows graph.now) from to (ranking table.now))) }
    ensures apart { IfOk result (λ answer. IfOk answer
        (λ _. Reaches (G.rows graph.now) to from → ⊥)) }
    ensures path { IfOk result (λ answer. IfErr answer
        (λ path. IsPathBack (G.rows graph.now) path.items from to)) }
    ensures visits { OnOk result (CountsVisits (G.rows graph.now) from to (ranking table.now)
        (L.count steps.old.ledger) (L.count steps.new.ledger)) }
    ensures steps { L.count steps.new.ledger
        ≤ L.count steps.old.ledger + most_visits (ranking table.now) from to }
    ensures clearable { IsClearable (length (G.rows graph.now)) trail.new }
{
    search_above(graph, table, trail, from, to)?;
    count_steps(trail.nodes().len(), steps);
    match trail.place_of(from) {
        Some(place) => {
            let path = trace(alloc, trail, place)?;
            Ok(Err(path))
        }
        None => {
            let placement = place(alloc, table, trail, from, to)?;
            Ok(Ok(placement))
        }
    }
}

// Counts so many steps.
fn count_steps<L: Ledger>(count: usize, steps: &mut Steps<L>)
    ensures { L.count steps.new.ledger ≡ raised_by count (L.count steps.old.ledger) }
{
    for _ in 0..count {
        steps.ledger.tick();
    }
}

// Where the nodes between two go that are found and that are not: the fewer of both move.
fn place(
    alloc: Global,
    table: &LabelTable,
    trail: &Trail,
    from: u32,
    to: u32,
) -> Result<Placement, AllocError>
    requires ranks { AreRanks table.now }
    requires marks { length trail.now.marks ≡ length table.now }
    requires found { (k : ℕ) → k < length trail.now.nodes
        → slice_index trail.now.nodes k < length table.now }
    requires nodes { (from < length table.now) × (to < length table.now) }
    requires up { slice_index table.now from ≤ slice_index table.now to }
    ensures { IfOk result (IsPlaced table.now from to trail.now) }
{
    let found = trail.nodes();
    match unmarked_between(alloc, table, trail.marks(), from, to, found.len())? {
        Some(nodes) => Ok(Placement::above(to, nodes)),
        None => {
            let mut nodes = Vec::with_capacity(alloc, found.len())?;
            nodes.extend_from_slice(found)?;
            table.sort(&mut nodes);
            Ok(Placement::below(from, nodes))
        }
    }
}
