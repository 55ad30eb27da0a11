//! A graph that keeps the targets of each node, and that of another one whose edges lead back.

ghost use Rattle.std.specs.Prelude.{◌≡◌, ◌↔◌, ◌⊎◌, ℕ, ◌<◌, ◌^◌, [], length, replicate, IfOk, OnOk};
ghost use Rattle.graph_base.specs.Edges.{HasEdge, IsInRange, with_edge};
ghost use Rattle.graph_base.specs.Reach.{Reaches};
ghost use Rattle.graph_base.specs.Reversed.{IsGraph, IsReversed, target_rows};

use crate::graph::Graph;
use std::alloc::{AllocError, Global};
use std::marker::Model;

/// A graph that keeps each row as a list of targets.
#[derive(Drop)]
pub struct Rows {
    rows: Vec<Vec<u32>>,
}

/// Contracts see the graph as its rows.
impl Model for Rows {
    ghost use Rattle.std.specs.Prelude.{ℕ, List};
    ghost use Rattle.graph_base.specs.Reversed.{IsGraph, target_rows};

    ghost Value = { List (List ℕ) };

    ghost view = { λ a. target_rows a.rows.items };

    ghost invariant = { λ a. IsGraph (target_rows a.rows.items) };
}

impl Rows {
    /// The graph of some rows, which it takes as they are.
    pub fn new(rows: Vec<Vec<u32>>) -> Self
        requires { IsGraph (target_rows rows.items) }
        ensures { result ≡ target_rows rows.items }
    {
        Rows { rows }
    }

    /// The graph of the edges that lead back. It takes memory for each node and each edge.
    pub fn reversed<G: Graph>(alloc: Global, graph: &G) -> Result<Self, AllocError>
        ensures edges { IfOk result (λ back. IsReversed back (G.rows graph.now)) }
        ensures reach { IfOk result (λ back. (a b : ℕ)
            → Reaches back b a ↔ Reaches (G.rows graph.now) a b) }
    {
        let count = graph.count();
        let mut back = Rows::with_nodes(alloc, count)?;
        for source in 0..count {
            back.lead_back(graph, source)?;
        }
        Ok(back)
    }

    /// The rows, one for each node.
    pub fn as_slice(&self) -> &[Vec<u32>]
        ensures { target_rows result.now ≡ self.now }
    {
        self.rows.as_slice()
    }

    // So many nodes, and no edges.
    fn with_nodes(alloc: Global, count: u32) -> Result<Self, AllocError>
        ensures { IfOk result (λ back. back ≡ replicate count []) }
    {
        let mut rows = Vec::with_capacity(alloc, count as usize)?;
        for _ in 0..count {
            rows.push(Vec::new(alloc))?;
        }
        Ok(Rows { rows })
    }

    // Adds an edge.
    fn add_edge(&mut self, from: u32, to: u32) -> Result<(), AllocError>
        requires from { from < length self.old }
        requires to { to < length self.old }
        ensures { OnOk result (self.new ≡ with_edge self.old from to) }
    {
        self.rows[from as usize].push(to)?;
        Ok(())
    }

    // Adds an edge back to a node from the target of each of its edges.
    fn lead_back<G: Graph>(&mut self, graph: &G, source: u32) -> Result<(), AllocError>
        requires source { source < length (G.rows graph.now) }
        requires nodes { length self.old ≡ length (G.rows graph.now) }
        requires in_range { IsInRange (G.rows graph.now) }
        ensures nodes { OnOk result (length self.new ≡ length self.old) }
        ensures edges { OnOk result ((a b : ℕ) → HasEdge self.new b a
            ↔ (HasEdge self.old b a ⊎ ((a ≡ source) × HasEdge (G.rows graph.now) source b))) }
    {
        for place in 0..graph.degree(source) {
            let target = graph.target(source, place);
            self.add_edge(target, source)?;
        }
        Ok(())
    }
}

impl Graph for Rows {
    ghost rows = { λ graph. graph };

    fn count(&self) -> u32 {
        self.rows.len() as u32
    }

    fn degree(&self, node: u32) -> usize {
        self.rows[node as usize].len()
    }

    fn target(&self, node: u32, place: usize) -> u32 {
        self.rows[node as usize][place]
    }
}
