//! All graphs of up to four crates, each answer to an edge beside a plain closure of the edges before.

ghost use Rattle.std.specs.Prelude.{◌≤◌, ◌<◌};

use crate::making::{add, depend_on};
use cases::{Case, Fault};
use crate_graph::{CrateBuilderId, CrateGraphBuilder};
use std::alloc::Global;

/// Whether there is an edge, or a path, from each of four crates to each.
type Matrix = [[bool; 4]; 4];

/// Which crates each crate reaches: each itself, and then over one crate more again and again.
fn closure(edges: &Matrix) -> Matrix {
    let mut reach = *edges;
    for node in 0..4 {
        reach = with_edge(reach, node, node);
    }
    for over in 0..4 {
        reach = join_paths(&reach, over);
    }
    reach
}

fn with_edge(edges: Matrix, from: usize, to: usize) -> Matrix
    requires from { from < 4 }
    requires to { to < 4 }
{
    let mut edges = edges;
    let mut row = edges[from];
    row[to] = true;
    edges[from] = row;
    edges
}

// What is reached where paths may lead over a crate.
fn join_paths(reach: &Matrix, over: usize) -> Matrix
    requires { over < 4 }
{
    let mut joined = *reach;
    for from in 0..4 {
        if reach[from][over] {
            let row = either(reach[from], reach[over]);
            joined[from] = row;
        }
    }
    joined
}

fn either(row: [bool; 4], other: [bool; 4]) -> [bool; 4] {
    let mut either = row;
    for to in 0..4 {
        if other[to] {
            either[to] = true;
        }
    }
    either
}

/// Adds an edge, and returns whether it was taken, if the answer agrees with the closure of the edges before.
fn agrees_on_edge(
    alloc: Global,
    graph: &mut CrateGraphBuilder,
    edges: &Matrix,
    from: u32,
    to: u32,
) -> Result<Option<bool>, Fault>
    requires from { from < 4 }
    requires to { to < 4 }
{
    let is_cyclic = closure(edges)[to as usize][from as usize];
    let (source, target) = (CrateBuilderId::from_raw(from), CrateBuilderId::from_raw(to));
    let is_taken = depend_on(alloc, graph, source, target)?.is_ok();
    if is_taken == is_cyclic {
        return Ok(None);
    }
    Ok(Some(is_taken))
}

/// Whether each answer agrees on the graph of a mask.
fn agrees(alloc: Global, krate: Case<'_>, count: u32, mask: u32) -> Result<bool, Fault>
    requires { count ≤ 4 }
{
    let mut graph = Box::new(alloc, CrateGraphBuilder::new(alloc, count))?;
    for _ in 0..count {
        if add(alloc, &mut graph, krate)?.is_err() {
            return Err(Fault::Condition);
        }
    }
    agrees_on_edges(alloc, &mut graph, count, mask)
}

/// Adds the edges of a mask in order, and one from each crate to itself, and returns whether all agree.
fn agrees_on_edges(
    alloc: Global,
    graph: &mut CrateGraphBuilder,
    count: u32,
    mask: u32,
) -> Result<bool, Fault>
    requires { count ≤ 4 }
{
    let mut edges = [[false; 4]; 4];
    let mut left = mask;
    for from in 0..count {
        for to in 0..count {
            let is_wanted = from == to || left & 1 == 1;
            if from != to {
                left >>= 1;
            }
            if is_wanted {
                let Some(is_taken) = agrees_on_edge(alloc, graph, &edges, from, to)? else {
                    return Ok(false);
                };
                if is_taken {
                    edges = with_edge(edges, from as usize, to as usize);
                }
            }
        }
    }
    Ok(true)
}

/// Whether each answer agrees, on all graphs of up to four crates, which are all alike.
pub fn agrees_on_all(alloc: Global, krate: Case<'_>) -> Result<bool, Fault> {
    for (count, graphs) in [(0, 1), (1, 1), (2, 4), (3, 64), (4, 4096)] {
        for mask in 0..graphs {
            if !agrees(alloc, krate, count, mask)? {
                return Ok(false);
            }
        }
    }
    Ok(true)
}
