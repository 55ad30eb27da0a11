//! The edges that a project wants between its rows, in the order of their ranks.

ghost use Rattle.std.specs.Prelude.{◌≡◌, ◌++◌, IfOk, OnOk};
ghost use Rattle.std.specs.List.{flat_map};
ghost use Rattle.pm_lower_crates.specs.JsonGathering.{json_edges_among, json_edges_from};
ghost use Rattle.pm_lower_crates.specs.JsonWantedEdges.{json_to_libraries, to_row};

use crate::front::PublicRows;
use crate::json_rows::{Row, row_at};
use crate::public_edges::{add_public, macros_edge};
use crate::wanted_edge::WantedEdge;
use base_text_paths::TryClone;
use std::alloc::{AllocError, Global};

// The edges of a row to a toolchain's libraries.
fn add_libraries(
    alloc: Global,
    public: &PublicRows,
    row: &Row,
    edges: &mut Vec<WantedEdge>,
) -> Result<(), AllocError>
    ensures { OnOk result (edges.new.items ≡ edges.old.items ++ json_to_libraries public.now row.now) }
{
    let source = row.number();
    add_public(alloc, public, source, edges)?;
    if let Some(macros) = public.macros() {
        let edge = macros_edge(alloc, source, macros, row.of().is_proc_macro)?;
        edges.push(edge)?;
    }
    Ok(())
}

// The edges of a row to those of its crate's dependencies that have one.
fn add_dependencies(
    alloc: Global,
    rows: &[Option<Row>],
    from: &Row,
    edges: &mut Vec<WantedEdge>,
) -> Result<(), AllocError>
    ensures { OnOk result (edges.new.items
        ≡ edges.old.items ++ flat_map (to_row rows.now from.now) from.now.of.deps) }
{
    for dep in from.of().deps.as_slice() {
        if let Some(to) = row_at(rows, dep.krate) {
            let name = dep.name.try_clone(alloc)?;
            edges.push(WantedEdge::new(from.number(), name, to.number()))?;
        }
    }
    Ok(())
}

// All edges of a row.
fn add_edges(
    alloc: Global,
    public: &PublicRows,
    rows: &[Option<Row>],
    from: &Row,
    edges: &mut Vec<WantedEdge>,
) -> Result<(), AllocError>
    ensures { OnOk result (edges.new.items
        ≡ edges.old.items ++ json_edges_from public.now rows.now from.now) }
{
    add_libraries(alloc, public, from, edges)?;
    add_dependencies(alloc, rows, from, edges)?;
    Ok(())
}

/// All edges that are wanted between the rows, and from them to public rows, in order of rank.
pub(crate) fn wanted_edges(
    alloc: Global,
    public: &PublicRows,
    rows: &[Option<Row>],
) -> Result<Vec<WantedEdge>, AllocError>
    ensures { IfOk result (λ edges. edges.items ≡ json_edges_among public.now rows.now) }
{
    let mut edges = Vec::new(alloc);
    for row in rows {
        if let Some(row) = row {
            add_edges(alloc, public, rows, row, &mut edges)?;
        }
    }
    Ok(edges)
}
