//! The edges of a row to a toolchain's libraries.

ghost use Rattle.std.specs.Prelude.{◌≡◌, ◌++◌, map, [], ◌∷◌, IfOk, OnOk, Some};
ghost use Rattle.base_text_paths.specs.Arena.{number_of};
ghost use Rattle.pm_lower_crates.specs.WantedEdges.{to_macros, to_public};

use crate::front::PublicRows;
use crate::wanted_edge::WantedEdge;
use base_text_paths::TryClone;
use crate_graph_values::{CrateBuilderId, CrateName, Dependency};
use std::alloc::{AllocError, Global};

/// The edges of a row to the public rows, in their order.
pub fn add_public(
    alloc: Global,
    public: &PublicRows,
    source: u32,
    edges: &mut Vec<WantedEdge>,
) -> Result<(), AllocError>
    ensures { OnOk result (edges.new.items
        ≡ edges.old.items ++ map (to_public source) public.now.rows) }
{
    for dep in public.rows() {
        edges.push(WantedEdge::of_dep(source, dep.try_clone(alloc)?))?;
    }
    Ok(())
}

/// The edge of a row to the library of procedural macros, which code of such macros names with no `extern crate`.
pub fn macros_edge(
    alloc: Global,
    source: u32,
    macros: CrateBuilderId,
    is_macro: bool,
) -> Result<WantedEdge, AllocError>
    ensures { IfOk result (λ edge.
        to_macros (Some (number_of macros)) source is_macro ≡ edge ∷ []) }
{
    let name = CrateName::normalize_dashes(alloc, "proc_macro")?;
    let dep = Dependency::with_prelude(name, macros, is_macro, true);
    Ok(WantedEdge::of_dep(source, dep))
}
