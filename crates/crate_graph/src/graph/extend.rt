//! A graph takes another's crates in, so that what both have stands once.

ghost use Rattle.std.specs.Prelude.{◌≡◌, ◌↔◌, ◌⊎◌, ◌<◌, length};
ghost use Rattle.std.specs.Prelude.{IfOk, IsErrOf, IsSome, OnErr};
ghost use Rattle.std.specs.BTreeMap as tree;
ghost use Rattle.std.specs.List.{All};
ghost use Rattle.base_text_paths.specs.Arena.{number_of};
ghost use Rattle.crate_graph.specs.Extend.{HoldsBoth, Id, Merges, PassesLimit, moved_entry, new_id};

mod macros;
mod merge;
mod places;

use crate::graph::renaming::ids_of_numbers;
use crate::graph::{CrateGraphBuilder, GraphError};
use crate_graph_values::{CrateBuilder, CrateBuilderId, ProcMacroPaths};
use std::alloc::Global;
use std::collections::BTreeMap;

impl CrateGraphBuilder {
    /// Takes the crates of another graph in, each after those that it depends on, in the order of their
    /// numbers and of their dependencies. A crate that is equal to one of this graph's old crates, its
    /// dependencies under their new numbers, becomes the first such one; any other is appended. All
    /// dependencies are sorted by number. The answer is the number that each crate of the other graph
    /// has here. The libraries of procedural macros follow their crates; where two crates become one,
    /// that of the greater old number stays.
    pub fn extend(
        &mut self,
        alloc: Global,
        other: CrateGraphBuilder,
        proc_macros: &mut ProcMacroPaths,
    ) -> Result<BTreeMap<CrateBuilderId, CrateBuilderId>, GraphError>
        requires { All (λ id. number_of id < length other.crates) (tree.keys proc_macros.old) }
        // What the graph is then, and where each crate of the other is in it.
        ensures joined { IfOk result (λ ids. Merges ⟦<CrateBuilder as PartialEq>⟧.eq
            self.old other self.new (new_id ⟦<CrateBuilderId as Ord>⟧.cmp ids)) }
        ensures both { IfOk result (λ ids. HoldsBoth ⟦<CrateBuilder as PartialEq>⟧.eq
            self.old.crates other.crates self.new.crates
            (new_id ⟦<CrateBuilderId as Ord>⟧.cmp ids)) }
        ensures ids { IfOk result (λ ids. (id : Id)
            → IsSome (tree.get ⟦<CrateBuilderId as Ord>⟧.cmp ids id)
            ↔ (number_of id < length other.crates)) }
        ensures macros { IfOk result (λ ids. (id : Id)
            → tree.get ⟦<CrateBuilderId as Ord>⟧.cmp proc_macros.new id
            ≡ moved_entry (new_id ⟦<CrateBuilderId as Ord>⟧.cmp ids) proc_macros.old.entries id) }
        // Refusals.
        ensures too_many { IsErrOf result GraphError.OutOfMemory
            ⊎ (IsErrOf result GraphError.TooMany
            ↔ PassesLimit ⟦<CrateBuilder as PartialEq>⟧.eq self.old other) }
        ensures unchanged { OnErr result ((self.new ≡ self.old)
            × tree.IsUnchanged proc_macros.old proc_macros.new) }
    {
        let order = graph_base::finish_order(alloc, &other)?;
        let merge = merge::join(alloc, self.limit, &self.crates, &other.crates, &order)?;
        let more = merge.len() - self.crates.len();
        let ranks = self.order.with_next_nodes(alloc, more)?;
        let ids = ids_of_numbers(alloc, merge.new_numbers())?;
        let macros = macros::renumber_macros(alloc, merge.new_numbers(), proc_macros)?;
        self.crates = merge.into_crates();
        self.order = ranks;
        *proc_macros = macros;
        Ok(ids)
    }
}
