//! A graph of which only some crates are kept, numbered anew in their order.

ghost use Rattle.std.specs.Prelude.{◌≡◌, ◌↔◌, ℕ, ◌<◌, ◌^◌, true, false, length, map};
ghost use Rattle.std.specs.Prelude.{IfOk, IsTrue, OnErr, OnOk, slice_index_or};
ghost use Rattle.std.specs.List.{All, list_all, range_with_len};
ghost use Rattle.std.specs.Option.{option_map};
ghost use Rattle.base_text_paths.specs.Arena.{number_of};
ghost use Rattle.graph_base.specs.Kept.{IsClosed, is_named, kept_below, kept_rows};
ghost use Rattle.crate_graph.specs.Order.{IsOrderOf};
ghost use Rattle.crate_graph.specs.Suborder.{kept_nodes, new_number};
ghost use Rattle.crate_graph.specs.Graph.{edges, dependency_row, target_of};
ghost use Rattle.crate_graph.specs.Prune.{KeepsNamed, Stays, kept_crates, number_after_prune};
ghost use Rattle.crate_graph.specs.Prune.{renumbered_crate};

use crate::graph::CrateGraphBuilder;
use crate::graph::renaming::renamed_dependencies;
use crate::order::Order;
use base_text_paths::TryClone;
use crate_graph_values::{CrateBuilder, CrateBuilderId};
use std::alloc::{AllocError, Global};

impl CrateGraphBuilder {
    /// Whether the named crates are of the graph and name all that they depend on.
    pub fn is_closed(&self, to_keep: &[CrateBuilderId]) -> bool
        ensures { IsTrue result ↔ IsClosed (edges self.now.crates) (map number_of to_keep.now) }
    {
        for id in to_keep {
            if !self.stays(*id, to_keep) {
                return false;
            }
        }
        true
    }

    // Whether a crate is of the graph and depends on named crates alone.
    fn stays(&self, id: CrateBuilderId, to_keep: &[CrateBuilderId]) -> bool
        ensures { IsTrue result
            ↔ Stays (edges self.now.crates) (map number_of to_keep.now) (number_of id) }
    {
        self.contains(id) && names_all(to_keep, &self[id])
    }

    /// Keeps the named crates alone, in the graph's order, and answers for each old number the new
    /// one. `is_closed` tests whether a list may be kept.
    pub fn remove_crates_except(
        &mut self,
        alloc: Global,
        to_keep: &[CrateBuilderId],
    ) -> Result<Vec<Option<CrateBuilderId>>, AllocError>
        requires { IsClosed (edges self.old.crates) (map number_of to_keep.now) }
        ensures kept { OnOk result (KeepsNamed self.old self.new (map number_of to_keep.now)) }
        ensures numbers { IfOk result (λ ids. map (option_map number_of) ids.items
            ≡ map (new_number (map number_of to_keep.now))
            (range_with_len 0 (length self.old.crates))) }
        ensures unchanged { OnErr result (self.new ≡ self.old) }
    {
        let order = self.suborder(alloc, to_keep)?;
        let (kept, ids) = self.copy_crates(alloc, to_keep)?;
        self.crates = kept;
        self.order = order;
        Ok(ids)
    }

    // The order of the named crates alone.
    fn suborder(&self, alloc: Global, to_keep: &[CrateBuilderId]) -> Result<Order, AllocError>
        requires { IsClosed (edges self.now.crates) (map number_of to_keep.now) }
        ensures nodes { IfOk result (λ order. order.nodes
            ≡ kept_nodes (map number_of to_keep.now) self.now.order.nodes) }
        ensures order { IfOk result (λ order. IsOrderOf order
            (kept_rows (map number_of to_keep.now) 0 (edges self.now.crates))) }
    {
        let keep = numbers_of(alloc, to_keep)?;
        self.order.suborder(alloc, &keep)
    }

    // Copies of the crates that are named, by the new numbers, and the new number of each crate.
    fn copy_crates(
        &self,
        alloc: Global,
        to_keep: &[CrateBuilderId],
    ) -> Result<(Vec<CrateBuilder>, Vec<Option<CrateBuilderId>>), AllocError>
        requires { IsClosed (edges self.now.crates) (map number_of to_keep.now) }
        ensures crates { IfOk result (λ made. made.0.items
            ≡ kept_crates (map number_of to_keep.now) 0 self.now.crates) }
        ensures numbers { IfOk result (λ made. map (option_map number_of) made.1.items
            ≡ map (new_number (map number_of to_keep.now))
            (range_with_len 0 (length self.now.crates))) }
    {
        let (ids, numbers) = new_ids(alloc, to_keep, self.crates.len())?;
        let mut kept = Vec::new(alloc);
        for (place, krate) in self.crates.iter().enumerate() {
            if ids[place].is_some() {
                kept.push(renumbered_copy(alloc, krate, &numbers)?)?;
            }
        }
        Ok((kept, ids))
    }
}

// The numbers of some crates, as a list names them.
fn numbers_of(alloc: Global, ids: &[CrateBuilderId]) -> Result<Vec<u32>, AllocError>
    ensures { IfOk result (λ numbers. numbers.items ≡ map number_of ids.now) }
{
    let mut numbers = Vec::with_capacity(alloc, ids.len())?;
    for id in ids {
        numbers.push(id.into_raw())?;
    }
    Ok(numbers)
}

// Whether a list names all that a crate depends on.
fn names_all(to_keep: &[CrateBuilderId], krate: &CrateBuilder) -> bool
    ensures { result ≡ list_all (is_named (map number_of to_keep.now)) (dependency_row krate.now) }
{
    for dep in krate.basic.dependencies.as_slice() {
        if !names(to_keep, dep.crate_id) {
            return false;
        }
    }
    true
}

// Whether a list names a crate.
fn names(to_keep: &[CrateBuilderId], id: CrateBuilderId) -> bool
    ensures { result ≡ is_named (map number_of to_keep.now) (number_of id) }
{
    to_keep.contains(&id)
}

// Of each crate, whether it is named.
fn marks_of(
    alloc: Global,
    to_keep: &[CrateBuilderId],
    count: usize,
) -> Result<Vec<bool>, AllocError>
    requires { (n : ℕ) → is_named (map number_of to_keep.now) n ≡ true → n < count }
    ensures long { IfOk result (λ marks. length marks.items ≡ count) }
    ensures named { IfOk result (λ marks. (n : ℕ) → n < count
        → slice_index_or marks.items n false ≡ is_named (map number_of to_keep.now) n) }
{
    let mut marks = vec![in alloc; false; count]?;
    for id in to_keep {
        marks[id.into_raw() as usize] = true;
    }
    Ok(marks)
}

// Of each crate its new number where it is named, and how many crates before it are named.
fn new_ids(
    alloc: Global,
    to_keep: &[CrateBuilderId],
    count: usize,
) -> Result<(Vec<Option<CrateBuilderId>>, Vec<u32>), AllocError>
    requires short { count < 2 ^ 32 }
    requires known { (n : ℕ) → is_named (map number_of to_keep.now) n ≡ true → n < count }
    ensures ids { IfOk result (λ made. map (option_map number_of) made.0.items
        ≡ map (new_number (map number_of to_keep.now)) (range_with_len 0 count)) }
    ensures numbers { IfOk result (λ made. made.1.items
        ≡ map (kept_below (map number_of to_keep.now)) (range_with_len 0 count)) }
{
    let marks = marks_of(alloc, to_keep, count)?;
    let mut ids = Vec::with_capacity(alloc, count)?;
    let mut numbers = Vec::with_capacity(alloc, count)?;
    let mut next = 0;
    for mark in &marks {
        numbers.push(next)?;
        if *mark {
            ids.push(Some(CrateBuilderId::from_raw(next)))?;
            next += 1;
        } else {
            ids.push(None)?;
        }
    }
    Ok((ids, numbers))
}

// A copy of a crate whose dependencies go by the new numbers.
fn renumbered_copy(
    alloc: Global,
    krate: &CrateBuilder,
    numbers: &[u32],
) -> Result<CrateBuilder, AllocError>
    requires { All (λ dep. target_of dep < length numbers.now) krate.now.basic.dependencies }
    ensures { IfOk result (λ copy. copy ≡ renumbered_crate (number_after_prune numbers.now) krate.now) }
{
    let deps = renamed_dependencies(alloc, numbers, krate.basic.dependencies.as_slice())?;
    let mut copy = krate.try_clone(alloc)?;
    copy.basic.dependencies = deps;
    Ok(copy)
}
