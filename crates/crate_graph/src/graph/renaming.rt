//! Crates under new numbers for those that they depend on.

ghost use Rattle.std.specs.Prelude.{◌≡◌, ◌^◌, ◌<◌, length, map, slice_get, IfOk};
ghost use Rattle.std.specs.BTreeMap as tree;
ghost use Rattle.std.specs.List.{All};
ghost use Rattle.std.specs.Option.{option_map};
ghost use Rattle.base_text_paths.specs.Arena.{number_of};
ghost use Rattle.base_values.specs.Sorted.{sorted};
ghost use Rattle.crate_graph.specs.Extend.{Id, by_number, with_dependencies, with_sorted_dependencies, with_new_ids, new_id_at};
ghost use Rattle.crate_graph.specs.Graph.{target_of};
ghost use Rattle.crate_graph_values.specs.Laws.{renamed_dependency};

use base_text_paths::{Items, TryClone};
use crate_graph_values::{CrateBuilder, CrateBuilderId, DependencyBuilder};
use std::alloc::{AllocError, Global};
use std::collections::BTreeMap;

// The dependencies in the order of their crates' numbers.
fn sorted_by_number(deps: Items<DependencyBuilder>) -> Result<Items<DependencyBuilder>, AllocError>
    ensures { IfOk result (λ deps_in_order. deps_in_order ≡ sorted by_number deps) }
{
    let mut deps = deps.into_inner();
    deps.sort_by_key(|dep| dep.crate_id.into_raw())?;
    Ok(Items::new(deps))
}

// A copy of a crate with other dependencies, which are sorted.
#[tactic(auto, unfolding(crate::specs::Extend::with_dependencies))]
fn copy_with_dependencies(
    alloc: Global,
    krate: &CrateBuilder,
    deps: Items<DependencyBuilder>,
) -> Result<CrateBuilder, AllocError>
    ensures { IfOk result (λ copy. copy ≡ with_dependencies deps krate.now) }
{
    let deps = sorted_by_number(deps)?;
    let mut copy = krate.try_clone(alloc)?;
    copy.basic.dependencies = deps;
    Ok(copy)
}

// Copies of crates, the dependencies of each sorted.
pub(super) fn copies_in_order(
    alloc: Global,
    crates: &[CrateBuilder],
) -> Result<Vec<CrateBuilder>, AllocError>
    ensures { IfOk result (λ copies. copies.items ≡ map with_sorted_dependencies crates.now) }
{
    let mut copies = Vec::new(alloc);
    for krate in crates {
        let deps = krate.basic.dependencies.try_clone(alloc)?;
        copies.push(copy_with_dependencies(alloc, krate, deps)?)?;
    }
    Ok(copies)
}

// The new number of a crate of the other graph.
pub(super) fn new_id_at(new_numbers: &[u32], id: CrateBuilderId) -> CrateBuilderId
    requires { number_of id < length new_numbers.now }
    ensures { result ≡ new_id_at new_numbers.now id }
{
    CrateBuilderId::from_raw(new_numbers[id.into_raw() as usize])
}

// Copies of dependencies under the new numbers of their crates.
pub(super) fn renamed_dependencies(
    alloc: Global,
    new_numbers: &[u32],
    deps: &[DependencyBuilder],
) -> Result<Items<DependencyBuilder>, AllocError>
    requires { All (λ dep. target_of dep < length new_numbers.now) deps.now }
    ensures { IfOk result
        (λ copies. copies ≡ map (renamed_dependency (new_id_at new_numbers.now)) deps.now) }
{
    let mut copies = Vec::new(alloc);
    for dep in deps {
        copies.push(dep.with_id(alloc, new_id_at(new_numbers, dep.crate_id))?)?;
    }
    Ok(Items::new(copies))
}

// A copy of a crate of the other graph, under the new numbers of those that it depends on.
pub(super) fn renamed_copy(
    alloc: Global,
    new_numbers: &[u32],
    krate: &CrateBuilder,
) -> Result<CrateBuilder, AllocError>
    requires { All (λ dep. target_of dep < length new_numbers.now) krate.now.basic.dependencies }
    ensures { IfOk result (λ copy. copy ≡ with_new_ids (new_id_at new_numbers.now) krate.now) }
{
    let deps = renamed_dependencies(alloc, new_numbers, krate.basic.dependencies.as_slice())?;
    copy_with_dependencies(alloc, krate, deps)
}

// The new numbers as a map.
pub(super) fn ids_of_numbers(
    alloc: Global,
    new_numbers: &[u32],
) -> Result<BTreeMap<CrateBuilderId, CrateBuilderId>, AllocError>
    requires { length new_numbers.now < 2 ^ 32 }
    ensures { IfOk result (λ ids. (id : Id)
        → option_map number_of (tree.get ⟦<CrateBuilderId as Ord>⟧.cmp ids id)
        ≡ slice_get new_numbers.now (number_of id)) }
{
    let mut ids = BTreeMap::new(alloc);
    for (old, new) in new_numbers.iter().enumerate() {
        let old = CrateBuilderId::from_raw(old as u32);
        drop(ids.insert(old, CrateBuilderId::from_raw(*new))?);
    }
    Ok(ids)
}
