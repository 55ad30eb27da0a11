//! Crates of a graph under the numbers that their dependencies have in the database.

ghost use Rattle.std.specs.Prelude.{◌≡◌, ◌<◌, IfOk, if◌then◌else◌, length, map};
ghost use Rattle.std.specs.List.{All};
ghost use Rattle.crate_graph.specs.Graph.{target_of};
ghost use Rattle.crate_graph_values.specs.Laws.{renamed_dependency};
ghost use Rattle.input_db.specs.Identity.{full_identity, data_of, input_of, number_in, root_identity};

use crate::crate_input::{BuiltCrateData, BuiltDependency, Crate, CrateInput, UniqueCrateData};
use base_text_paths::{Boxed, Items, TryClone};
use crate_graph_values::{CrateBuilder, DependencyBuilder};
use input_db_files::Durability;
use std::alloc::{AllocError, Global};

// A dependency by its number in the database.
fn renamed_dependency(
    alloc: Global,
    numbers: &[Crate],
    dep: &DependencyBuilder,
) -> Result<BuiltDependency, AllocError>
    requires { target_of dep.now < length numbers.now }
    ensures { IfOk result (λ new. new ≡ renamed_dependency (number_in numbers.now) dep.now) }
{
    let name = dep.name.try_clone(alloc)?;
    let krate = numbers[dep.crate_id.into_raw() as usize];
    Ok(BuiltDependency::with_prelude(name, krate, dep.is_prelude(), dep.is_sysroot()))
}

// Dependencies by their numbers in the database.
fn renamed_dependencies(
    alloc: Global,
    numbers: &[Crate],
    deps: &[DependencyBuilder],
) -> Result<Items<BuiltDependency>, AllocError>
    requires { All (λ dep. target_of dep < length numbers.now) deps.now }
    ensures { IfOk result (λ new. new ≡ map (renamed_dependency (number_in numbers.now)) deps.now) }
{
    let mut renamed = Vec::with_capacity(alloc, deps.len())?;
    for dep in deps {
        renamed.push(renamed_dependency(alloc, numbers, dep)?)?;
    }
    Ok(Items::new(renamed))
}

// The data of a crate, with dependencies by their numbers in the database.
fn data_of(
    alloc: Global,
    numbers: &[Crate],
    krate: &CrateBuilder,
) -> Result<BuiltCrateData, AllocError>
    requires { All (λ dep. target_of dep < length numbers.now) krate.now.basic.dependencies }
    ensures { IfOk result (λ made. made ≡ data_of (number_in numbers.now) krate.now) }
{
    let basic = &krate.basic;
    let dependencies = renamed_dependencies(alloc, numbers, basic.dependencies.as_slice())?;
    let crate_attrs = basic.crate_attrs.try_clone(alloc)?;
    let proc_macro_cwd = basic.proc_macro_cwd.try_clone(alloc)?;
    let origin = basic.origin.try_clone(alloc)?;
    Ok(BuiltCrateData {
        root_file_id: basic.root_file_id,
        edition: basic.edition,
        dependencies,
        origin,
        crate_attrs,
        target_kind: basic.target_kind,
        proc_macro_cwd,
    })
}

// What the database is to hold of a crate of the graph.
pub(super) fn input_of(
    alloc: Global,
    numbers: &[Crate],
    krate: &CrateBuilder,
) -> Result<CrateInput, AllocError>
    requires { All (λ dep. target_of dep < length numbers.now) krate.now.basic.dependencies }
    ensures { IfOk result (λ input. input ≡ input_of (number_in numbers.now) krate.now) }
{
    let workspace_data = krate.shared_ws_data().try_clone(alloc)?;
    let cfg_options = krate.cfg_options.try_clone(alloc)?;
    let env = krate.env.try_clone(alloc)?;
    let extra_data = krate.extra.try_clone(alloc)?;
    let crate_data = data_of(alloc, numbers, krate)?;
    Ok(CrateInput {
        crate_data,
        extra_data,
        workspace_data,
        cfg_options,
        env,
        durability: Durability::Medium,
    })
}

// The identity of a crate: its root file alone, where it is the first of that.
pub(super) fn unique_of(
    alloc: Global,
    is_first: bool,
    input: &CrateInput,
) -> Result<UniqueCrateData, AllocError>
    ensures { let file = input.now.crate_data.root_file_id in IfOk result (λ unique. unique
        ≡ (if is_first then root_identity file
        else full_identity file input.now.crate_data input.now.cfg_options)) }
{
    let root_file_id = input.crate_data.root_file_id;
    if is_first {
        return Ok(UniqueCrateData {
            root_file_id,
            disambiguator: None,
        });
    }
    let cfg_options = input.cfg_options.try_clone(alloc)?;
    let data = input.crate_data.try_clone(alloc)?;
    let pair = Boxed::new(alloc, (data, cfg_options))?;
    Ok(UniqueCrateData {
        root_file_id,
        disambiguator: Some(pair),
    })
}
