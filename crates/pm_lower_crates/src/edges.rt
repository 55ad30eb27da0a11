//! The edges that a workspace wants between its rows, in the order of their ranks.

ghost use Rattle.std.specs.Prelude.{◌≡◌, [], ◌∷◌, ◌++◌, true, false, IfErr, IfOk, OnOk, Some, slice_get};
ghost use Rattle.std.specs.Option.{option_copied};
ghost use Rattle.base_text_paths.specs.Arena.{number_of};
ghost use Rattle.crate_graph_values.specs.Names.{has_dash};
ghost use Rattle.pm_lower_crates.specs.Gathering.{edges_between, libraries_of, macros_of, to_dependencies, to_dependency, to_libraries};
ghost use Rattle.pm_lower_crates.specs.Refusal.{IfBadName};
ghost use Rattle.pm_lower_crates.specs.WantedEdges.{bad_name_of, bad_names_of, bad_names_of_owners, is_delayed, is_for, uses_library};

use crate::front::PublicRows;
use crate::lower_error::LowerError;
use crate::public_edges::{add_public, macros_edge};
use crate::rows::{Owner, Row, is_build_script, is_lib, is_macro};
use crate::wanted_edge::WantedEdge;
use base_text_paths::{Text, TryClone};
use crate_graph_values::CrateName;
use pm_cargo_packages::{DepKind, Package, PackageDependency};
use std::alloc::{AllocError, Global};

// Whether a row depends on its package's library.
fn uses_library(library: &Row, row: &Row) -> bool
    ensures { result ≡ uses_library library.now row.now }
{
    row.place() != library.place() && !is_build_script(row.target().kind)
}

// The edge of a row to the library of procedural macros.
fn add_macros(
    alloc: Global,
    public: &PublicRows,
    row: &Row,
    edges: &mut Vec<WantedEdge>,
) -> Result<(), AllocError>
    ensures { OnOk result (edges.new.items ≡ edges.old.items ++ macros_of public.now row.now) }
{
    if let Some(macros) = public.macros() {
        let edge = macros_edge(alloc, row.number(), macros, is_macro(row.target().kind))?;
        edges.push(edge)?;
    }
    Ok(())
}

// The edges of a row to the public rows, and to its package's library.
fn add_libraries(
    alloc: Global,
    public: &PublicRows,
    library: Option<&Row>,
    row: &Row,
    edges: &mut Vec<WantedEdge>,
) -> Result<(), AllocError>
    ensures { OnOk result (edges.new.items ≡ edges.old.items
        ++ libraries_of public.now (option_copied library.entry) row.now) }
{
    let source = row.number();
    add_public(alloc, public, source, edges)?;
    if let Some(library) = library {
        if uses_library(library, row) {
            let name = CrateName::normalize_dashes(alloc, library.target().name.as_str())?;
            edges.push(WantedEdge::new(source, name, library.number()))?;
        }
    }
    Ok(())
}

// The edges of a package's rows that no dependency of it asks for.
fn add_first(
    alloc: Global,
    public: &PublicRows,
    owner: &Owner,
    edges: &mut Vec<WantedEdge>,
) -> Result<(), AllocError>
    ensures { OnOk result (edges.new.items
        ≡ edges.old.items ++ to_libraries public.now owner.now) }
{
    for row in owner.rows() {
        add_macros(alloc, public, row, edges)?;
    }
    for from in owner.rows() {
        add_libraries(alloc, public, owner.library(), from, edges)?;
    }
    Ok(())
}

// Whether a dependency is one of the row's: build scripts have those of kind Build alone.
fn is_for(dependency: &PackageDependency, row: &Row) -> bool
    ensures { result ≡ is_for dependency.now row.now }
{
    is_build_script(row.target().kind) == matches!(dependency.kind, DepKind::Build)
}

fn is_delayed(from: &Owner, dependency: &PackageDependency, to: &Owner, row: &Row) -> bool
    ensures { result ≡ is_delayed from.now dependency.now to.now row.now }
{
    matches!(dependency.kind, DepKind::Dev)
        && is_lib(row.target().kind)
        && from.of().is_member
        && to.of().is_member
}

// The name under which code knows a dependency.
fn crate_name(alloc: Global, dependency: &PackageDependency) -> Result<CrateName, LowerError>
    ensures ok { IfOk result (λ name. (name ≡ dependency.now.name) × (has_dash name ≡ false)) }
    ensures bad { IfErr result (λ e. IfBadName e
        (λ name. (name ≡ dependency.now.name) × (has_dash name ≡ true))) }
{
    let text = String::from_str(alloc, dependency.name.as_str())?;
    match CrateName::new(text) {
        Ok(name) => Ok(name),
        Err(text) => Err(LowerError::BadCrateName(Text::new(text))),
    }
}

// The owner of a package's number.
fn owner_at<'b, 'a>(owners: &'b [Owner<'a>], id: Package) -> Option<&'b Owner<'a>>
    ensures { option_copied result ≡ slice_get owners.now (number_of id) }
{
    owners.get(id.into_raw() as usize)
}

// The edges that a dependency asks for, those that are delayed in a list of their own.
fn add_dependency(
    alloc: Global,
    owners: &[Owner],
    from: &Owner,
    dependency: &PackageDependency,
    edges: &mut Vec<WantedEdge>,
    delayed: &mut Vec<WantedEdge>,
) -> Result<(), LowerError>
    ensures edges { OnOk result (edges.new.items ≡ edges.old.items
        ++ to_dependency false owners.now from.now dependency.now) }
    ensures delayed { OnOk result (delayed.new.items ≡ delayed.old.items
        ++ to_dependency true owners.now from.now dependency.now) }
    ensures good { OnOk result (bad_name_of owners.now from.now dependency.now ≡ []) }
    ensures bad { IfErr result (λ e. IfBadName e
        (λ name. bad_name_of owners.now from.now dependency.now ≡ name ∷ [])) }
{
    if from.rows().is_empty() {
        return Ok(());
    }
    let Some(to) = owner_at(owners, dependency.pkg) else {
        return Ok(());
    };
    let Some(library) = to.library() else {
        return Ok(());
    };
    let name = crate_name(alloc, dependency)?;
    for row in from.rows() {
        if is_for(dependency, row) {
            let edge = WantedEdge::new(row.number(), name.try_clone(alloc)?, library.number());
            if is_delayed(from, dependency, to, row) {
                delayed.push(edge)?;
            } else {
                edges.push(edge)?;
            }
        }
    }
    Ok(())
}

// The edges that a package's dependencies ask for.
fn add_dependencies(
    alloc: Global,
    owners: &[Owner],
    from: &Owner,
    edges: &mut Vec<WantedEdge>,
    delayed: &mut Vec<WantedEdge>,
) -> Result<(), LowerError>
    ensures edges { OnOk result (edges.new.items ≡ edges.old.items
        ++ to_dependencies false owners.now from.now) }
    ensures delayed { OnOk result (delayed.new.items ≡ delayed.old.items
        ++ to_dependencies true owners.now from.now) }
    ensures good { OnOk result (bad_names_of owners.now from.now ≡ []) }
    ensures bad { IfErr result (λ e. IfBadName e
        (λ name. slice_get (bad_names_of owners.now from.now) 0 ≡ Some name)) }
{
    for dependency in from.of().dependencies.as_slice() {
        add_dependency(alloc, owners, from, dependency, edges, delayed)?;
    }
    Ok(())
}

/// All edges that are wanted between the rows, and from them to public rows, in order of rank.
pub(crate) fn wanted_edges(
    alloc: Global,
    public: &PublicRows,
    owners: &[Owner],
) -> Result<Vec<WantedEdge>, LowerError>
    ensures edges { IfOk result (λ edges. edges.items ≡ edges_between public.now owners.now) }
    ensures good { OnOk result (bad_names_of_owners owners.now ≡ []) }
    ensures bad { IfErr result (λ e. IfBadName e
        (λ name. slice_get (bad_names_of_owners owners.now) 0 ≡ Some name)) }
{
    let mut edges = Vec::new(alloc);
    for owner in owners {
        add_first(alloc, public, owner, &mut edges)?;
    }
    let mut delayed = Vec::new(alloc);
    for from in owners {
        add_dependencies(alloc, owners, from, &mut edges, &mut delayed)?;
    }
    edges.append(&mut delayed)?;
    Ok(edges)
}
