//! The nodes of a document, which give packages their dependencies and active features.

ghost use Rattle.std.specs.Prelude.{◌≡◌, ◌++◌, ◌<◌, ◌^◌, [], ◌∷◌, bytes_eq, filter, length, IfOk, OnOk};
ghost use Rattle.std.specs.List.{list_any};
ghost use Rattle.std.specs.Ordering.{is_le};
ghost use Rattle.base_values.specs.ByText.{text_cmp};
ghost use Rattle.std.specs.List.Sorted.{IsSorted};
ghost use Rattle.base_values.specs.Sorted.{sorted};
ghost use Rattle.pm_cargo_reading.specs.Nodes.{by_package, has_kind, is_kind, kinds_of, known_place, link_of, links_of, place_of_package, take_dependency, with_kinds};
ghost use Rattle.pm_cargo_reading.specs.Packages.{by_package_id};
ghost use Rattle.base_values.specs.Outcome.{take_each};
ghost use Rattle.pm_cargo_reading.specs.Reading.{Gives, Leaves};

use crate::workspace_error::WorkspaceError;
use base_text_paths::{Items, Text, TryClone};
use cargo_meta_values::{DepKindInfo, DependencyKind, FeatureName, Node, NodeDep, PackageId};
use pm_cargo_packages::{DepKind, Package, PackageData, PackageDependency};
use std::alloc::{AllocError, Global};

/// What a node gives its package.
#[derive(Debug, PartialEq, Eq, Drop)]
pub struct Link {
    pub source: Package,
    pub dependencies: Items<PackageDependency>,
    pub features: Items<Text>,
}

impl TryClone for Link {
    fn try_clone(&self, alloc: Global) -> Result<Self, AllocError> {
        Ok(Link {
            source: self.source,
            dependencies: self.dependencies.try_clone(alloc)?,
            features: self.features.try_clone(alloc)?,
        })
    }
}

// Whether a package has the id.
fn has_id(package: &PackageData, id: &PackageId) -> bool
    ensures { result ≡ bytes_eq «package».now.id.repr id.now.repr }
{
    *package.id.get() == *id
}

// Whether a package stands at or before the id in the order of ids.
fn is_at_most(package: &PackageData, id: &PackageId) -> bool
    ensures { result ≡ is_le (text_cmp «package».now.id.repr id.now.repr) }
{
    *package.id.get() <= *id
}

// The place of the package of an id, among packages in the order of their ids. Of several packages
// of one id it is the last.
fn place_of_package(packages: &[PackageData], id: &PackageId) -> Option<usize>
    requires { IsSorted by_package_id packages.now }
    ensures { result ≡ place_of_package packages.now id.now.repr }
{
    let end = packages.partition_point(|package| is_at_most(package, id));
    if end == 0 {
        return None;
    }
    let last = end - 1;
    if has_id(&packages[last], id) {
        Some(last)
    } else {
        None
    }
}

// The place of the package of an id, which must be known.
fn known_place(
    alloc: Global,
    packages: &[PackageData],
    id: &PackageId,
) -> Result<usize, WorkspaceError>
    requires { IsSorted by_package_id packages.now }
    ensures { Gives result (known_place packages.now id.now.repr) }
{
    match place_of_package(packages, id) {
        Some(place) => Ok(place),
        None => Err(WorkspaceError::UnknownPackage(id.repr.try_clone(alloc)?)),
    }
}

// Whether a document's kind is this one.
fn is_kind(kind: DepKind, document: DependencyKind) -> bool
    ensures { result ≡ is_kind kind document }
{
    match kind {
        DepKind::Normal => document == DependencyKind::Normal,
        DepKind::Dev => document == DependencyKind::Development,
        DepKind::Build => document == DependencyKind::Build,
    }
}

// Whether some entry of a list of kinds is of this one.
fn names_kind(infos: &[DepKindInfo], kind: DepKind) -> bool
    ensures { result ≡ list_any (λ info. is_kind kind info.kind) infos.now }
{
    infos.iter().any(|info| is_kind(kind, info.kind))
}

// Whether a list of kinds has this one. An empty list counts as normal.
fn has_kind(infos: &[DepKindInfo], kind: DepKind) -> bool
    ensures { result ≡ has_kind infos.now kind }
{
    if infos.is_empty() {
        return kind == DepKind::Normal;
    }
    names_kind(infos, kind)
}

// Appends the kind if the list has it.
fn push_kind(
    kinds: &mut Vec<DepKind>,
    infos: &[DepKindInfo],
    kind: DepKind,
) -> Result<(), AllocError>
    ensures { OnOk result (kinds.new.items
        ≡ kinds.old.items ++ filter (has_kind infos.now) (kind ∷ [])) }
{
    if has_kind(infos, kind) {
        kinds.push(kind)?;
    }
    Ok(())
}

// The kinds of a dependency, each once. Unknown ones drop out.
fn kinds_of(alloc: Global, infos: &[DepKindInfo]) -> Result<Vec<DepKind>, AllocError>
    ensures { IfOk result (λ kinds. kinds.items ≡ kinds_of infos.now) }
{
    let mut kinds = Vec::new(alloc);
    push_kind(&mut kinds, infos, DepKind::Normal)?;
    push_kind(&mut kinds, infos, DepKind::Dev)?;
    push_kind(&mut kinds, infos, DepKind::Build)?;
    Ok(kinds)
}

// Appends a dependency of each kind on the package at a place.
fn push_kinds(
    alloc: Global,
    dependencies: &mut Vec<PackageDependency>,
    place: usize,
    name: &Text,
    kinds: &[DepKind],
) -> Result<(), AllocError>
    requires { place < 2 ^ 32 }
    ensures { OnOk result (dependencies.new.items
        ≡ dependencies.old.items ++ with_kinds place name.now kinds.now) }
{
    for kind in kinds {
        dependencies.push(PackageDependency {
            pkg: Package::from_raw(place as u32),
            name: name.try_clone(alloc)?,
            kind: *kind,
        })?;
    }
    Ok(())
}

// Appends the dependencies that an entry of a node gives.
fn push_dependency(
    alloc: Global,
    packages: &[PackageData],
    dependencies: &mut Vec<PackageDependency>,
    dep: &NodeDep,
) -> Result<(), WorkspaceError>
    requires sorted { IsSorted by_package_id packages.now }
    requires short { length packages.now < 2 ^ 32 }
    ensures { Leaves result dependencies.new.items
        (take_dependency packages.now dependencies.old.items dep.now) }
{
    let kinds = kinds_of(alloc, dep.dep_kinds.as_slice())?;
    if kinds.is_empty() {
        return Ok(());
    }
    let place = known_place(alloc, packages, &dep.pkg)?;
    push_kinds(alloc, dependencies, place, &dep.name, kinds.as_slice())?;
    Ok(())
}

// The entries of a node in the order of their packages' ids.
fn entries_in_order(deps: Items<NodeDep>) -> Result<Vec<NodeDep>, AllocError>
    ensures { IfOk result (λ in_order. in_order.items ≡ sorted by_package deps) }
{
    let mut deps = deps.into_inner();
    deps.sort_by(|d, e| d.pkg.cmp(&e.pkg))?;
    Ok(deps)
}

// The dependencies of a node, whose entries stand in order.
fn dependencies_of(
    alloc: Global,
    packages: &[PackageData],
    deps: Vec<NodeDep>,
) -> Result<Items<PackageDependency>, WorkspaceError>
    requires sorted { IsSorted by_package_id packages.now }
    requires short { length packages.now < 2 ^ 32 }
    ensures { Gives result (take_each (take_dependency packages.now) [] deps.items) }
{
    let mut dependencies = Vec::new(alloc);
    for dep in deps {
        push_dependency(alloc, packages, &mut dependencies, &dep)?;
    }
    Ok(Items::new(dependencies))
}

// The names of features as texts.
fn feature_texts(alloc: Global, features: Items<FeatureName>) -> Result<Items<Text>, AllocError>
    ensures { IfOk result (λ texts. texts ≡ features) }
{
    let mut texts = Vec::with_capacity(alloc, features.len())?;
    for feature in features.into_inner() {
        texts.push(feature.into_inner())?;
    }
    Ok(Items::new(texts))
}

// What a node gives.
fn link_of(alloc: Global, packages: &[PackageData], node: Node) -> Result<Link, WorkspaceError>
    requires sorted { IsSorted by_package_id packages.now }
    requires short { length packages.now < 2 ^ 32 }
    ensures { Gives result (link_of packages.now node) }
{
    let place = known_place(alloc, packages, &node.id)?;
    let deps = entries_in_order(node.deps)?;
    let dependencies = dependencies_of(alloc, packages, deps)?;
    let features = feature_texts(alloc, node.features)?;
    Ok(Link {
        source: Package::from_raw(place as u32),
        dependencies,
        features,
    })
}

/// What the nodes of a document give, in their order, or the first refusal: a node's own id is
/// looked for first, and then those of its dependencies, in the order of the ids. The packages are
/// those of [`contents_of`](crate::contents_of).
pub fn links_of(
    alloc: Global,
    packages: &[PackageData],
    nodes: Items<Node>,
) -> Result<Items<Link>, WorkspaceError>
    requires sorted { IsSorted by_package_id packages.now }
    requires short { length packages.now < 2 ^ 32 }
    ensures { Gives result (links_of packages.now nodes) }
{
    let mut links = Vec::new(alloc);
    for node in nodes.into_inner() {
        links.push(link_of(alloc, packages, node)?)?;
    }
    Ok(Items::new(links))
}
