//! The members on which each member depends, over dependencies between members.

ghost use Rattle.std.specs.Prelude.{◌≡◌, ◌+◌, ◌<◌, ◌^◌, length, replicate, IfOk, None, OnOk};
ghost use Rattle.std.specs.List.{All};
ghost use Rattle.pm_cargo_members.specs.Members.{is_member_at, member_graph, member_row, package_ids, with_all_member_deps};
ghost use Rattle.pm_cargo_members.specs.SharedLists.{AreClosures, SharesList, closure_list};
ghost use Rattle.graph_base.specs.Edges.{IsInRange};
ghost use Rattle.graph_base.specs.Trail.{empty_trail};
ghost use Rattle.graph_base.specs.Reversed.{target_rows};

use crate::closure::Graph;
use base_values::{Items, Shared, TryClone};
use graph_base::Trail;
use pm_cargo_packages::{Package, PackageData};
use std::alloc::{AllocError, Global};
use std::rc::Rc;

// Whether the package at a place is a member.
fn is_member_at(packages: &[PackageData], place: u32) -> bool
    ensures { result ≡ is_member_at packages.now place }
{
    match packages.get(place as usize) {
        Some(package) => package.is_member,
        None => false,
    }
}

// The members that a package depends on, if it is a member itself.
fn member_row(
    alloc: Global,
    packages: &[PackageData],
    owner: &PackageData,
) -> Result<Vec<u32>, AllocError>
    ensures { IfOk result (λ row. row.items ≡ member_row packages.now owner.now) }
{
    let mut row = Vec::new(alloc);
    if owner.is_member {
        for dependency in owner.dependencies.as_slice() {
            let place = dependency.pkg.into_raw();
            if is_member_at(packages, place) {
                row.push(place)?;
            }
        }
    }
    Ok(row)
}

// The graph of dependencies between members.
fn member_graph(alloc: Global, packages: &[PackageData]) -> Result<Vec<Vec<u32>>, AllocError>
    ensures { IfOk result (λ rows. target_rows rows.items ≡ member_graph packages.now) }
{
    let mut rows = Vec::with_capacity(alloc, packages.len())?;
    for package in packages {
        rows.push(member_row(alloc, packages, package)?)?;
    }
    Ok(rows)
}

/// A list of members, which those that depend on each other share.
type MemberList = Shared<Items<Package>>;

// The ids of the packages at some places.
fn package_ids(alloc: Global, places: &[u32]) -> Result<Items<Package>, AllocError>
    ensures { IfOk result (λ ids. ids ≡ package_ids places.now) }
{
    let mut ids = Vec::with_capacity(alloc, places.len())?;
    for place in places {
        ids.push(Package::from_raw(*place))?;
    }
    Ok(Items::new(ids))
}

// The closure of a node, as places and as the list that members share.
#[derive(Drop)]
struct ClosureList {
    places: Items<u32>,
    ids: MemberList,
}

// Gives the list to those of some nodes that are in the closure.
fn share_list(
    alloc: Global,
    lists: &mut Vec<Option<MemberList>>,
    nodes: &[u32],
    closure: &ClosureList,
) -> Result<(), AllocError>
    requires { All (λ node. node < length lists.old.items) nodes.now }
    ensures { OnOk result (SharesList nodes.now closure.now lists.old.items lists.new.items) }
{
    for node in nodes {
        if closure.places.as_slice().binary_search(node).is_ok() {
            lists[*node as usize] = Some(closure.ids.try_clone(alloc)?);
        }
    }
    Ok(())
}

// Gives the closure's list to those that its node reaches and that reach the node, if it is one of
// them itself.
fn share_closure(
    alloc: Global,
    graph: &Graph,
    trail: &mut Trail,
    lists: &mut Vec<Option<MemberList>>,
    node: u32,
    closure: &ClosureList,
) -> Result<(), AllocError>
    requires empty { trail.old ≡ empty_trail (length graph.now) }
    requires node { node < length graph.now }
    requires in_range { IsInRange graph.now }
    requires closure { closure.now ≡ closure_list graph.now node }
    requires lists { AreClosures graph.now node lists.old.items }
    ensures lists { OnOk result (AreClosures graph.now node lists.new.items) }
    ensures empty { OnOk result (trail.new ≡ empty_trail (length graph.now)) }
{
    if closure.places.as_slice().binary_search(&node).is_err() {
        return Ok(());
    }
    graph.find_reaching(trail, node)?;
    share_list(alloc, lists, trail.nodes(), closure)?;
    trail.clear();
    Ok(())
}

// Lists the closure of a node, and with it that of each node that it reaches and that reaches it.
fn list_closure(
    alloc: Global,
    graph: &Graph,
    trail: &mut Trail,
    lists: &mut Vec<Option<MemberList>>,
    node: u32,
) -> Result<(), AllocError>
    requires empty { trail.old ≡ empty_trail (length graph.now) }
    requires node { node < length graph.now }
    requires in_range { IsInRange graph.now }
    requires lists { AreClosures graph.now node lists.old.items }
    ensures lists { OnOk result (AreClosures graph.now (node + 1) lists.new.items) }
    ensures empty { OnOk result (trail.new ≡ empty_trail (length graph.now)) }
{
    let places = Items::new(graph.closure(alloc, trail, node)?);
    let ids = Shared::new(Rc::new(alloc, package_ids(alloc, places.as_slice())?)?);
    let closure = ClosureList { places, ids };
    share_closure(alloc, graph, trail, lists, node, &closure)?;
    lists[node as usize] = Some(closure.ids);
    Ok(())
}

// No list yet for each of so many nodes.
fn no_lists(alloc: Global, count: u32) -> Result<Vec<Option<MemberList>>, AllocError>
    ensures { IfOk result (λ lists. lists.items ≡ replicate count None) }
{
    let mut lists = Vec::with_capacity(alloc, count as usize)?;
    for _ in 0..count {
        lists.push(None)?;
    }
    Ok(lists)
}

// The closure of each node.
fn all_closures(alloc: Global, graph: &Graph) -> Result<Vec<Option<MemberList>>, AllocError>
    ensures { IfOk result (λ lists. AreClosures graph.now (length graph.now) lists.items) }
{
    let count = graph.len();
    let mut lists = no_lists(alloc, count)?;
    let mut trail = Trail::new(alloc, count)?;
    for node in 0..count {
        if lists[node as usize].is_none() {
            list_closure(alloc, graph, &mut trail, &mut lists, node)?;
        }
    }
    Ok(lists)
}

// Gives each member its list.
fn give_lists(
    alloc: Global,
    packages: &mut [PackageData],
    lists: &[Option<MemberList>],
) -> Result<(), AllocError>
    requires { AreClosures (member_graph packages.old) (length packages.old) lists.now }
    ensures { OnOk result (packages.new ≡ with_all_member_deps packages.old) }
{
    for place in 0..packages.len() {
        if packages[place].is_member {
            packages[place].all_member_deps = lists[place].try_clone(alloc)?;
        }
    }
    Ok(())
}

// Gives each member the members that it comes to over one or more dependencies between members.
fn give_member_deps(alloc: Global, packages: &mut [PackageData]) -> Result<(), AllocError>
    requires { length packages.old < 2 ^ 32 }
    ensures { OnOk result (packages.new ≡ with_all_member_deps packages.old) }
{
    let graph = Graph::new(alloc, member_graph(alloc, packages)?)?;
    let lists = all_closures(alloc, &graph)?;
    give_lists(alloc, packages, lists.as_slice())
}

/// The packages, of which each member has the members that it comes to over one or more dependencies
/// between members. A dependency on a package that is not there is none of these.
pub fn with_all_member_deps(
    alloc: Global,
    packages: Items<PackageData>,
) -> Result<Items<PackageData>, AllocError>
    requires { length packages < 2 ^ 32 }
    ensures { IfOk result (λ given. given ≡ with_all_member_deps packages) }
{
    let mut packages = packages.into_inner();
    give_member_deps(alloc, packages.as_mut_slice())?;
    Ok(Items::new(packages))
}
