//! Packages with what the nodes of their document give them.

ghost use Rattle.std.specs.Prelude.{◌≡◌, ◌++◌, ◌<◌, ◌^◌, length, IfOk, OnOk};
ghost use Rattle.std.specs.List.{All};
ghost use Rattle.std.specs.List.Sorted.{IsSorted};
ghost use Rattle.base_text_paths.specs.Arena.{number_of};
ghost use Rattle.pm_cargo_reading.specs.Links.{linked_contents, linked_packages, package_with_link, with_link, with_links};
ghost use Rattle.pm_cargo_reading.specs.Nodes.{nodes_of};
ghost use Rattle.pm_cargo_reading.specs.Packages.{by_package_id};
ghost use Rattle.pm_cargo_reading.specs.Presence.{HoldsItsIds};
ghost use Rattle.pm_cargo_reading.specs.Reading.{Gives};

use crate::contents::{Contents, contents_of};
use crate::nodes::{Link, links_of};
use crate::workspace_error::WorkspaceError;
use base_text_paths::{Items, Limits};
use cargo_meta_values::{Node, PackageId, Resolve};
use pm_cargo_packages::PackageData;
use std::alloc::{AllocError, Global};
use std::mem;

// A list with more items behind its own.
fn append_items<T: Drop>(items: Items<T>, more: Items<T>) -> Result<Items<T>, AllocError>
    ensures { IfOk result (λ all. all ≡ items ++ more) }
{
    if items.is_empty() {
        return Ok(more);
    }
    let mut all = items.into_inner();
    for item in more.into_inner() {
        all.push(item)?;
    }
    Ok(Items::new(all))
}

// Gives a package what a link has for it.
fn give_package(alloc: Global, package: &mut PackageData, link: Link) -> Result<(), AllocError>
    ensures { OnOk result («package».new ≡ package_with_link link «package».old) }
{
    let dependencies = mem::replace(&mut package.dependencies, Items::empty(alloc));
    let features = mem::replace(&mut package.active_features, Items::empty(alloc));
    package.dependencies = append_items(dependencies, link.dependencies)?;
    package.active_features = append_items(features, link.features)?;
    Ok(())
}

// Gives a link's package what the link has for it.
fn give_link(alloc: Global, packages: &mut [PackageData], link: Link) -> Result<(), AllocError>
    requires { number_of link.source < length packages.old }
    ensures { OnOk result (packages.new ≡ with_link packages.old link) }
{
    let place = link.source.into_raw() as usize;
    give_package(alloc, &mut packages[place], link)?;
    Ok(())
}

// Gives the packages what links have for them.
fn give_links(
    alloc: Global,
    packages: &mut [PackageData],
    links: Items<Link>,
) -> Result<(), AllocError>
    requires { All (λ link. number_of link.source < length packages.old) links }
    ensures { OnOk result (packages.new ≡ with_links links packages.old) }
{
    for link in links.into_inner() {
        give_link(alloc, packages, link)?;
    }
    Ok(())
}

// The nodes of a document, which has none where nothing was resolved.
fn nodes_of(alloc: Global, resolve: Option<Resolve>) -> Items<Node>
    ensures { result ≡ nodes_of resolve }
{
    match resolve {
        Some(resolve) => resolve.nodes,
        None => Items::empty(alloc),
    }
}

/// The packages with what the nodes of their document give them, or the first refusal of a node.
pub fn linked_packages(
    alloc: Global,
    packages: Items<PackageData>,
    resolve: Option<Resolve>,
) -> Result<Items<PackageData>, WorkspaceError>
    requires sorted { IsSorted by_package_id packages }
    requires short { length packages < 2 ^ 32 }
    ensures { Gives result (linked_packages packages (nodes_of resolve)) }
{
    let mut packages = packages.into_inner();
    let links = links_of(alloc, packages.as_slice(), nodes_of(alloc, resolve))?;
    give_links(alloc, packages.as_mut_slice(), links)?;
    Ok(Items::new(packages))
}

/// The packages and targets of a document, with what its nodes give the packages, or the first
/// refusal: the packages are taken before the nodes. `all_member_deps` stays None.
pub fn linked_contents(
    alloc: Global,
    members: Items<PackageId>,
    limits: &Limits,
    packages: Items<cargo_meta::Package>,
    resolve: Option<Resolve>,
) -> Result<Contents, WorkspaceError>
    ensures exact { Gives result
        (linked_contents members limits.now packages (nodes_of resolve)) }
    ensures present { IfOk result HoldsItsIds }
{
    let contents = contents_of(alloc, members, limits, packages)?;
    let packages = linked_packages(alloc, contents.packages, resolve)?;
    Ok(Contents {
        packages,
        targets: contents.targets,
    })
}
