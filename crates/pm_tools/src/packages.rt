//! The packages of one workspace or of several, by their ids.

ghost use Rattle.std.specs.Prelude.{◌≡◌, ◌∷◌, ◌<◌, ◌++◌, [], length, slice_get, IfOk, IfSome, OnOk, Some};
ghost use Rattle.std.specs.Option.{option_map};
ghost use Rattle.base_text_paths.specs.Arena.{number_of};
ghost use Rattle.pm_cargo_reading.specs.Nodes.{place_of_package};
ghost use Rattle.pm_tools.specs.Packages.{IsIndexOf, lent_packages, lent_workspaces, packages_of_all};

use base_text::{Arena, ByText};
use cargo_meta_values::PackageId;
use pm_cargo::CargoWorkspace;
use pm_cargo_packages::{Package, PackageData, PackageTag};
use std::alloc::{AllocError, Global};

// Puts a package behind the others. No memory holds so many that no number is left for one.
fn push_package<'a>(
    packages: &mut Arena<PackageTag, &'a PackageData>,
    package: &'a PackageData,
) -> Result<(), AllocError>
    ensures { OnOk result (lent_packages packages.new
        ≡ lent_packages packages.old ++ «package».now ∷ []) }
{
    if packages.len() >= u32::MAX as usize {
        return Err(AllocError);
    }
    packages.alloc(package)?;
    Ok(())
}

// Puts the packages of a workspace behind the others.
fn push_packages<'a>(
    packages: &mut Arena<PackageTag, &'a PackageData>,
    workspace: &'a CargoWorkspace,
) -> Result<(), AllocError>
    ensures { OnOk result (lent_packages packages.new
        ≡ lent_packages packages.old ++ workspace.now.packages) }
{
    for package in workspace.packages() {
        push_package(packages, &workspace[package])?;
    }
    Ok(())
}

// The packages of some workspaces, one workspace after another.
fn packages_of_all<'a>(
    alloc: Global,
    workspaces: &[&'a CargoWorkspace],
) -> Result<Arena<PackageTag, &'a PackageData>, AllocError>
    ensures { IfOk result (λ packages. lent_packages packages
        ≡ packages_of_all (lent_workspaces workspaces.now)) }
{
    let mut packages = Arena::new(alloc);
    for workspace in workspaces {
        push_packages(&mut packages, *workspace)?;
    }
    Ok(packages)
}

// The same references to packages.
fn copy_packages<'a>(
    alloc: Global,
    packages: &Arena<PackageTag, &'a PackageData>,
) -> Result<Arena<PackageTag, &'a PackageData>, AllocError>
    ensures { IfOk result (λ copy. lent_packages copy ≡ lent_packages packages.now) }
{
    let mut copy = Arena::new(alloc);
    for (_, package) in packages.iter() {
        push_package(&mut copy, *package)?;
    }
    Ok(copy)
}

// Packages under their ids.
fn packages_by_id(
    alloc: Global,
    packages: &Arena<PackageTag, &PackageData>,
) -> Result<ByText<Package>, AllocError>
    ensures { IfOk result (IsIndexOf (lent_packages packages.now)) }
{
    let mut by_id = ByText::empty(alloc);
    for (number, package) in packages.iter() {
        let id = String::from_str(alloc, package.id.get().repr.as_str())?;
        drop(by_id.insert(id, number)?);
    }
    Ok(by_id)
}

/// Packages that are found by their ids. Of several packages of one id the last is found.
#[derive(Drop)]
pub(crate) struct KnownPackages<'a> {
    pub(crate) packages: Arena<PackageTag, &'a PackageData>,
    by_id: ByText<Package>,
    ghost index: { IsIndexOf (lent_packages packages) by_id },
}

impl<'a> KnownPackages<'a> {
    /// The packages of some workspaces, one workspace after another.
    pub(crate) fn new(
        alloc: Global,
        workspaces: &[&'a CargoWorkspace],
    ) -> Result<KnownPackages<'a>, AllocError>
        ensures { IfOk result (λ known. lent_packages known.packages
            ≡ packages_of_all (lent_workspaces workspaces.now)) }
    {
        let packages = packages_of_all(alloc, workspaces)?;
        let by_id = packages_by_id(alloc, &packages)?;
        Ok(KnownPackages { packages, by_id })
    }

    /// The same packages.
    pub(crate) fn copy(&self, alloc: Global) -> Result<KnownPackages<'a>, AllocError>
        ensures { IfOk result (λ copy. lent_packages copy.packages
            ≡ lent_packages self.now.packages) }
    {
        let packages = copy_packages(alloc, &self.packages)?;
        let by_id = packages_by_id(alloc, &packages)?;
        Ok(KnownPackages { packages, by_id })
    }

    /// The package of an id.
    pub(crate) fn find(&self, id: &PackageId) -> Option<Package>
        ensures place { option_map number_of result
            ≡ place_of_package (lent_packages self.now.packages) id.now.repr }
        ensures within { IfSome result (λ found. number_of found < length self.now.packages) }
    {
        self.by_id.get(id.repr.as_str()).copied()
    }

    /// The name of a package.
    pub(crate) fn name(&self, package: Package) -> &str
        requires { number_of «package» < length self.now.packages }
        ensures { option_map (λ p. p.name)
            (slice_get (lent_packages self.now.packages) (number_of «package»)) ≡ Some result.now }
    {
        self.packages[package].name.as_str()
    }
}
