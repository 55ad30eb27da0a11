//! Which packages of a document are asked for: by id, as members, or at the root.

ghost use Rattle.std.specs.Prelude.{◌≡◌, ◌↔◌, ◌∷◌, [], List, IfOk, IsSome, IsTrue, Some, map, option_copied};
ghost use Rattle.std.specs.Path.{path_bytes, path_components};
ghost use Rattle.cargo_meta.specs.Select as select;
ghost use Rattle.cargo_meta.specs.Select.{is_manifest_in, package_in, package_of_id, root_package_of};
ghost use Rattle.cargo_meta_values.specs.declared.names.PackageId.{PackageId};

use crate::metadata::Metadata;
use crate::package::Package;
use cargo_meta_values::PackageId;
use std::alloc::{AllocError, Global};
use std::ops::Index;
use std::path::Path;

impl Metadata {
    /// The package at the root of the workspace, where there is one.
    pub fn root_package(&self) -> Option<&Package>
        ensures { option_copied result ≡ root_package_of self.now }
    {
        match &self.resolve {
            Some(resolve) => match &resolve.root {
                Some(id) => self.get_package(id),
                None => None,
            },
            None => package_in(self.packages.as_slice(), self.workspace_root.as_str()),
        }
    }

    /// The packages that are members, in document order.
    pub fn workspace_packages(&self, alloc: Global) -> Result<Vec<&Package>, AllocError>
        ensures { IfOk result (λ found. map (λ p. p.now) found.items
            ≡ select.packages_among self.now.workspace_members self.now.packages) }
    {
        let ids = self.workspace_members.as_slice();
        packages_among(alloc, self.packages.as_slice(), ids)
    }

    /// The packages that are worked on by default, in document order.
    pub fn workspace_default_packages(&self, alloc: Global) -> Result<Vec<&Package>, AllocError>
        requires { IsSome self.now.workspace_default_members }
        ensures { IfOk result (λ found. (ids : List PackageId)
            → self.now.workspace_default_members ≡ Some ids
            → map (λ p. p.now) found.items ≡ select.packages_among ids self.now.packages) }
    {
        let ids = self.workspace_default_members.as_slice();
        packages_among(alloc, self.packages.as_slice(), ids)
    }

    /// The first package of the id.
    pub fn get_package(&self, id: &PackageId) -> Option<&Package>
        ensures { option_copied result ≡ package_of_id id.now self.now.packages }
    {
        self.packages
            .as_slice()
            .iter()
            .find(|package| package.id == *id)
    }
}

impl Index<&PackageId> for Metadata {
    type Output = Package;

    ghost use Rattle.std.specs.Prelude.{◌≡◌, IsSome, Some};
    ghost use Rattle.cargo_meta.specs.Select.{package_of_id};

    ghost can_index = { λ m id. IsSome (package_of_id id.now m.packages) };

    ghost index_gives = { λ m id found. package_of_id id.now m.packages ≡ Some found };

    fn index(&self, id: &PackageId) -> &Package {
        match self.get_package(id) {
            Some(package) => package,
            None => unreachable!(),
        }
    }
}

fn packages_among<'a>(
    alloc: Global,
    packages: &'a [Package],
    ids: &[PackageId],
) -> Result<Vec<&'a Package>, AllocError>
    ensures { IfOk result (λ found. map (λ p. p.now) found.items
        ≡ select.packages_among ids.now packages.now) }
{
    packages
        .iter()
        .filter(|package| ids.contains(&package.id))
        .collect(alloc)
}

/// The first package whose manifest is in the root.
fn package_in<'a>(packages: &'a [Package], root: &str) -> Option<&'a Package>
    ensures { option_copied result ≡ package_in root.now packages.now }
{
    packages.iter().find(|package| is_manifest_in(root, package.manifest_path.as_str()))
}

/// Whether the manifest is `Cargo.toml` in the root.
fn is_manifest_in(root: &str, manifest: &str) -> bool
    ensures { result ≡ is_manifest_in root.now manifest.now }
{
    match Path::new(manifest).strip_prefix(root) {
        Ok(rest) => is_name(rest, "Cargo.toml"),
        Err(_) => false,
    }
}

/// Whether the path is one name alone.
fn is_name(path: Path<'_>, name: &str) -> bool
    ensures { IsTrue result ↔ (path_components (path_bytes path.entry) ≡ name.now ∷ []) }
{
    let mut parts = path.components();
    match parts.next() {
        Some(part) => part.as_os_str() == name && parts.next().is_none(),
        None => false,
    }
}
