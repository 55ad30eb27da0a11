//! A package as its manifest describes it, before the nodes say what it resolved to.

ghost use Rattle.std.specs.Prelude.{◌≡◌, IfOk};
ghost use Rattle.pm_cargo_reading.specs.Packages.{package_edition, rustc_private, unresolved_package};
ghost use Rattle.serde_json.specs.View as json;

use base_text_paths::{Edition, Items, ManifestPath, Shared, Text};
use cargo_meta_values::PackageId;
use pm_cargo_packages::{PackageData, RustAnalyzerPackageMetaData, Target};
use serde_json::Value;
use std::alloc::{AllocError, Global};
use std::mem;
use std::rc::Rc;

// The edition of a package. Those that are not out yet are read as the last one.
fn edition_of(edition: cargo_meta_values::Edition) -> Edition
    ensures { result ≡ package_edition edition }
{
    match edition {
        cargo_meta_values::Edition::E2015 => Edition::Edition2015,
        cargo_meta_values::Edition::E2018 => Edition::Edition2018,
        cargo_meta_values::Edition::E2021 => Edition::Edition2021,
        cargo_meta_values::Edition::E2024
        | cargo_meta_values::Edition::_E2027
        | cargo_meta_values::Edition::_E2030 => { Edition::Edition2024 }
    }
}

// What the metadata table of a manifest says under `rust-analyzer.rustc_private`.
#[tactic(auto, unfolding(crate::specs::Packages::rustc_private))]
fn rustc_private(metadata: &Value) -> bool
    ensures { result ≡ rustc_private (json.view metadata.now) }
{
    match metadata.get("rust-analyzer") {
        Some(table) => match table.get("rustc_private") {
            Some(value) => value.as_bool().unwrap_or(false),
            None => false,
        },
        None => false,
    }
}

/// What is read of a package before its fields are taken as they are.
#[derive(Drop)]
pub(crate) struct PackageParts {
    pub(crate) id: Shared<PackageId>,
    pub(crate) is_member: bool,
    pub(crate) manifest: ManifestPath,
    pub(crate) targets: Items<Target>,
}

/// Takes an id, which is shared from now on.
pub(crate) fn take_id(alloc: Global, id: &mut PackageId) -> Result<Shared<PackageId>, AllocError>
    ensures { IfOk result (λ shared. shared ≡ id.old) }
{
    let repr = Text::new(String::new(alloc));
    let id = mem::replace(id, PackageId { repr });
    Ok(Shared::new(Rc::new(alloc, id)?))
}

/// The package of a document, with what was read of it. What it resolved to comes later.
pub(crate) fn unresolved_package(
    alloc: Global,
    parts: PackageParts,
    package: cargo_meta::Package,
) -> PackageData
    ensures { result ≡ unresolved_package parts.is_member parts.manifest parts.targets
        (record «package» { id = parts.id }) }
{
    PackageData {
        id: parts.id,
        version: package.version,
        name: package.name.into_inner(),
        repository: package.repository,
        manifest: parts.manifest,
        targets: parts.targets,
        is_local: package.source.is_none(),
        is_member: parts.is_member,
        dependencies: Items::empty(alloc),
        edition: edition_of(package.edition),
        features: package.features,
        active_features: Items::empty(alloc),
        authors: package.authors,
        description: package.description,
        homepage: package.homepage,
        license: package.license,
        license_file: package.license_file,
        readme: package.readme,
        rust_version: package.rust_version,
        metadata: RustAnalyzerPackageMetaData {
            rustc_private: rustc_private(package.metadata.as_value()),
        },
        all_member_deps: None,
    }
}
