//! The table of a package in three groups of eight rows, each read into the package.

ghost use Rattle.std.specs.Prelude.{◌≡◌, OnOk};
ghost use Rattle.serde_json.specs.View.{members_view};
ghost use Rattle.json_fields.specs.Outcome.{Gives};
ghost use Rattle.cargo_meta.specs.Package.{body_from, body_set, package_head_from, head_rows, package_head_set, of_head, package_tail_from, package_tail_set};

use crate::package::{Package, new_package};
use base_values::{Items, Text, Version};
use cargo_meta_values::{Dependency, Edition, PackageId, PackageName, Source};
use json_fields::{
    AnyValue, BareVersion, ReadError, default_member, list_member, optional_member,
    required_member, set, set_unless_null,
};
use serde_json::{Map, Value};
use std::alloc::{AllocError, Global};

// What the first eight rows of a package give.
#[derive(Drop)]
struct PackageHead {
    name: PackageName,
    version: Version,
    authors: Items<Text>,
    id: PackageId,
    source: Option<Source>,
    description: Option<Text>,
    dependencies: Items<Dependency>,
    license: Option<Text>,
}

#[tactic(auto, unfolding(crate::specs::Package::head_rows, json_fields::specs::Fields::required_member, json_fields::specs::Fields::optional_member, json_fields::specs::Fields::default_member))]
fn read_head_rows(alloc: Global, fields: &Map<String, Value>) -> Result<PackageHead, ReadError>
    ensures exact { Gives result (head_rows (members_view fields.now.entries)) }
{
    let name = required_member(alloc, fields, "name")?;
    let version = required_member(alloc, fields, "version")?;
    let authors = list_member(alloc, fields, "authors")?;
    let id = required_member(alloc, fields, "id")?;
    let source = optional_member(alloc, fields, "source")?;
    let description = optional_member(alloc, fields, "description")?;
    let dependencies = required_member(alloc, fields, "dependencies")?;
    let license = optional_member(alloc, fields, "license")?;
    Ok(PackageHead {
        name,
        version,
        authors,
        id,
        source,
        description,
        dependencies,
        license,
    })
}

// The package of its first rows, which is otherwise a new one.
fn of_head(alloc: Global, head: PackageHead) -> Package
    ensures { result ≡ of_head head }
{
    let path = Text::new(String::new(alloc));
    Package {
        authors: head.authors,
        source: head.source,
        description: head.description,
        dependencies: head.dependencies,
        license: head.license,
        ..new_package(alloc, head.name, head.version, head.id, path)
    }
}

#[tactic(auto, unfolding(crate::specs::Package::package_head_from))]
pub(crate) fn read_head(alloc: Global, fields: &Map<String, Value>) -> Result<Package, ReadError>
    ensures exact { Gives result (package_head_from (members_view fields.now.entries)) }
{
    let rows = read_head_rows(alloc, fields)?;
    Ok(of_head(alloc, rows))
}

#[tactic(auto, unfolding(crate::specs::Package::body_from, json_fields::specs::Fields::required_member, json_fields::specs::Fields::optional_member, json_fields::specs::Fields::default_member))]
pub(crate) fn read_body(
    alloc: Global,
    fields: &Map<String, Value>,
    head: Package,
) -> Result<Package, ReadError>
    ensures exact { Gives result (body_from head (members_view fields.now.entries)) }
{
    let license_file = optional_member(alloc, fields, "license_file")?;
    let targets = required_member(alloc, fields, "targets")?;
    let features = required_member(alloc, fields, "features")?;
    let manifest_path = required_member(alloc, fields, "manifest_path")?;
    let categories = list_member(alloc, fields, "categories")?;
    let keywords = list_member(alloc, fields, "keywords")?;
    let readme = optional_member(alloc, fields, "readme")?;
    let repository = optional_member(alloc, fields, "repository")?;
    Ok(Package {
        license_file,
        targets,
        features,
        manifest_path,
        categories,
        keywords,
        readme,
        repository,
        ..head
    })
}

#[tactic(auto, unfolding(crate::specs::Package::package_tail_from, json_fields::specs::Fields::required_member, json_fields::specs::Fields::optional_member, json_fields::specs::Fields::default_member))]
pub(crate) fn read_tail(
    alloc: Global,
    fields: &Map<String, Value>,
    body: Package,
) -> Result<Package, ReadError>
    ensures exact { Gives result (package_tail_from body (members_view fields.now.entries)) }
{
    let homepage = optional_member(alloc, fields, "homepage")?;
    let documentation = optional_member(alloc, fields, "documentation")?;
    let edition = default_member(alloc, fields, "edition", Edition::E2015)?;
    let metadata = default_member(alloc, fields, "metadata", AnyValue::null())?;
    let links = optional_member(alloc, fields, "links")?;
    let publish = optional_member(alloc, fields, "publish")?;
    let default_run = optional_member(alloc, fields, "default_run")?;
    let rust_version = optional_member(alloc, fields, "rust_version")?;
    Ok(Package {
        homepage,
        documentation,
        edition,
        metadata,
        links,
        publish,
        default_run,
        rust_version: version_of(rust_version),
        ..body
    })
}

fn version_of(bare: Option<BareVersion>) -> Option<Version>
    ensures { result ≡ bare }
{
    match bare {
        Some(bare) => Some(bare.into_inner()),
        None => None,
    }
}

#[tactic(auto, unfolding(crate::specs::Package::package_head_set))]
pub(crate) fn set_head(
    alloc: Global,
    fields: &mut Map<String, Value>,
    from: &Package,
) -> Result<(), AllocError>
    ensures { OnOk result (members_view fields.new.entries
        ≡ package_head_set from.now (members_view fields.old.entries)) }
{
    set(alloc, fields, "name", &from.name)?;
    set(alloc, fields, "version", &from.version)?;
    set(alloc, fields, "authors", &from.authors)?;
    set(alloc, fields, "id", &from.id)?;
    set(alloc, fields, "source", &from.source)?;
    set(alloc, fields, "description", &from.description)?;
    set(alloc, fields, "dependencies", &from.dependencies)?;
    set(alloc, fields, "license", &from.license)?;
    Ok(())
}

#[tactic(auto, unfolding(crate::specs::Package::body_set))]
pub(crate) fn set_body(
    alloc: Global,
    fields: &mut Map<String, Value>,
    from: &Package,
) -> Result<(), AllocError>
    ensures { OnOk result (members_view fields.new.entries
        ≡ body_set from.now (members_view fields.old.entries)) }
{
    set(alloc, fields, "license_file", &from.license_file)?;
    set(alloc, fields, "targets", &from.targets)?;
    set(alloc, fields, "features", &from.features)?;
    set(alloc, fields, "manifest_path", &from.manifest_path)?;
    set(alloc, fields, "categories", &from.categories)?;
    set(alloc, fields, "keywords", &from.keywords)?;
    set(alloc, fields, "readme", &from.readme)?;
    set(alloc, fields, "repository", &from.repository)?;
    Ok(())
}

#[tactic(auto, unfolding(crate::specs::Package::package_tail_set))]
pub(crate) fn set_tail(
    alloc: Global,
    fields: &mut Map<String, Value>,
    from: &Package,
) -> Result<(), AllocError>
    ensures { OnOk result (members_view fields.new.entries
        ≡ package_tail_set from.now (members_view fields.old.entries)) }
{
    set(alloc, fields, "homepage", &from.homepage)?;
    set(alloc, fields, "documentation", &from.documentation)?;
    set(alloc, fields, "edition", &from.edition)?;
    set_unless_null(alloc, fields, "metadata", &from.metadata)?;
    set(alloc, fields, "links", &from.links)?;
    set(alloc, fields, "publish", &from.publish)?;
    set(alloc, fields, "default_run", &from.default_run)?;
    set(alloc, fields, "rust_version", &from.rust_version)?;
    Ok(())
}
