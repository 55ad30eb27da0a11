//! A package: one manifest with its targets and what it depends on.

ghost use Rattle.std.specs.Prelude.{◌≡◌, IfOk, OnOk, option_map};
ghost use Rattle.cargo_meta.specs.Beside.{beside};
ghost use Rattle.cargo_meta.specs.NewPackage.{new_package};

use crate::beside::beside;
use crate::package_rows::{read_body, read_head, read_tail, set_body, set_head, set_tail};
use base_values::{ByText, Items, Text, TryClone, Version};
use cargo_meta_values::{Dependency, Edition, PackageId, PackageName, Source, Target};
use json_fields::{AnyValue, Json, Present, ReadError, ReadJson, members};
use serde_json::{Map, Value};
use std::alloc::{AllocError, Global};

/// One package of the dependency graph.
#[derive(PartialEq, Eq, Drop)]
pub struct Package {
    pub name: PackageName,
    pub version: Version,
    pub authors: Items<Text>,
    pub id: PackageId,
    pub source: Option<Source>,
    pub description: Option<Text>,
    pub dependencies: Items<Dependency>,
    pub license: Option<Text>,
    pub license_file: Option<Text>,
    pub targets: Items<Target>,
    pub features: ByText<Items<Text>>,
    pub manifest_path: Text,
    pub categories: Items<Text>,
    pub keywords: Items<Text>,
    pub readme: Option<Text>,
    pub repository: Option<Text>,
    pub homepage: Option<Text>,
    pub documentation: Option<Text>,
    pub edition: Edition,
    pub metadata: AnyValue,
    pub links: Option<Text>,
    pub publish: Option<Items<Text>>,
    pub default_run: Option<Text>,
    pub rust_version: Option<Version>,
}

// A package of these four. Its other fields are empty, none, or their defaults.
pub(crate) fn new_package(
    alloc: Global,
    name: PackageName,
    version: Version,
    id: PackageId,
    path: Text,
) -> Package
    ensures { result ≡ new_package name version id path }
{
    Package {
        name,
        version,
        authors: Items::empty(alloc),
        id,
        source: None,
        description: None,
        dependencies: Items::empty(alloc),
        license: None,
        license_file: None,
        targets: Items::empty(alloc),
        features: ByText::empty(alloc),
        manifest_path: path,
        categories: Items::empty(alloc),
        keywords: Items::empty(alloc),
        readme: None,
        repository: None,
        homepage: None,
        documentation: None,
        edition: Edition::E2015,
        metadata: AnyValue::null(),
        links: None,
        publish: None,
        default_run: None,
        rust_version: None,
    }
}

impl Package {
    /// A package of these four. Its other fields are empty, none, or their defaults.
    pub fn new(
        alloc: Global,
        name: PackageName,
        version: Version,
        id: PackageId,
        path: Text,
    ) -> Result<Package, AllocError>
        ensures { IfOk result (λ made. made ≡ new_package name version id path) }
    {
        Ok(new_package(alloc, name, version, id, path))
    }

    /// The path of the license file, where the manifest names one.
    pub fn license_file(&self, alloc: Global) -> Result<Option<Text>, AllocError>
        ensures { IfOk result (λ path. path
            ≡ option_map (beside self.now.manifest_path) self.now.license_file) }
    {
        match &self.license_file {
            Some(file) => Ok(Some(beside(alloc, self.manifest_path.as_str(), file.as_str())?)),
            None => Ok(None),
        }
    }

    /// The path of the readme, where the manifest names one.
    pub fn readme(&self, alloc: Global) -> Result<Option<Text>, AllocError>
        ensures { IfOk result (λ path. path
            ≡ option_map (beside self.now.manifest_path) self.now.readme) }
    {
        match &self.readme {
            Some(file) => Ok(Some(beside(alloc, self.manifest_path.as_str(), file.as_str())?)),
            None => Ok(None),
        }
    }
}

impl Package {
    // A package of copies of the four that each has. Its other fields are empty, none, or their
    // defaults.
    fn new_copy(&self, alloc: Global) -> Result<Package, AllocError>
        ensures { IfOk result (λ copy. copy ≡ new_package self.now.name self.now.version self.now.id
            self.now.manifest_path) }
    {
        let name = self.name.try_clone(alloc)?;
        let id = self.id.try_clone(alloc)?;
        let path = self.manifest_path.try_clone(alloc)?;
        let version = self.version.try_clone(alloc)?;
        Ok(new_package(alloc, name, version, id, path))
    }

    // Copies what the package has several of, and its edition, into another one.
    fn copy_lists(&self, alloc: Global, to: &mut Package) -> Result<(), AllocError>
        ensures { OnOk result (to.new ≡ record to.old {
          authors = self.now.authors;
          dependencies = self.now.dependencies;
          targets = self.now.targets;
          features = self.now.features;
          categories = self.now.categories;
          keywords = self.now.keywords;
          publish = self.now.publish;
          edition = self.now.edition;
        }) }
    {
        to.edition = self.edition;
        to.authors = self.authors.try_clone(alloc)?;
        to.dependencies = self.dependencies.try_clone(alloc)?;
        to.targets = self.targets.try_clone(alloc)?;
        to.features = self.features.try_clone(alloc)?;
        to.categories = self.categories.try_clone(alloc)?;
        to.keywords = self.keywords.try_clone(alloc)?;
        to.publish = self.publish.try_clone(alloc)?;
        Ok(())
    }

    // Copies what the manifest may leave out into another package.
    fn copy_options(&self, alloc: Global, to: &mut Package) -> Result<(), AllocError>
        ensures { OnOk result (to.new ≡ record to.old {
          source = self.now.source;
          description = self.now.description;
          license = self.now.license;
          license_file = self.now.license_file;
          readme = self.now.readme;
          repository = self.now.repository;
          homepage = self.now.homepage;
          documentation = self.now.documentation;
          metadata = self.now.metadata;
          links = self.now.links;
          default_run = self.now.default_run;
          rust_version = self.now.rust_version;
        }) }
    {
        to.source = self.source.try_clone(alloc)?;
        to.description = self.description.try_clone(alloc)?;
        to.license = self.license.try_clone(alloc)?;
        to.license_file = self.license_file.try_clone(alloc)?;
        to.readme = self.readme.try_clone(alloc)?;
        to.repository = self.repository.try_clone(alloc)?;
        to.homepage = self.homepage.try_clone(alloc)?;
        to.documentation = self.documentation.try_clone(alloc)?;
        to.metadata = self.metadata.try_clone(alloc)?;
        to.links = self.links.try_clone(alloc)?;
        to.default_run = self.default_run.try_clone(alloc)?;
        to.rust_version = self.rust_version.try_clone(alloc)?;
        Ok(())
    }

    // Copies all but the four that each package has into another one.
    fn copy_rest(&self, alloc: Global, to: &mut Package) -> Result<(), AllocError>
        ensures { OnOk result (to.new ≡ record self.now {
          name = to.old.name;
          version = to.old.version;
          id = to.old.id;
          manifest_path = to.old.manifest_path;
        }) }
    {
        self.copy_lists(alloc, to)?;
        self.copy_options(alloc, to)
    }
}

impl TryClone for Package {
    fn try_clone(&self, alloc: Global) -> Result<Self, AllocError> {
        let mut copy = self.new_copy(alloc)?;
        self.copy_rest(alloc, &mut copy)?;
        Ok(copy)
    }
}

#[tactic(auto, unfolding(crate::specs::Package::package_at, crate::specs::Package::package_from))]
impl ReadJson for Package {
    ghost use Rattle.cargo_meta.specs.Package.{package_at};

    ghost reads = { package_at };

    fn read(alloc: Global, value: &Value) -> Result<Package, ReadError> {
        let fields = members(alloc, value)?;
        let head = read_head(alloc, fields)?;
        let body = read_body(alloc, fields, head)?;
        read_tail(alloc, fields, body)
    }
}

#[tactic(auto, unfolding(crate::specs::Package::package_data, crate::specs::Package::package_members))]
impl Json for Package {
    ghost use Rattle.cargo_meta.specs.Package.{package_data};
    ghost use Rattle.cargo_meta.specs.laws.Package.{package-round_trips};

    ghost writes = { package_data };

    ghost height = { 4 };

    fn write(&self, alloc: Global) -> Result<Value, AllocError> {
        let mut fields = Map::new(alloc);
        set_tail(alloc, &mut fields, self)?;
        set_body(alloc, &mut fields, self)?;
        set_head(alloc, &mut fields, self)?;
        Ok(Value::Object(fields))
    }

    ghost round_trips = { package-round_trips };
}

impl Present for Package {
    ghost use Rattle.cargo_meta.specs.Package.{package_data-present};

    ghost present = { package_data-present };
}
