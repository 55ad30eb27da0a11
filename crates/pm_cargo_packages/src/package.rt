//! Packages of a workspace, each under its number.

ghost use Rattle.std.specs.Prelude.{◌≡◌, IfOk};
ghost use Rattle.pm_cargo_packages.specs.Copies.{lists_of, package_of, parts_of, optional_texts};

use crate::target::Target;
use base_text_paths::{ByText, Edition, Idx, Items, ManifestPath, Shared, Text, TryClone, Version};
use cargo_meta_values::PackageId;
use std::alloc::{AllocError, Global};

/// The tag of the numbers of packages.
pub enum PackageTag {}

/// The number of a package in its workspace.
pub type Package = Idx<PackageTag>;

/// When a dependency is needed.
#[derive(Clone, Copy, Debug, PartialEq, Eq)]
pub enum DepKind {
    /// By libraries, programs, tests, examples and benchmarks.
    Normal,
    /// By tests, examples and benchmarks alone, and by a library that is built for its tests.
    Dev,
    /// By the build script alone.
    Build,
}

impl TryClone for DepKind {
    fn try_clone(&self, _alloc: Global) -> Result<Self, AllocError> {
        Ok(*self)
    }
}

/// A package that another one needs, under the name that code knows its library by.
#[derive(Debug, PartialEq, Eq, Drop)]
pub struct PackageDependency {
    pub pkg: Package,
    pub name: Text,
    pub kind: DepKind,
}

impl TryClone for PackageDependency {
    fn try_clone(&self, alloc: Global) -> Result<Self, AllocError> {
        Ok(PackageDependency {
            pkg: self.pkg,
            name: self.name.try_clone(alloc)?,
            kind: self.kind,
        })
    }
}

/// What a manifest says to rust-analyzer under `package.metadata.rust-analyzer`.
#[derive(Debug, PartialEq, Eq, Default, Drop)]
pub struct RustAnalyzerPackageMetaData {
    /// Whether the package uses crates of the compiler.
    pub rustc_private: bool,
}

impl TryClone for RustAnalyzerPackageMetaData {
    fn try_clone(&self, _alloc: Global) -> Result<Self, AllocError> {
        Ok(RustAnalyzerPackageMetaData {
            rustc_private: self.rustc_private,
        })
    }
}

/// A package as its manifest describes it, with what it resolved to. A text that the manifest may
/// leave out is None where it does.
#[derive(PartialEq, Eq, Drop)]
pub struct PackageData {
    pub version: Version,
    pub name: Text,
    pub repository: Option<Text>,
    pub manifest: ManifestPath,
    /// The targets in the order of the document.
    pub targets: Items<Target>,
    /// Whether the package has no source, as one in the file system that can be edited.
    pub is_local: bool,
    /// Whether the package is a member of the workspace.
    pub is_member: bool,
    pub dependencies: Items<PackageDependency>,
    pub edition: Edition,
    /// The features, each with those that it enables.
    pub features: ByText<Items<Text>>,
    /// The features that are enabled.
    pub active_features: Items<Text>,
    pub id: Shared<PackageId>,
    pub authors: Items<Text>,
    pub description: Option<Text>,
    pub homepage: Option<Text>,
    pub license: Option<Text>,
    pub license_file: Option<Text>,
    pub readme: Option<Text>,
    pub rust_version: Option<Version>,
    pub metadata: RustAnalyzerPackageMetaData,
    /// Of a member, the members to which it comes over dependencies between members, ascending. It is
    /// one of them itself where it depends on itself over others. Members that depend on each other
    /// share the list.
    pub all_member_deps: Option<Shared<Items<Package>>>,
}

// The parts that are neither lists nor texts which a manifest may leave out.
#[derive(Drop)]
struct Parts {
    version: Version,
    name: Text,
    manifest: ManifestPath,
    id: Shared<PackageId>,
    rust_version: Option<Version>,
    metadata: RustAnalyzerPackageMetaData,
    all_member_deps: Option<Shared<Items<Package>>>,
}

// The texts that a manifest may leave out.
#[derive(Drop)]
struct OptionalTexts {
    repository: Option<Text>,
    description: Option<Text>,
    homepage: Option<Text>,
    license: Option<Text>,
    license_file: Option<Text>,
    readme: Option<Text>,
}

// What a package has several of.
#[derive(Drop)]
struct Lists {
    targets: Items<Target>,
    dependencies: Items<PackageDependency>,
    features: ByText<Items<Text>>,
    active_features: Items<Text>,
    authors: Items<Text>,
}

impl PackageData {
    // Copies of what it has several of.
    fn copy_lists(&self, alloc: Global) -> Result<Lists, AllocError>
        ensures { IfOk result (λ copies. copies ≡ lists_of self.now) }
    {
        Ok(Lists {
            targets: self.targets.try_clone(alloc)?,
            dependencies: self.dependencies.try_clone(alloc)?,
            features: self.features.try_clone(alloc)?,
            active_features: self.active_features.try_clone(alloc)?,
            authors: self.authors.try_clone(alloc)?,
        })
    }

    // Copies of the texts that the manifest may leave out.
    fn copy_texts(&self, alloc: Global) -> Result<OptionalTexts, AllocError>
        ensures { IfOk result (λ copies. copies ≡ optional_texts self.now) }
    {
        Ok(OptionalTexts {
            repository: self.repository.try_clone(alloc)?,
            description: self.description.try_clone(alloc)?,
            homepage: self.homepage.try_clone(alloc)?,
            license: self.license.try_clone(alloc)?,
            license_file: self.license_file.try_clone(alloc)?,
            readme: self.readme.try_clone(alloc)?,
        })
    }

    // Copies of the other parts.
    fn copy_parts(&self, alloc: Global) -> Result<Parts, AllocError>
        ensures { IfOk result (λ copies. copies ≡ parts_of self.now) }
    {
        Ok(Parts {
            metadata: self.metadata.try_clone(alloc)?,
            name: self.name.try_clone(alloc)?,
            manifest: self.manifest.try_clone(alloc)?,
            id: self.id.try_clone(alloc)?,
            all_member_deps: self.all_member_deps.try_clone(alloc)?,
            version: self.version.try_clone(alloc)?,
            rust_version: self.rust_version.try_clone(alloc)?,
        })
    }

    // Copies of the lists and of the texts.
    fn copy_details(&self, alloc: Global) -> Result<(Lists, OptionalTexts), AllocError>
        ensures { IfOk result (λ copies. copies ≡ (lists_of self.now, optional_texts self.now)) }
    {
        let lists = self.copy_lists(alloc)?;
        Ok((lists, self.copy_texts(alloc)?))
    }

    // A package of these copies. Its plain fields are those of this one.
    fn with_copies(&self, parts: Parts, lists: Lists, texts: OptionalTexts) -> PackageData
        ensures { result ≡ package_of parts lists texts self.now }
    {
        PackageData {
            version: parts.version,
            name: parts.name,
            repository: texts.repository,
            manifest: parts.manifest,
            targets: lists.targets,
            is_local: self.is_local,
            is_member: self.is_member,
            dependencies: lists.dependencies,
            edition: self.edition,
            features: lists.features,
            active_features: lists.active_features,
            id: parts.id,
            authors: lists.authors,
            description: texts.description,
            homepage: texts.homepage,
            license: texts.license,
            license_file: texts.license_file,
            readme: texts.readme,
            rust_version: parts.rust_version,
            metadata: parts.metadata,
            all_member_deps: parts.all_member_deps,
        }
    }
}

impl TryClone for PackageData {
    fn try_clone(&self, alloc: Global) -> Result<Self, AllocError> {
        let parts = self.copy_parts(alloc)?;
        let (lists, texts) = self.copy_details(alloc)?;
        Ok(self.with_copies(parts, lists, texts))
    }
}
