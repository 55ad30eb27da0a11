//! What is asked of a workspace: by paths, by the names of its packages and by their features.

ghost use Rattle.std.specs.Prelude.{◌≡◌, ◌||◌, ℕ, List, IfOk, OnOk};
ghost use Rattle.std.specs.BTreeSet.{contains_text};
ghost use Rattle.std.specs.List.{find, list_any};
ghost use Rattle.std.specs.Option.{option_map};
ghost use Rattle.std.specs.String.{string_bytes};
ghost use Rattle.base_text_paths.specs.AbsPath.{abs_text};
ghost use Rattle.pm_cargo.specs.Queries.{dependent_manifests, has_manifest, has_root, is_feature, is_feature_of, is_on, is_unique, is_virtual, member_targets, name_count, names_feature, package_flag, parent_manifests, requires_rustc_private, root_manifest, target_by_root};

use crate::cargo_workspace::CargoWorkspace;
use base_text_paths::{AbsPath, Items, ManifestPath, TryClone};
use pm_cargo_packages::{PackageData, PackageDependency, Target};
use std::alloc::{AllocError, Global};
use std::collections::BTreeSet;

// Puts a feature of a package into a set, plain and behind the package's name.
fn insert_feature(
    alloc: Global,
    features: &mut BTreeSet<String>,
    name: &str,
    feature: &String,
) -> Result<(), AllocError>
    ensures { OnOk result ((text : List ℕ) → contains_text features.new text
        ≡ contains_text features.old text || names_feature name.now text (string_bytes feature.now)) }
{
    features.insert(feature.clone()?)?;
    features.insert(format!(in alloc; "{}/{}", name, feature.as_str())?)?;
    Ok(())
}

// Puts the features of a package into a set, each plain and behind the package's name.
fn insert_features(
    alloc: Global,
    features: &mut BTreeSet<String>,
    package: &PackageData,
) -> Result<(), AllocError>
    ensures { OnOk result ((text : List ℕ) → contains_text features.new text
        ≡ contains_text features.old text || is_feature_of text «package».now) }
{
    for (feature, _) in package.features.as_map() {
        insert_feature(alloc, features, package.name.as_str(), feature)?;
    }
    Ok(())
}

// The targets of a member, and none of any other package.
fn member_targets(package: &PackageData) -> &[Target]
    ensures { result.now ≡ member_targets «package».now }
{
    if package.is_member {
        package.targets.as_slice()
    } else {
        &[]
    }
}

impl CargoWorkspace {
    // Whether a package has the manifest.
    fn has_manifest(&self, manifest: &ManifestPath) -> bool
        ensures { result ≡ list_any (has_manifest manifest.now) self.now.packages }
    {
        self.package_data()
            .iter()
            .any(|package| package.manifest == *manifest)
    }

    /// Whether no package has the workspace's manifest.
    pub fn is_virtual_workspace(&self) -> bool
        ensures { result ≡ is_virtual self.now }
    {
        !self.has_manifest(self.manifest_path())
    }

    /// Whether some package uses crates of the compiler.
    pub fn requires_rustc_private(&self) -> bool
        ensures { result ≡ requires_rustc_private self.now }
    {
        self.package_data()
            .iter()
            .any(|package| package.metadata.rustc_private)
    }

    // Whether a target has the root.
    fn has_root(&self, target: Target, root: AbsPath<'_>) -> bool
        ensures { result ≡ has_root self.now (abs_text root.entry) target }
    {
        match self.target_data().get(target.into_raw() as usize) {
            Some(data) => data.root.as_path() == root,
            None => false,
        }
    }

    // The first of some targets that has the root.
    fn target_among(&self, targets: &[Target], root: AbsPath<'_>) -> Option<Target>
        ensures { result ≡ find (has_root self.now (abs_text root.entry)) targets.now }
    {
        targets
            .iter()
            .copied()
            .find(|target| self.has_root(*target, root))
    }

    /// The first target of a member that has the root.
    pub fn target_by_root(&self, root: AbsPath<'_>) -> Option<Target>
        ensures { result ≡ target_by_root self.now (abs_text root.entry) }
    {
        for package in self.package_data() {
            let found = self.target_among(member_targets(package), root);
            if found.is_some() {
                return found;
            }
        }
        None
    }

    // How many packages have the name.
    fn name_count(&self, name: &str) -> usize
        ensures { result ≡ name_count self.now name.now }
    {
        self.package_data()
            .iter()
            .filter(|package| package.name.as_str() == name)
            .count()
    }

    // Whether exactly one package has the name.
    fn is_unique(&self, name: &str) -> bool
        ensures { result ≡ is_unique self.now name.now }
    {
        self.name_count(name) == 1
    }

    /// What names the package on Cargo's command line: its name, and its version too unless exactly one
    /// package has the name.
    pub fn package_flag(&self, alloc: Global, package: &PackageData) -> Result<String, AllocError>
        ensures { IfOk result (λ flag. string_bytes flag ≡ package_flag self.now «package».now) }
    {
        let name = package.name.as_str();
        if self.is_unique(name) {
            return String::from_str(alloc, name);
        }
        format!(in alloc; "{}:{}", name, package.version.as_version())
    }

    // Whether a dependency is on a package that has the manifest.
    fn is_on(&self, dependency: &PackageDependency, manifest: &ManifestPath) -> bool
        ensures { result ≡ is_on self.now manifest.now dependency.now }
    {
        match self.package_data().get(dependency.pkg.into_raw() as usize) {
            Some(package) => package.manifest == *manifest,
            None => false,
        }
    }

    // Whether the package depends on one that has the manifest.
    fn depends_on(&self, package: &PackageData, manifest: &ManifestPath) -> bool
        ensures { result ≡ list_any (is_on self.now manifest.now) «package».now.dependencies }
    {
        let mut dependencies = package.dependencies.as_slice().iter();
        dependencies.any(|dependency| self.is_on(dependency, manifest))
    }

    // The manifests of the packages that depend on one that has the manifest.
    fn dependent_manifests(
        &self,
        alloc: Global,
        manifest: &ManifestPath,
    ) -> Result<Items<ManifestPath>, AllocError>
        ensures { IfOk result (λ found. found ≡ dependent_manifests self.now manifest.now) }
    {
        let mut found = Vec::new(alloc);
        for package in self.package_data() {
            if self.depends_on(package, manifest) {
                found.push(package.manifest.try_clone(alloc)?)?;
            }
        }
        Ok(Items::new(found))
    }

    // The manifest of the workspace's root.
    fn root_manifest(&self, alloc: Global) -> Result<ManifestPath, AllocError>
        ensures { IfOk result (λ path. path ≡ root_manifest self.now) }
    {
        match ManifestPath::new(self.workspace_root().join(alloc, "Cargo.toml")?) {
            Ok(path) => Ok(path),
            Err(_) => unreachable!(),
        }
    }

    /// The manifests of the packages that depend on one that has the manifest. Where there are none, but
    /// a package has it, that of the workspace's root; else nothing.
    pub fn parent_manifests(
        &self,
        alloc: Global,
        manifest_path: &ManifestPath,
    ) -> Result<Option<Vec<ManifestPath>>, AllocError>
        ensures { IfOk result (λ found. option_map (λ paths. paths.items) found
            ≡ parent_manifests self.now manifest_path.now) }
    {
        let found = self.dependent_manifests(alloc, manifest_path)?;
        if !found.is_empty() {
            return Ok(Some(found.into_inner()));
        }
        if !self.has_manifest(manifest_path) {
            return Ok(None);
        }
        Ok(Some(vec![in alloc; self.root_manifest(alloc)?]?))
    }

    /// The features of all members, each plain and behind the name of its package.
    pub fn workspace_features(&self, alloc: Global) -> Result<BTreeSet<String>, AllocError>
        ensures { IfOk result (λ features.
            (text : List ℕ) → contains_text features text ≡ is_feature self.now text) }
    {
        let mut features = BTreeSet::new(alloc);
        for package in self.package_data() {
            if package.is_member {
                insert_features(alloc, &mut features, package)?;
            }
        }
        Ok(features)
    }
}
