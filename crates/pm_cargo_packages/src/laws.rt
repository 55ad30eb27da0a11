//! Laws for callers' proofs. Each is a function that changes nothing: its contract is the law.

ghost use Rattle.std.specs.Prelude.{◌≡◌, false};
ghost use Rattle.base_text_paths.specs.Paths.{IsClean};
ghost use Rattle.base_values.specs.Equality.{IsContentEquality};
ghost use Rattle.crate_graph_values.specs.Laws.{IsContentEqualityOn};
ghost use Rattle.pm_cargo_packages.specs.Laws.{HasCleanManifest, HasCleanRoot};
ghost use Rattle.pm_cargo_packages.specs.declared.package.RustAnalyzerPackageMetaData.{RustAnalyzerPackageMetaData};

use crate::package::{
    DepKind, Package, PackageData, PackageDependency, RustAnalyzerPackageMetaData,
};
use crate::target::{Target, TargetData};
use base_text_paths::ManifestPath;
use cargo_meta_values::PackageId;

/// Kinds of dependencies, dependencies, and what a manifest says to rust-analyzer are equal exactly where
/// all that they hold is.
pub fn equality_is_content()
    ensures kinds { IsContentEquality ⟦<DepKind as PartialEq>⟧.eq }
    ensures dependencies { IsContentEquality ⟦<PackageDependency as PartialEq>⟧.eq }
    ensures metadata { IsContentEquality ⟦<RustAnalyzerPackageMetaData as PartialEq>⟧.eq }
{
    equality_of_numbers_is_content();
}

/// Paths of manifests are equal exactly where their texts are the same. Each path's text is clean.
pub fn equality_of_manifests_is_content()
    ensures { IsContentEqualityOn IsClean ⟦<ManifestPath as PartialEq>⟧.eq }
{
    base_text_paths::laws::equality_of_paths_is_content();
}

/// Two targets are equal exactly where all that they hold is. The path of each target's root is clean.
pub fn equality_of_targets_is_content()
    ensures { IsContentEqualityOn HasCleanRoot ⟦<TargetData as PartialEq>⟧.eq }
{
    equality_of_numbers_is_content();
    crate_graph_values::laws::equality_of_kinds_is_content();
}

/// Two packages are equal exactly where all that they hold is. The path of each package's manifest is clean.
pub fn equality_of_packages_is_content()
    ensures { IsContentEqualityOn HasCleanManifest ⟦<PackageData as PartialEq>⟧.eq }
{
    equality_of_numbers_is_content();
    equality_is_content();
    base_text_paths::laws::equality_is_content();
}

// Numbers of packages and targets, and ids of packages, are equal exactly where they are one.
fn equality_of_numbers_is_content()
    ensures packages { IsContentEquality ⟦<Package as PartialEq>⟧.eq }
    ensures targets { IsContentEquality ⟦<Target as PartialEq>⟧.eq }
    ensures ids { IsContentEquality ⟦<PackageId as PartialEq>⟧.eq }
{}

/// A manifest that says nothing to rust-analyzer uses no crates of the compiler.
pub fn default_metadata_is_empty()
    ensures { (metadata : RustAnalyzerPackageMetaData)
        → ⟦<RustAnalyzerPackageMetaData as Default>⟧.is_default metadata
        → metadata ≡ record { rustc_private = false } }
{}
