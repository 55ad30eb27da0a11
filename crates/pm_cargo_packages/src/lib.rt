//! Packages of a workspace and their targets: what each is once a document of `cargo metadata` is read.
#![tactic(auto)]

pub mod laws;
pub mod package;
pub mod target;

pub use base_text_paths::ManifestPath;
pub use package::{
    DepKind, Package, PackageData, PackageDependency, PackageTag, RustAnalyzerPackageMetaData,
};
pub use target::{Target, TargetData, TargetTag, target_kind_new};
