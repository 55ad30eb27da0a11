//! Cargo workspaces: a document of `cargo metadata` as packages, targets and dependencies by number.
#![tactic(auto)]

pub mod build_outputs;
pub mod cargo_workspace;
pub mod laws;
pub mod output;
pub mod output_laws;
pub mod package_iter;
pub mod queries;

pub use base_text_paths::{ManifestPath, manifest_path};
pub use build_outputs::BuildOutputs;
pub use cargo_workspace::CargoWorkspace;
pub use output::{BuildScriptOutput, ProcMacroDylibPath};
pub use package_iter::PackageIter;
pub use pm_cargo_config::{
    CargoConfig, CargoFeatures, CargoMetadataConfig, CfgOverrides, InvocationStrategy,
    LockfileUsage, RustLibSource, TargetDirectoryConfig, lockfile_usage,
};
pub use pm_cargo_fetch::FetchMetadata;
pub use pm_cargo_packages::{
    DepKind, Package, PackageData, PackageDependency, PackageTag, RustAnalyzerPackageMetaData,
    Target, TargetData, TargetTag, package, target, target_kind_new,
};
pub use pm_cargo_reading::{WorkspaceError, workspace_error};
