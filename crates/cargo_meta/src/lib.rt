//! The documents of `cargo metadata`: every field, read, written and read again.
#![tactic(auto)]

mod beside;
pub mod command;
pub mod documents;
pub mod exec;
pub mod metadata;
pub mod package;
mod package_rows;
pub mod select;
pub mod words;

pub use base_values::Version;
pub use cargo_meta_values::{
    CrateType, DepKindInfo, Dependency, DependencyKind, Edition, Error, FeatureName, FeatureTag,
    Node, NodeDep, PackageId, PackageName, PackageTag, Resolve, Source, Target, TargetKind,
    dependency, errors, kinds, names, names_compare_as_texts, resolve, target,
};
pub use command::{CargoOpt, MetadataCommand};
pub use json_fields::{AnyValue, BareError, Requirement, bare_version};
pub use metadata::{Metadata, WorkspaceDefaultMembers};
pub use package::Package;
