//! The parts of a document of `cargo metadata`: kinds, names, dependencies, targets and the resolved graph.
#![tactic(auto)]

pub mod dependency;
pub mod errors;
pub mod kinds;
pub mod laws;
pub mod names;
mod printed;
pub mod resolve;
pub mod target;

pub use dependency::Dependency;
pub use errors::{Error, as_error};
pub use kinds::{CrateType, DependencyKind, Edition, TargetKind};
pub use laws::names_compare_as_texts;
pub use names::{FeatureName, FeatureTag, PackageId, PackageName, PackageTag, Source};
pub use resolve::{DepKindInfo, Node, NodeDep, Resolve};
pub use target::Target;
