//! What is known of each crate of a project: names, origin, environment, workspace and dependencies.
#![tactic(auto)]

pub mod builder;
pub mod crate_data;
pub mod env;
pub mod laws;
pub mod names;
pub mod origin;
pub mod proc_macro;
pub mod release_channel;
pub mod target;
pub mod target_kind;
pub mod workspace_data;

pub use base_values::{Shared, Version as ToolchainVersion};
pub use builder::{CrateBuilder, ExtraCrateData, ProcMacroPaths};
pub use crate_data::{
    CrateBuilderId, CrateData, CrateDataBuilder, CrateTag, Dependency, DependencyBuilder,
};
pub use env::Env;
pub use names::{CrateDisplayName, CrateName};
pub use origin::{CrateOrigin, LangCrateOrigin};
pub use proc_macro::ProcMacroLoadingError;
pub use release_channel::ReleaseChannel;
pub use target_kind::TargetKind;
pub use workspace_data::CrateWorkspaceData;
