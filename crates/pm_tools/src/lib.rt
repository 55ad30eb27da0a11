//! What is asked of tools and what they answer: builds of workspaces, and what their build scripts and procedural macros give. The
//! questions about toolchains, manifests and configurations are found here too.
#![tactic(auto)]

mod artifact;
pub mod build_command;
pub mod build_error;
pub mod build_scripts;
mod features;
pub mod laws;
mod library;
mod lines;
mod outputs;
mod packages;
pub mod project_json_from_command;
mod script;
pub mod shared_build;
mod words_of_build;

pub use build_command::{build_question, configured_question};
pub use build_error::BuildError;
pub use build_scripts::WorkspaceBuildScripts;
pub use pm_cargo::{BuildOutputs, BuildScriptOutput, ProcMacroDylibPath};
pub use pm_tools_ask::{
    Ask, BadManifest, CargoConfigFile, DiscoverError, ProjectManifest, RustLibSrcWorkspace,
    Sysroot, cargo_config_env,
};
pub use pm_tools_info::{QueryConfig, QueryError, rustc_cfg, target_data, target_tuple, version};
pub use project_json_from_command::ProjectJsonFromCommand;
pub use shared_build::SharedBuild;
