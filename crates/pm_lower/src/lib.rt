//! Projects: how one is loaded, the directories that it is read from, its crates and its builds.
#![tactic(auto)]

pub mod build_scripts;
mod cargo_project;
mod detached_project;
mod json_project;
pub mod laws;
mod load;
pub mod project_workspace;
mod to_crate_graph;
mod to_roots;

pub use pm_lower_crates::{Loader, LowerError, MapLoader};
pub use pm_lower_load::{LoadError, PackageRoot};
pub use project_workspace::{
    ProjectWorkspace, ProjectWorkspaceKind, RustcWorkspace, ScriptWorkspace,
};
