//! Questions about a project: the means and the toolchain that they are asked by, the manifests of projects, and the configuration
//! that cargo prints, with where each of its values comes from.
#![tactic(auto)]

pub mod answers;
pub mod ask;
pub mod cargo_config_file;
mod comment;
pub mod config_env;
pub mod config_question;
pub mod discover_error;
mod form;
mod keys;
pub mod laws;
mod manifest_discovery;
pub mod manifest_laws;
pub mod origins;
pub mod project_manifest;
pub mod question;
mod quotes;
mod relative_roots;
pub mod rust_lib_src;
pub mod statement;
pub mod sysroot;
mod tool_path;
mod value;

pub use answers::serving_answer;
pub use ask::Ask;
pub use cargo_config_file::CargoConfigFile;
pub use config_env::cargo_config_env;
pub use discover_error::DiscoverError;
pub use origins::{origin_root, statement_of};
pub use pm_cargo_config::set_variable;
pub use project_manifest::{BadManifest, ProjectManifest};
pub use question::words_of;
pub use rust_lib_src::RustLibSrcWorkspace;
pub use statement::{Statement, statements};
pub use sysroot::Sysroot;
