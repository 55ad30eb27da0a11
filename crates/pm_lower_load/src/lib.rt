//! What a load asks and reads before it makes a project, and the directories that a project's files are read from.
#![tactic(auto)]

pub mod detached_file_roots;
mod exclude;
mod include;
pub mod json_document;
pub mod json_project_roots;
pub mod load_error;
pub mod located;
pub mod metadata;
mod out_dirs;
pub mod package_root;
pub mod roots;
pub mod tool_answers;

pub use detached_file_roots::detached_roots;
pub use json_project_roots::json_roots;
pub use load_error::LoadError;
pub use package_root::PackageRoot;
pub use roots::{cargo_roots, root_of_package};
