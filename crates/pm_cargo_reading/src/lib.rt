//! What a document of `cargo metadata` says of its packages and targets, or the first refusal in
//! the order in which it is checked.
#![tactic(auto)]

pub mod contents;
pub mod linking;
pub mod nodes;
pub mod paths;
mod unresolved;
pub mod workspace_error;

pub use contents::{Contents, contents_of};
pub use linking::{linked_contents, linked_packages};
pub use nodes::{Link, links_of};
pub use paths::{absolute_path, optional_path};
pub use workspace_error::WorkspaceError;
