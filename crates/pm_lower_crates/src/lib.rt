//! The lowering of projects to graphs of crates: rows, the edges that they want, and those that are kept; for Cargo workspaces, JSON
//! projects and detached files.
#![tactic(auto)]

pub mod columns;
pub mod detached_lowering;
mod edges;
pub mod facts;
pub mod front;
mod gathering;
mod json_columns;
mod json_edges;
mod json_gathering;
pub mod json_laws;
pub mod json_lowering;
mod json_rows;
pub mod keeping;
pub mod kept_laws;
pub mod laws;
pub mod loader;
pub mod lower_error;
pub mod lowering;
pub mod public_edges;
mod root_files;
mod rows;
pub mod wanted_edge;

pub use columns::cfgs_of;
pub use detached_lowering::lower_detached;
pub use facts::CrateFacts;
pub use front::{Front, PublicRows};
pub use json_lowering::lower_json;
pub use keeping::keep_edges;
pub use loader::{Loader, MapLoader};
pub use lower_error::LowerError;
pub use lowering::lower_cargo;
pub use public_edges::{add_public, macros_edge};
pub use wanted_edge::WantedEdge;
