//! Sets of files, and how the files of a file system are parted into sets by the roots of each.
#![tactic(auto)]

mod file_maps;
pub mod file_root;
mod file_rows;
pub mod file_set;
pub mod file_set_config;
pub mod file_set_iter;
pub mod laws;
mod place;
mod root_map;
mod roots;

pub use file_root::FileRoot;
pub use file_set::FileSet;
pub use file_set_config::{FileSetConfig, FileSetConfigBuilder};
pub use file_set_iter::FileSetIter;
