//! Paths, which are texts and never ask the file system: their rules are those of Unix.

mod abs_path;
mod abs_path_buf;
mod clean;
mod comparing;
mod file_name;
mod parts;
mod path_error;
mod rel_path;

pub use abs_path::AbsPath;
pub use abs_path_buf::AbsPathBuf;
pub use clean::{is_component, split_last};
pub use path_error::PathError;
pub use rel_path::RelPath;
