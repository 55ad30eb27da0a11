//! Virtual files: paths with stable numbers, what is known of each, which text lives where, and what has changed.
#![tactic(auto)]

pub mod anchored_path;
pub mod changed_file;
pub mod file_state;
pub mod hash;
pub mod laws;
pub mod loader;
pub mod marks;
mod real_path;
pub mod vfs;
pub mod vfs_iter;
pub mod vfs_path;
mod virtual_parts;
mod virtual_path;

pub use anchored_path::{AnchoredPath, AnchoredPathBuf};
pub use base_text_paths::{FileId, RelPath};
pub use changed_file::{Change, ChangeKind, ChangedFile};
pub use file_state::{FileExcluded, FileState};
pub use hash::content_hash;
pub use marks::{Mark, MarkKind};
pub use vfs::{Vfs, VfsError};
pub use vfs_iter::VfsIter;
pub use vfs_path::VfsPath;
