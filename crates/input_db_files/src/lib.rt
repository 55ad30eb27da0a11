//! The texts of files, the source roots that they are in, and how durable each is.
#![tactic(auto)]

pub mod durability;
pub mod editioned_file_id;
pub mod files;
pub mod inputs;
pub mod laws;
pub mod nonce;
pub mod roots;
pub mod source_root;

pub use durability::Durability;
pub use editioned_file_id::EditionedFileId;
pub use files::Files;
pub use inputs::{FileSourceRootInput, FileText, SourceRootInput};
pub use nonce::Nonce;
pub use roots::{LibraryRoots, LocalRoots};
pub use source_root::{SourceRoot, SourceRootId};
