//! What a loader of files is told and what it answers.

pub use vfs_core_loader::{Config, Directories, Entry, Handle, LoadingProgress, Message};
