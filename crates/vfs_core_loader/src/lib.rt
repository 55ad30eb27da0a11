//! What a loader of files loads and watches, and what it reports of its progress.
#![tactic(auto)]

pub mod entry;
pub mod handle;
pub mod message;

pub use entry::{Directories, Entry};
pub use handle::{Config, Handle};
pub use message::{LoadingProgress, Message};
