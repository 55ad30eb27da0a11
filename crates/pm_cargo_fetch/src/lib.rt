//! Asks for the metadata of a workspace: all of it, and before that the members alone, which stand in
//! where the rest cannot be resolved.
#![tactic(auto)]

mod answers;
pub mod fetch_metadata;
pub mod options;
mod question;
pub mod words;

pub use fetch_metadata::FetchMetadata;
pub use options::metadata_options;
pub use words::line_text;
