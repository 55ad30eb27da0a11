//! What was said to a session, its files with their texts, and a project of it with what its load kept.
#![tactic(auto)]

mod kept_files;
pub mod laws;
pub mod live_answers;
mod live_files;
pub mod live_texts;
pub mod project;
pub mod project_error;
mod project_roots;
pub mod recorded;
mod rows;
pub mod shared_config;
pub mod sources;

pub use live_answers::LiveAnswers;
pub use live_texts::LiveTexts;
pub use project::Project;
pub use project_error::ProjectError;
pub use recorded::Recorded;
pub use shared_config::SharedConfig;
pub use sources::Sources;
