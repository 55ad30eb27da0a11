//! The session: a script of events, line by line, and one page a flush.
#![tactic(auto)]

pub mod cli;
pub mod last_flush;
pub mod laws;
mod page;
pub mod run;
pub mod session;

pub use cli::{fault_text, live_cli, usage_text};
pub use last_flush::LastFlush;
pub use live_config::{Command, LiveConfig, WordsError, config};
pub use live_page::{Event, EventError, LineError, Lines, event, lines};
pub use live_project::{LiveAnswers, LiveTexts, Project, Recorded, Sources};
pub use live_script::{LiveError, StepError, Stepper, run_script, tell};
pub use run::live_run;
pub use session::Live;
