//! Scripts that are run line by line against any state: what a run does is said and proved once, over a trait.
#![tactic(auto)]

pub mod fault;
pub mod laws;
pub mod run;
pub mod stepper;
pub mod text;

pub use fault::{LiveError, StepError, text_by};
pub use run::run_script;
pub use stepper::Stepper;
pub use text::{tell, write_text};
