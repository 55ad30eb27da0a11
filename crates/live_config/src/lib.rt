//! The configuration of a session, and what the words of the command line make of it.
#![tactic(auto)]

pub mod config;
mod options;
mod values;

pub use config::{Command, LiveConfig, WordsError};
