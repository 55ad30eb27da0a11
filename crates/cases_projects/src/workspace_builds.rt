//! Builds of workspaces: what is configured of them, the questions by which they are made, and what their answers give.

pub mod build_config;
pub mod build_questions;
pub mod builds;
pub mod outputs;
