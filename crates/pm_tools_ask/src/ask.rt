//! What questions are asked with.

use base_text::{ByText, Text, Tools};
use crate_graph_values::Env;

/// What questions are asked with: who answers them, the files that are there, the names of the tools,
/// the variables of the process that asks, and those that a user sets or removes beside them.
#[derive_where(Clone, Copy)]
pub struct Ask<'a, R, T> {
    pub runner: &'a R,
    pub tree: &'a T,
    pub tools: &'a Tools,
    pub process_env: &'a Env,
    pub extra_env: &'a ByText<Option<Text>>,
}
