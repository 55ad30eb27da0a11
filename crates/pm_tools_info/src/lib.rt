//! What is known of a toolchain by asking its tools: its version, the platforms that are built for, the machine and the atoms of
//! conditional compilation of each, and how their answers are read.
#![tactic(auto)]

mod asking;
mod build_target;
pub mod cfgs;
pub mod host;
pub mod query_config;
pub mod query_error;
mod questions;
pub mod rustc_cfg;
pub mod stated_targets;
pub mod target_data;
pub mod target_spec;
pub mod target_tuple;
mod tool_words;
pub mod version;
pub mod version_text;

pub use cfgs::atoms_of;
pub use host::host_of;
pub use query_config::QueryConfig;
pub use query_error::QueryError;
pub use stated_targets::targets_at;
pub use target_spec::{TargetSpec, spec_of};
pub use version_text::version_behind;
