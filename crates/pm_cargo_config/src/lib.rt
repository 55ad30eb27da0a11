//! What a user configures of a Cargo project, and what the version of the toolchain allows.
#![tactic(auto)]

pub mod config;
pub mod features;
pub mod laws;
pub mod lockfile;
pub mod metadata_config;
pub mod overrides;
pub mod target_dir;
pub mod variables;
pub mod versions;

pub use base_text::{Progress, Quiet, Tool, ToolRoot, Tools};
pub use config::{CargoConfig, InvocationStrategy, RustLibSource};
pub use features::CargoFeatures;
pub use lockfile::{LockfileUsage, lockfile_usage};
pub use metadata_config::CargoMetadataConfig;
pub use overrides::CfgOverrides;
pub use target_dir::TargetDirectoryConfig;
pub use variables::{allow_unstable, set_variable};
pub use versions::{is_at_least, needs_json_flag};
