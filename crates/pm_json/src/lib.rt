//! JSON projects: the document as it is written, and the project of its crates that is read from it.
#![tactic(auto)]

pub mod crate_data;
mod crate_parts;
mod crate_rows;
pub mod data_laws;
pub mod dep;
mod errors;
pub mod kinds;
pub mod krate;
pub mod laws;
pub mod parts;
pub mod project_json;
pub mod project_json_data;
pub mod queries;
mod reading;
pub mod workspace_json_error;

pub use cargo_meta_values::Error;
pub use crate_data::CrateData;
pub use dep::{CrateArrayIdx, Dep};
pub use kinds::{EditionData, RunnableKind, TargetKindData};
pub use krate::{Build, Crate, DepIter};
pub use parts::{BuildData, CrateSource, Runnable};
pub use project_json::ProjectJson;
pub use project_json_data::ProjectJsonData;
pub use queries::CrateIter;
pub use workspace_json_error::WorkspaceJsonError;
