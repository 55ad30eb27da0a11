//! The crates of a project as a graph, before any of their code is read, and the order of its crates that is kept while edges
//! come. What is known of each crate is found here too.
#![tactic(auto)]

pub mod cyclic;
pub mod graph;
pub mod insertion;
mod listing;
pub mod order;
pub mod placing;
mod search;
mod suborder;
mod walking;

pub use base_values::{Shared, Version as ToolchainVersion};
pub use crate_graph_values::{
    CrateBuilder, CrateBuilderId, CrateData, CrateDataBuilder, CrateDisplayName, CrateName,
    CrateOrigin, CrateTag, CrateWorkspaceData, Dependency, DependencyBuilder, Env, ExtraCrateData,
    LangCrateOrigin, ProcMacroLoadingError, ProcMacroPaths, ReleaseChannel, TargetKind, builder,
    crate_data, env, laws, names, origin, proc_macro, release_channel, target, target_kind,
    workspace_data,
};
pub use cyclic::{AddDepError, CyclicDependenciesError};
pub use graph::{CrateGraphBuilder, CrateIds, GraphError};
pub use insertion::Marks;
pub use order::Order;
pub use placing::Placement;
