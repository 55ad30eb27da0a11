//! The inputs of a language server: the texts of files, the source roots that they are in, and what
//! changes them.
#![tactic(auto)]

mod applying;
pub mod change;
pub mod crate_input;
pub mod crates_map;
pub mod input_db;
pub mod laws;
pub mod lowering;
pub mod queries;
pub mod root_crates;
pub mod source_database;

pub use base_values::Boxed;
pub use change::FileChange;
pub use crate_input::{BuiltCrateData, BuiltDependency, Crate, CrateInput, UniqueCrateData};
pub use crates_map::CratesMap;
pub use indexmap::{IndexMap as FxIndexMap, IndexSet as FxIndexSet};
pub use input_db::InputDb;
pub use input_db_files::{
    Durability, EditionedFileId, FileSourceRootInput, FileText, Files, LibraryRoots, LocalRoots,
    Nonce, SourceRoot, SourceRootId, SourceRootInput,
};
pub use lowering::{CratesIdMap, SetCrates, set_graph_in_db, set_in_db};
pub use queries::{all_crates, set_all_crates_with_durability, toolchain_channel};
pub use root_crates::{crates_have_source_roots, relevant_crates, source_root_crates};
pub use source_database::SourceDatabase;

/// How many texts of files a language server keeps at hand. Nothing here is dropped by it.
pub const DEFAULT_FILE_TEXT_LRU_CAP: u16 = 16;
/// How many parsed files a language server keeps at hand. Nothing here is dropped by it.
pub const DEFAULT_PARSE_LRU_CAP: u16 = 128;
/// How many checked bodies a language server keeps at hand. Nothing here is dropped by it.
pub const DEFAULT_BORROWCK_LRU_CAP: u16 = 2024;
