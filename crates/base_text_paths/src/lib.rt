//! Paths, paths of manifests, numbers of files and of values, editions and sets of atoms. The values and the traits of the outside that
//! they are built on are found here too.
#![tactic(auto)]

pub mod arena;
pub mod arena_map;
pub mod cfg_diff;
pub mod cfg_options;
pub mod edition;
pub mod file_id;
pub mod laws;
pub mod manifest_path;
pub mod paths;

pub use arena::{Arena, Idx};
pub use arena_map::ArenaMap;
pub use base_text_outside::{
    ByteSink, ByteSource, CfgAtom, CfgError, CommandLine, Counter, Failed, FaultSink, FaultSource,
    Ledger, Limit, Limits, MemorySink, MemorySource, NonceSource, Numbers, Output, Question,
    RecordedRunner, Runner, SinkError, Steps, Symbol, parse_cfg, write_all, write_cfg,
};
pub use base_values::{
    Boxed, ByNumber, ByText, Items, Name, Shared, SharedText, Text, TryClone, Version,
    copy_entries, copy_items, sort_all,
};
pub use cfg_diff::CfgDiff;
pub use cfg_options::CfgOptions;
pub use edition::Edition;
pub use file_id::FileId;
pub use manifest_path::ManifestPath;
pub use paths::{AbsPath, AbsPathBuf, PathError, RelPath};
