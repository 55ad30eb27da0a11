//! The foundation as one crate: trees of files, bounded lines of a source, and the tools that questions are asked by, beside the
//! paths, values and traits of the crates below.
#![tactic(auto)]

pub mod laws;
pub mod lines;
pub mod memory_tree;
pub mod newline;
mod part;
pub mod piece;
pub mod progress;
pub mod tool;
pub mod tool_root;
pub mod tree;

pub use base_text_paths::{
    AbsPath, AbsPathBuf, Arena, ArenaMap, Boxed, ByNumber, ByText, ByteSink, ByteSource, CfgAtom,
    CfgDiff, CfgError, CfgOptions, CommandLine, Counter, Edition, Failed, FaultSink, FaultSource,
    FileId, Idx, Items, Ledger, Limit, Limits, ManifestPath, MemorySink, MemorySource, Name,
    NonceSource, Numbers, Output, PathError, Question, RecordedRunner, RelPath, Runner, Shared,
    SharedText, SinkError, Steps, Symbol, Text, TryClone, Version, copy_entries, copy_items,
    manifest_path, parse_cfg, sort_all, write_all, write_cfg,
};
pub use lines::{BoundedLines, Line, LineError};
pub use memory_tree::MemoryTree;
pub use newline::newline_at;
pub use piece::Piece;
pub use progress::{Progress, Quiet};
pub use tool::{Tool, Tools};
pub use tool_root::ToolRoot;
pub use tree::Tree;
