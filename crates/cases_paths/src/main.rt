//! Cases of values, of the outside and of files: absolute paths, paths of the virtual file system, tables of files, sets of files,
//! entries of loaders, and trees of files.
#![tactic(auto)]

mod arenas;
mod cfgs;
mod files;
mod loader;
mod marks;
mod memory_trees;
mod orders;
mod paths;
mod sets;
mod traits;
mod vfs_paths;

use cases::{Case, Family, Fault, run_files};
use serde_json::Value;
use std::alloc::Global;
use std::io;
use std::process::ExitCode;

/// The calls of base_text, streams, trees, vfs_core, vfs_sets and vfs_core_loader.
struct PathFamily;

impl<R: AllocGlobal> Family<R> for PathFamily {
    fn answer(rt: &R, file: &str, case: Case<'_>) -> Result<Value, Fault> {
        let alloc = rt.alloc();
        match file {
            "paths.jsonl" => paths::answer(alloc, case),
            "vfs_paths.jsonl" => vfs_paths::answer(alloc, case),
            "files.jsonl" => files::answer(alloc, case),
            "loader.jsonl" => loader::answer(alloc, case),
            "sets.jsonl" => sets::answer(alloc, case),
            "trees.jsonl" => memory_trees::answer(alloc, case),
            _ => of_values(alloc, file, case),
        }
    }
}

// What a case of values, or of the outside, gives.
fn of_values(alloc: Global, file: &str, case: Case<'_>) -> Result<Value, Fault> {
    match file {
        "arenas.jsonl" => arenas::answer(alloc, case),
        "cfgs.jsonl" => cfgs::answer(alloc, case),
        "counts.jsonl" => traits::counts::answer(alloc, case),
        "orders.jsonl" => orders::answer(alloc, case),
        "sinks.jsonl" => traits::sinks::answer(alloc, case),
        "sources.jsonl" => traits::sources::answer(alloc, case),
        _ => Err(Fault::Kind),
    }
}

fn main(rt: HostRuntime) -> io::Result<ExitCode> {
    run_files::<PathFamily, HostRuntime>(&rt)
}
