//! Cases of what a crate is made of, of graphs of crates, and of databases that hold them.
#![tactic(auto)]

mod closure;
mod crates;
mod databases;
mod edges;
mod envs;
mod graphs;
mod joining;
mod making;

use cases::{Case, Family, Fault, run_files};
use serde_json::Value;
use std::io;
use std::process::ExitCode;

/// The calls of crate_graph, input_db and pages.
struct GraphFamily;

impl<R: AllocGlobal> Family<R> for GraphFamily {
    fn answer(rt: &R, file: &str, case: Case<'_>) -> Result<Value, Fault> {
        match file {
            "crates.jsonl" => crates::answer(rt.alloc(), case),
            "envs.jsonl" => envs::answer(rt.alloc(), case),
            "graphs.jsonl" => graphs::answer(rt.alloc(), case),
            _ => databases::answer(rt.alloc(), file, case),
        }
    }
}

fn main(rt: HostRuntime) -> io::Result<ExitCode> {
    run_files::<GraphFamily, HostRuntime>(&rt)
}
