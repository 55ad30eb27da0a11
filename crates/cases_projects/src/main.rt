//! Cases of projects: what documents of Cargo workspaces are read as, how projects of each kind are loaded, the graphs that they are
//! lowered to and their roots, and how they are built.
#![tactic(auto)]

mod counting;
mod detached;
mod given;
mod graphs;
mod json_lowerings;
mod loaders;
mod lowerings;
mod project_builds;
mod projects;
mod roots;
mod values;
mod workspace_builds;
mod workspaces;

use cases::{Case, Family, Fault, run_files};
use serde_json::Value;
use std::io;
use std::process::ExitCode;

/// The calls of the libraries that read, load, lower and build projects.
struct ProjectFamily;

impl<R: AllocGlobal> Family<R> for ProjectFamily {
    fn answer(rt: &R, file: &str, case: Case<'_>) -> Result<Value, Fault> {
        let alloc = rt.alloc();
        match file {
            "workspaces.jsonl" => workspaces::answer(alloc, case),
            "loaders.jsonl" => loaders::answer(alloc, case),
            "lowerings.jsonl" | "generated.jsonl" => lowerings::answer(alloc, case),
            "projects.jsonl" => projects::answer(alloc, case),
            "project_builds.jsonl" => project_builds::answer(alloc, case),
            "roots.jsonl" => roots::answer(alloc, case),
            "json_lowerings.jsonl" => json_lowerings::answer(alloc, case),
            "detached.jsonl" => detached::answer(alloc, case),
            "build_questions.jsonl" => workspace_builds::build_questions::answer(alloc, case),
            "builds.jsonl" => workspace_builds::builds::answer(alloc, case),
            "outputs.jsonl" => workspace_builds::outputs::answer(alloc, case),
            _ => Err(Fault::Kind),
        }
    }
}

fn main(rt: HostRuntime) -> io::Result<ExitCode> {
    run_files::<ProjectFamily, HostRuntime>(&rt)
}
