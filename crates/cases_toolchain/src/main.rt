//! Cases of toolchains and of JSON projects: what is configured, how tools are started and asked, what their answers say, what is
//! fetched by them, and what documents of JSON projects are read as.
#![tactic(auto)]

mod answers;
mod config;
mod discoveries;
mod environments;
mod fetch;
mod json;
mod manifests;
mod origins;
mod placed_given;
mod queries;
mod questions;
mod tools;
mod values;

use cases::{Case, Family, Fault, run_files};
use serde_json::Value;
use std::alloc::Global;
use std::io;
use std::process::ExitCode;

/// The calls of the libraries that ask the tools of a toolchain, and of those that read JSON projects.
struct ToolchainFamily;

impl<R: AllocGlobal> Family<R> for ToolchainFamily {
    fn answer(rt: &R, file: &str, case: Case<'_>) -> Result<Value, Fault> {
        let alloc = rt.alloc();
        match file {
            "json_documents.jsonl" => json::documents::answer(alloc, case),
            "json_projects.jsonl" => json::projects::answer(alloc, case),
            "origins.jsonl" => origins::answer(alloc, case),
            "values.jsonl" => values::answer(alloc, case),
            "manifests.jsonl" => manifests::answer(alloc, case),
            "discoveries.jsonl" => discoveries::answer(alloc, case),
            _ => of_tools(alloc, file, case),
        }
    }
}

// What a case gives that configures or asks tools.
fn of_tools(alloc: Global, file: &str, case: Case<'_>) -> Result<Value, Fault> {
    match file {
        "config.jsonl" => config::answer(alloc, case),
        "tools.jsonl" => tools::answer(alloc, case),
        "questions.jsonl" => questions::answer(alloc, case),
        "environments.jsonl" => environments::answer(alloc, case),
        "fetch.jsonl" => fetch::answer(alloc, case),
        "answers.jsonl" => answers::answer(alloc, case),
        "build_targets.jsonl" | "queries.jsonl" => queries::answer(alloc, case),
        _ => Err(Fault::Kind),
    }
}

fn main(rt: HostRuntime) -> io::Result<ExitCode> {
    run_files::<ToolchainFamily, HostRuntime>(&rt)
}
