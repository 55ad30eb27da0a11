//! Cases of documents: those that are read and written by tables, documents of `cargo metadata` with the commands that
//! ask for them, and the messages of a build.
#![tactic(auto)]

mod commands;
mod fields;
mod lines;
mod messages;
mod metadata;
mod names;
mod packages;
mod release;
mod streams;
mod values;

use cases::{Case, Family, Fault, run_files};
use serde_json::Value;
use std::io;
use std::process::ExitCode;
use std::rt::Files;

/// The calls of json_fields, cargo_meta and cargo_msgs, and of runners of commands.
struct DocumentFamily;

impl<R: Files + AllocGlobal> Family<R> for DocumentFamily {
    fn answer(rt: &R, file: &str, case: Case<'_>) -> Result<Value, Fault> {
        match file {
            "fields.jsonl" => fields::answer(rt.alloc(), case),
            "values.jsonl" => values::answer(rt.alloc(), case),
            "packages.jsonl" => packages::answer(rt.alloc(), case),
            "metadata.jsonl" => metadata::answer(rt, case),
            "names.jsonl" => names::answer(rt.alloc(), case),
            "commands.jsonl" => commands::answer(rt.alloc(), case),
            "lines.jsonl" => lines::answer(rt.alloc(), case),
            "messages.jsonl" => messages::answer(rt.alloc(), case),
            "streams.jsonl" => streams::answer(rt.alloc(), case),
            _ => Err(Fault::Kind),
        }
    }
}

fn main(rt: HostRuntime) -> io::Result<ExitCode> {
    run_files::<DocumentFamily, HostRuntime>(&rt)
}
