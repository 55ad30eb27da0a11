//! Cases of live_page, live_script and live: words of a command line, scripts through the whole program, sessions step by step, and
//! scripts over a session of another state.
#![tactic(auto)]

mod config;
mod generated;
mod runs;
mod script_texts;
mod scripts;
mod sessions;
mod tallies;
mod tally;
mod values;
mod words;

use cases::{Case, Family, Fault, run_files};
use serde_json::Value;
use std::io;
use std::process::ExitCode;
use std::rt::Files;

/// The calls of live_page, live_script and live.
struct LiveFamily;

impl<R: Files + AllocGlobal> Family<R> for LiveFamily {
    fn answer(rt: &R, file: &str, case: Case<'_>) -> Result<Value, Fault> {
        match file {
            "errors.jsonl" => runs::memory_error(rt.alloc()),
            "components.jsonl" | "generated.jsonl" | "recorded.jsonl" => {
                generated::answer(rt.alloc(), case)
            }
            "script_texts.jsonl" => script_texts::answer(rt.alloc(), case),
            "scripts.jsonl" => scripts::answer(rt, case),
            "sessions.jsonl" => sessions::answer(rt.alloc(), case),
            "tallies.jsonl" => tallies::answer(rt.alloc(), case),
            "words.jsonl" => words::answer(rt.alloc(), case),
            _ => Err(Fault::Kind),
        }
    }
}

fn main(rt: HostRuntime) -> io::Result<ExitCode> {
    run_files::<LiveFamily, HostRuntime>(&rt)
}
