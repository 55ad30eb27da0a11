//! Runs of the whole program, over streams of which the reads and writes of some numbers fail, and the error that no script makes.

use base_text::{FaultSink, FaultSource, MemorySink};
use cases::{Fault, List};
use live::{Live, LiveError, fault_text, live_cli};
use serde_json::Value;
use std::alloc::Global;

/// What a run leaves: its status, whether its session has ended, and its sinks.
#[derive(Drop)]
pub struct Ran {
    pub status: u8,
    pub ended: bool,
    pub out: FaultSink,
    pub err: MemorySink,
}

/// Runs the program on a new session. The reads and writes of the failing numbers fail.
pub fn run(
    alloc: Global,
    words: &[String],
    script: &[u8],
    failing_reads: &[u64],
    failing_writes: &[u64],
) -> Result<Ran, Fault> {
    let mut live = Box::new(alloc, Live::new(alloc)?)?;
    let writes = failing_writes.to_vec(alloc)?;
    let reads = failing_reads.to_vec(alloc)?;
    let mut input = FaultSource::new(script.to_vec(alloc)?, reads);
    let mut out = FaultSink::new(alloc, writes);
    let mut err = MemorySink::new(alloc);
    let status = live_cli(alloc, words, &mut live, &mut input, &mut out, &mut err);
    let ended = live.ended();
    Ok(Ran {
        status,
        ended,
        out,
        err,
    })
}

/// The status of out of memory, and its text for people.
pub fn memory_error(alloc: Global) -> Result<Value, Fault> {
    let error = LiveError::OutOfMemory;
    let text = fault_text(alloc, &error)?;
    List::new(alloc)
        .number(error.status() as u64)
        .text(text.as_str())
        .answer()
}
