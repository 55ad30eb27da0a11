//! Scripts of a session that counts files, over the run that the program's session has too.

use crate::tally::{Tally, tally_run};
use crate::values::script_of;
use base_text::{MemorySink, MemorySource};
use cases::{Case, Fault, Object, bytes_answer};
use serde_json::Value;
use std::alloc::Global;

/// What a script gives: the status, and what the flushes write.
pub fn answer(alloc: Global, case: Case<'_>) -> Result<Value, Fault> {
    let mut input = MemorySource::new(script_of(alloc, case)?);
    let mut out = MemorySink::new(alloc);
    let mut tally = Tally::new();
    let status = match tally_run(alloc, &mut tally, &mut input, &mut out) {
        Ok(()) => 0,
        Err(error) => error.status(),
    };
    Object::new(alloc)
        .number("status", status as u64)
        .member("out", bytes_answer(alloc, out.bytes()))
        .answer()
}
