//! Generated scripts, with what an independent reading of the definitions gives for each.

use crate::values::words_at;
use base_text::{MemorySink, MemorySource};
use cases::{Case, Fault, Object, bytes_answer};
use live::{Live, live_cli};
use serde_json::Value;
use std::alloc::Global;

/// The status, the output and the error output of a script, which the case gives as one text.
pub fn answer(alloc: Global, case: Case<'_>) -> Result<Value, Fault> {
    let words = words_at(alloc, case, "words")?;
    let mut input = MemorySource::new(case.text("script").as_bytes().to_vec(alloc)?);
    let mut out = MemorySink::new(alloc);
    let mut err = MemorySink::new(alloc);
    let mut live = Live::new(alloc)?;
    let status = live_cli(
        alloc,
        words.as_slice(),
        &mut live,
        &mut input,
        &mut out,
        &mut err,
    );
    Object::new(alloc)
        .number("status", status as u64)
        .member("out", bytes_answer(alloc, out.bytes()))
        .member("err", bytes_answer(alloc, err.bytes()))
        .answer()
}
