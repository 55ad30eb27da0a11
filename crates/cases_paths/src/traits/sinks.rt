//! Sinks of bytes: in memory, with writes that fail, narrow ones, and writers of std. Each is written to at the bound of its trait.

use crate::traits::broken::{Broken, Unflushed};
use crate::traits::numbers;
use base_text::{ByteSink, FaultSink, MemorySink, SinkError, write_all};
use base_text_outside::WriterSink;
use cases::{Case, Fault, List, Object, bytes_answer, print_answer};
use serde_json::Value;
use std::alloc::Global;

/// What a sink has after writes of whole pieces.
pub fn answer(alloc: Global, case: Case<'_>) -> Result<Value, Fault> {
    match case.text("call") {
        "MemorySink" => {
            let mut sink = MemorySink::new(alloc);
            let writes = writes(alloc, &mut sink, case);
            sink_answer(alloc, writes, sink.bytes(), faults_of(&sink))
        }
        "FaultSink" => {
            let mut sink = FaultSink::new(alloc, numbers(alloc, case, "failing")?);
            let writes = writes(alloc, &mut sink, case);
            sink_answer(alloc, writes, sink.bytes(), faults_of(&sink))
        }
        "ByteSink" => of_narrow(alloc, case),
        "WriterSink" => of_writer(alloc, case),
        _ => Err(Fault::Call),
    }
}

fn of_narrow(alloc: Global, case: Case<'_>) -> Result<Value, Fault> {
    let mut sink = Narrow {
        taken: Vec::new(alloc),
        room: case.number("room") as usize,
        faults: 0,
    };
    let writes = writes(alloc, &mut sink, case);
    sink_answer(alloc, writes, sink.taken.as_slice(), faults_of(&sink))
}

// A writer in memory, or one that fails or refuses its flushes where the case says so, which holds nothing.
fn of_writer(alloc: Global, case: Case<'_>) -> Result<Value, Fault> {
    if case.flag("unflushed") {
        let mut sink = WriterSink::new(Unflushed);
        let writes = writes(alloc, &mut sink, case);
        return sink_answer(alloc, writes, &[], faults_of(&sink));
    }
    if case.flag("broken") {
        let mut sink = WriterSink::new(Broken);
        let writes = writes(alloc, &mut sink, case);
        return sink_answer(alloc, writes, &[], faults_of(&sink));
    }
    let mut written = Vec::new(alloc);
    let mut sink = WriterSink::new(&mut written);
    let writes = writes(alloc, &mut sink, case);
    let faults = faults_of(&sink);
    sink_answer(alloc, writes, written.as_slice(), faults)
}

// A sink that takes two bytes at a time, and nothing once it is full.
#[derive(Drop)]
struct Narrow {
    taken: Vec<u8>,
    room: usize,
    faults: u64,
}

impl ByteSink for Narrow {
    ghost use Rattle.std.specs.Prelude.{Some};

    ghost held = { λ s. Some s.taken.items };

    ghost faults = { λ s. s.faults };

    fn write(&mut self, piece: &[u8]) -> Result<usize, SinkError> {
        let count = piece.len().min(2).min(self.room);
        self.taken.extend_from_slice(&piece[..count])?;
        self.room -= count;
        if count == 0 {
            self.faults = self.faults.saturating_add(1);
        }
        Ok(count)
    }

    fn faults(&self) -> u64 {
        self.faults
    }
}

fn faults_of<K: ByteSink>(sink: &K) -> u64 {
    sink.faults()
}

// Null for each piece that is written, else what is printed of its error.
fn writes<K: ByteSink>(alloc: Global, sink: &mut K, case: Case<'_>) -> Result<Value, Fault> {
    let mut answers = List::new(alloc);
    for piece in case.list("writes") {
        answers = match write_all(sink, case.with(piece).as_text().as_bytes()) {
            Ok(()) => answers.optional(None),
            Err(error) => answers.item(print_answer(alloc, &error)),
        };
    }
    answers.answer()
}

// What the writes gave, the bytes that the sink holds, and how many writes have failed.
fn sink_answer(
    alloc: Global,
    writes: Result<Value, Fault>,
    bytes: &[u8],
    faults: u64,
) -> Result<Value, Fault> {
    Object::new(alloc)
        .member("writes", writes)
        .member("bytes", bytes_answer(alloc, bytes))
        .member("memory", print_answer(alloc, &SinkError::OutOfMemory))
        .number("faults", faults)
        .answer()
}
