//! The messages of streams: of a text, or of bytes, that a source gives.

use crate::messages::write_message;
use base_text::FaultSource;
use cargo_msgs::{ItemFault, Message, MessageIter};
use cases::{Case, Fault, List, Object, print_answer};
use serde_json::Value;
use std::alloc::Global;

/// The items of a stream, or how many there are of each kind.
pub fn answer(alloc: Global, case: Case<'_>) -> Result<Value, Fault> {
    let mut messages = messages_of(alloc, case)?;
    of_stream(alloc, case, &mut messages)
}

fn of_stream(
    alloc: Global,
    case: Case<'_>,
    messages: &mut MessageIter<FaultSource>,
) -> Result<Value, Fault> {
    match case.text("call") {
        "items" => items(alloc, messages),
        "count" => count(alloc, messages),
        _ => Err(Fault::Call),
    }
}

// The messages of the bytes of a case. The source fails at the reads that the case names.
fn messages_of(alloc: Global, case: Case<'_>) -> Result<MessageIter<FaultSource>, Fault> {
    let mut failing = Vec::new(alloc);
    for number in case.list("failing") {
        failing.push(case.with(number).as_number())?;
    }
    let source = FaultSource::new(stream_bytes(alloc, case)?, failing);
    Ok(Message::parse_stream(alloc, source, case.number("max_line") as usize)?)
}

// The text so many times, once where the case does not say it, or the bytes, each at most 255.
fn stream_bytes(alloc: Global, case: Case<'_>) -> Result<Vec<u8>, Fault> {
    let mut bytes = Vec::new(alloc);
    for byte in case.list("bytes") {
        bytes.push(case.with(byte).as_number().min(255) as u8)?;
    }
    let text = case.optional_text("text").unwrap_or("");
    for _ in 0..case.find("times").and_then(Value::as_u64).unwrap_or(1) {
        bytes.extend_from_slice(text.as_bytes())?;
    }
    Ok(bytes)
}

// All items. After the end there is none.
fn items(alloc: Global, messages: &mut MessageIter<FaultSource>) -> Result<Value, Fault> {
    let mut items = List::new(alloc);
    for _ in 0..u64::MAX {
        match next_answer(alloc, messages)? {
            Some(answer) => items = items.item(Ok(answer)),
            None => break,
        }
    }
    match next_answer(alloc, messages)? {
        Some(_) => Err(Fault::Condition),
        None => items.answer(),
    }
}

fn next_answer(
    alloc: Global,
    messages: &mut MessageIter<FaultSource>,
) -> Result<Option<Value>, Fault> {
    let item = Box::new(alloc, messages.next())?;
    item_answer(alloc, &item)
}

fn item_answer(
    alloc: Global,
    item: &Option<Result<Message, ItemFault>>,
) -> Result<Option<Value>, Fault> {
    match item {
        Some(Ok(message)) => Ok(Some(write_message(alloc, message)?)),
        Some(Err(fault)) => Ok(Some(fault_answer(alloc, fault)?)),
        None => Ok(None),
    }
}

fn fault_answer(alloc: Global, fault: &ItemFault) -> Result<Value, Fault> {
    match fault {
        ItemFault::OutOfMemory => Err(Fault::OutOfMemory),
        _ => Object::new(alloc)
            .member("error", print_answer(alloc, fault))
            .answer(),
    }
}

// How many messages, lines of text and refused lines there are.
#[derive(Clone, Copy)]
struct Counts {
    messages: u64,
    texts: u64,
    faults: u64,
}

impl Counts {
    // Counts an item, and says whether there is one.
    fn add(&mut self, item: &Option<Result<Message, ItemFault>>) -> Result<bool, Fault> {
        match item {
            Some(Ok(Message::TextLine(_))) => self.texts = self.texts.saturating_add(1),
            Some(Ok(_)) => self.messages = self.messages.saturating_add(1),
            Some(Err(ItemFault::OutOfMemory)) => return Err(Fault::OutOfMemory),
            Some(Err(_)) => self.faults = self.faults.saturating_add(1),
            None => return Ok(false),
        }
        Ok(true)
    }
}

// Counts the next item, and says whether there was one.
fn count_next(
    alloc: Global,
    messages: &mut MessageIter<FaultSource>,
    counts: &mut Counts,
) -> Result<bool, Fault> {
    let item = Box::new(alloc, messages.next())?;
    counts.add(&item)
}

fn count(alloc: Global, messages: &mut MessageIter<FaultSource>) -> Result<Value, Fault> {
    let mut counts = Counts {
        messages: 0,
        texts: 0,
        faults: 0,
    };
    for _ in 0..u64::MAX {
        if !count_next(alloc, messages, &mut counts)? {
            break;
        }
    }
    Object::new(alloc)
        .number("messages", counts.messages)
        .number("texts", counts.texts)
        .number("faults", counts.faults)
        .answer()
}
