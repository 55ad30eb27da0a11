//! Lines as messages: the value of each, and what is printed of it.

use base_text::TryClone;
use cargo_msgs::{ArtifactDebuginfo, Message};
use cases::{Case, Fault, Object, print_answer};
use serde_json::Value;
use std::alloc::Global;

/// What a call on a line gives.
pub fn answer(alloc: Global, case: Case<'_>) -> Result<Value, Fault> {
    let (line, call) = (case.text("line"), case.text("call"));
    let message = Box::new(alloc, Message::of_line(alloc, line)?)?;
    of_message(alloc, call, &message)
}

fn of_message(alloc: Global, call: &str, message: &Message) -> Result<Value, Fault> {
    match call {
        "of_line" => write_message(alloc, message),
        "copy" => copy_message(alloc, message),
        "printed" => compiler_message(alloc, message),
        "debuginfo" => debuginfo(alloc, message),
        _ => Err(Fault::Call),
    }
}

/// The value of a message, or the text of a line that is no message.
pub fn write_message(alloc: Global, message: &Message) -> Result<Value, Fault> {
    let value = message.to_value(alloc)?;
    match message {
        Message::TextLine(_) => Object::new(alloc).member("text", Ok(value)).answer(),
        _ => Ok(value),
    }
}

// The value of a message's copy.
fn copy_message(alloc: Global, message: &Message) -> Result<Value, Fault> {
    let copy = Box::new(alloc, message.try_clone(alloc)?)?;
    write_message(alloc, &copy)
}

// What is printed of what the compiler said.
fn compiler_message(alloc: Global, message: &Message) -> Result<Value, Fault> {
    match message {
        Message::CompilerMessage(message) => print_answer(alloc, message),
        _ => Err(Fault::Member("line")),
    }
}

// What is printed of an artifact's debug information, and whether it is the default.
fn debuginfo(alloc: Global, message: &Message) -> Result<Value, Fault> {
    match message {
        Message::CompilerArtifact(artifact) => {
            let debuginfo = &artifact.profile.debuginfo;
            let is_default = *debuginfo == ArtifactDebuginfo::default();
            Object::new(alloc)
                .member("printed", print_answer(alloc, debuginfo))
                .flag("default", is_default)
                .answer()
        }
        _ => Err(Fault::Member("line")),
    }
}
