//! A message of `cargo`, and a line of its output.

ghost use Rattle.std.specs.Prelude.{◌≡◌, IfOk};
ghost use Rattle.serde_json.specs.View.{view, members_view};
ghost use Rattle.json_fields.specs.Outcome.{Gives};
ghost use Rattle.cargo_msgs.specs.Messages.{IsReadBack, compiler_message_at, compiler_message_data, compiler_message_from, message_at, message_by, message_data, message_from, message_of, with_reason};
ghost use Rattle.cargo_msgs.specs.laws.Messages.{compiler_message-round_trips, message-round_trips};

use crate::artifact::{Artifact, read_artifact};
use crate::build::{BuildFinished, BuildScript, read_build_finished, read_build_script};
use crate::diagnostic::Diagnostic;
use base_text::{Text, TryClone};
use cargo_meta_values::{PackageId, Target};
use json_fields::{
    Json, ReadError, ReadJson, below, members, miss, of_text, required_member, set, set_value,
};
use serde_json::{Map, Value};
use std::alloc::{AllocError, Global};

/// What the compiler said of a target.
#[derive(Debug, PartialEq, Eq, Drop)]
pub struct CompilerMessage {
    pub package_id: PackageId,
    pub target: Target,
    pub message: Diagnostic,
}

/// A line that `cargo` writes while it builds.
#[derive(Debug, PartialEq, Eq, Drop)]
pub enum Message {
    CompilerArtifact(Artifact),
    CompilerMessage(CompilerMessage),
    BuildScriptExecuted(BuildScript),
    BuildFinished(BuildFinished),
    /// A line that is no message.
    TextLine(Text),
}

impl Message {
    /// The message that a line is, or the line as a text. A line is no message where it is no JSON, also
    /// with bytes behind it, nests too deep, holds a float, has another reason, or does not fit its table.
    #[tactic(auto, unfolding(crate::specs::Messages::message_of))]
    pub fn of_line(alloc: Global, line: &str) -> Result<Message, AllocError>
        ensures exact { IfOk result (λ message. message ≡ message_of line.now) }
        ensures again { IfOk result IsReadBack }
    {
        match of_text(alloc, line) {
            Ok(message) => Ok(message),
            Err(ReadError::Missed(_)) => Ok(Message::TextLine(Text::of_str(alloc, line)?)),
            Err(ReadError::OutOfMemory) => Err(AllocError),
        }
    }

    /// Writes every field of a message, with its reason, and a line of text as a text.
    pub fn to_value(&self, alloc: Global) -> Result<Value, AllocError>
        ensures { IfOk result (λ value. view value ≡ message_data self.now) }
    {
        self.write(alloc)
    }
}

impl TryClone for CompilerMessage {
    fn try_clone(&self, alloc: Global) -> Result<Self, AllocError> {
        Ok(CompilerMessage {
            package_id: self.package_id.try_clone(alloc)?,
            target: self.target.try_clone(alloc)?,
            message: self.message.try_clone(alloc)?,
        })
    }
}

impl TryClone for Message {
    fn try_clone(&self, alloc: Global) -> Result<Self, AllocError> {
        match self {
            Message::CompilerArtifact(artifact) => {
                Ok(Message::CompilerArtifact(artifact.try_clone(alloc)?))
            }
            Message::CompilerMessage(message) => {
                Ok(Message::CompilerMessage(message.try_clone(alloc)?))
            }
            Message::BuildScriptExecuted(script) => {
                Ok(Message::BuildScriptExecuted(script.try_clone(alloc)?))
            }
            Message::BuildFinished(finished) => {
                Ok(Message::BuildFinished(finished.try_clone(alloc)?))
            }
            Message::TextLine(line) => Ok(Message::TextLine(line.try_clone(alloc)?)),
        }
    }
}

#[tactic(auto, unfolding(crate::specs::Messages::compiler_message_at))]
impl ReadJson for CompilerMessage {
    ghost reads = { compiler_message_at };

    fn read(alloc: Global, value: &Value) -> Result<CompilerMessage, ReadError> {
        let fields = members(alloc, value)?;
        read_compiler_message(alloc, fields)
    }
}

#[tactic(auto, unfolding(crate::specs::Messages::compiler_message_from, json_fields::specs::Fields::required_member))]
fn read_compiler_message(
    alloc: Global,
    fields: &Map<String, Value>,
) -> Result<CompilerMessage, ReadError>
    ensures exact { Gives result (compiler_message_from (members_view fields.now.entries)) }
{
    Ok(CompilerMessage {
        package_id: required_member(alloc, fields, "package_id")?,
        target: required_member(alloc, fields, "target")?,
        message: required_member(alloc, fields, "message")?,
    })
}

#[tactic(auto, unfolding(crate::specs::Messages::compiler_message_data, json_fields::specs::Written::set_member))]
impl Json for CompilerMessage {
    ghost writes = { compiler_message_data };

    ghost height = { 3 };

    fn write(&self, alloc: Global) -> Result<Value, AllocError> {
        let mut fields = Map::new(alloc);
        set(alloc, &mut fields, "package_id", &self.package_id)?;
        set(alloc, &mut fields, "target", &self.target)?;
        set(alloc, &mut fields, "message", &self.message)?;
        Ok(Value::Object(fields))
    }

    ghost round_trips = { compiler_message-round_trips };
}

#[tactic(auto, unfolding(crate::specs::Messages::message_at, crate::specs::Messages::message_from))]
impl ReadJson for Message {
    ghost reads = { message_at };

    fn read(alloc: Global, value: &Value) -> Result<Message, ReadError> {
        let fields = members(alloc, value)?;
        let reason: Text = required_member(alloc, fields, "reason")?;
        read_by_reason(alloc, reason.as_str(), fields)
    }
}

#[tactic(auto, unfolding(crate::specs::Messages::message_by))]
fn read_by_reason(
    alloc: Global,
    reason: &str,
    fields: &Map<String, Value>,
) -> Result<Message, ReadError>
    ensures exact { Gives result (message_by reason.now (members_view fields.now.entries)) }
{
    match reason {
        "compiler-artifact" => Ok(Message::CompilerArtifact(read_artifact(alloc, fields)?)),
        "compiler-message" => Ok(Message::CompilerMessage(read_compiler_message(alloc, fields)?)),
        "build-script-executed" => {
            Ok(Message::BuildScriptExecuted(read_build_script(alloc, fields)?))
        }
        "build-finished" => Ok(Message::BuildFinished(read_build_finished(alloc, fields)?)),
        _ => below(alloc, "reason", miss(alloc)),
    }
}

impl Json for Message {
    ghost writes = { message_data };

    ghost height = { 3 };

    fn write(&self, alloc: Global) -> Result<Value, AllocError> {
        match self {
            Message::CompilerArtifact(artifact) => {
                add_reason(alloc, "compiler-artifact", artifact.write(alloc)?)
            }
            Message::CompilerMessage(message) => {
                add_reason(alloc, "compiler-message", message.write(alloc)?)
            }
            Message::BuildScriptExecuted(script) => {
                add_reason(alloc, "build-script-executed", script.write(alloc)?)
            }
            Message::BuildFinished(finished) => {
                add_reason(alloc, "build-finished", finished.write(alloc)?)
            }
            Message::TextLine(line) => line.write(alloc),
        }
    }

    ghost round_trips = { message-round_trips };
}

// Puts the reason into an object.
fn add_reason(alloc: Global, reason: &str, value: Value) -> Result<Value, AllocError>
    ensures { IfOk result (λ written. view written ≡ with_reason reason.now (view value)) }
{
    match value {
        Value::Object(mut fields) => {
            let reason = Value::String(String::from_str(alloc, reason)?);
            set_value(alloc, &mut fields, "reason", reason)?;
            Ok(Value::Object(fields))
        }
        other => Ok(other),
    }
}
