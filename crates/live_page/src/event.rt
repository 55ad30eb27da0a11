//! Events: what a script line says.

ghost use Rattle.json_fields.specs.Outcome.{Gives};
ghost use Rattle.serde_json.specs.View.{members_view};
ghost use Rattle.live_page.specs.Event.{AnswersEvent, answer_at, build_at, event, exclude_at, file_event_at, load_at, output_at, path_under, real_path};

use base_text::{CommandLine, Items, Output, PathError, Text, TryClone};
use json_fields::{
    ReadError, ReadJson, default_member, members, miss, of_bytes, optional_member, required_member,
};
use serde_json::{Map, Value};
use std::alloc::{AllocError, Global};
use thiserror::Error;
use vfs_core::VfsPath;

/// The line is no event, or there was no memory.
#[derive(Clone, Copy, Debug, PartialEq, Eq, Error)]
pub enum EventError {
    #[error("Refused")]
    Refused,
    #[error("OutOfMemory")]
    OutOfMemory,
}

/// One line of a script.
#[derive(Debug, PartialEq, Eq, Drop)]
pub enum Event {
    /// A file gets a text, or is deleted.
    File { path: VfsPath, text: Option<Text> },
    /// A file is left out, for good.
    Exclude { path: VfsPath },
    /// The result of a command is recorded.
    Answer { line: CommandLine, output: Output },
    /// A project is loaded: the path of its manifest, as it is written.
    Load { path: Text },
    /// The project was built: the result of the command that builds it.
    Build { output: Output },
    /// A page is to be written.
    Flush,
}

impl TryClone for Event {
    ghost use Rattle.std.specs.Prelude.{◌≡◌, IfOk, OnErr};
    ghost use Rattle.live_page.specs.declared.event.Event.TheVariants.{Flush};

    // A copy of a flush takes no memory.
    fn try_clone(&self, alloc: Global) -> Result<Self, AllocError>
        ensures same { IfOk result (λ copy. copy ≡ self.now) }
        ensures flush { OnErr result (self.now ≡ Flush → ⊥) }
    {
        match self {
            Event::File { path, text } => {
                let path = path.try_clone(alloc)?;
                let text = text.try_clone(alloc)?;
                Ok(Event::File { path, text })
            }
            Event::Exclude { path } => {
                let path = path.try_clone(alloc)?;
                Ok(Event::Exclude { path })
            }
            Event::Answer { line, output } => {
                let line = line.try_clone(alloc)?;
                let output = output.try_clone(alloc)?;
                Ok(Event::Answer { line, output })
            }
            Event::Load { path } => {
                let path = path.try_clone(alloc)?;
                Ok(Event::Load { path })
            }
            Event::Build { output } => {
                let output = output.try_clone(alloc)?;
                Ok(Event::Build { output })
            }
            Event::Flush => Ok(Event::Flush),
        }
    }
}

impl Event {
    #[tactic(auto, unfolding(crate::specs::Event::event))]
    /// The event of a line, which has no newline. White space of JSON may stand around it.
    pub fn of_line(alloc: Global, line: &[u8]) -> Result<Event, EventError>
        ensures { AnswersEvent result (event line.now) }
    {
        match of_bytes(alloc, line) {
            Ok(event) => Ok(event),
            Err(ReadError::Missed(_)) => Err(EventError::Refused),
            Err(ReadError::OutOfMemory) => Err(EventError::OutOfMemory),
        }
    }
}

#[tactic(auto, unfolding(crate::specs::Event::event_at))]
impl ReadJson for Event {
    ghost use Rattle.live_page.specs.Event.{event_at};

    ghost reads = { event_at };

    fn read(alloc: Global, value: &Value) -> Result<Self, ReadError> {
        let fields = members(alloc, value)?;
        let name: Text = required_member(alloc, fields, "event")?;
        match name.as_str() {
            "file" => file_of(alloc, fields),
            "exclude" => exclude_of(alloc, fields),
            "answer" => answer_of(alloc, fields),
            "load" => load_of(alloc, fields),
            "build" => build_of(alloc, fields),
            "flush" => Ok(Event::Flush),
            _ => miss(alloc),
        }
    }
}

// The event that is named `file`.
#[tactic(auto, unfolding(crate::specs::Event::file_event_at))]
fn file_of(alloc: Global, fields: &Map<String, Value>) -> Result<Event, ReadError>
    ensures { Gives result (file_event_at (members_view fields.now.entries)) }
{
    let path = path_of(alloc, fields)?;
    let text = optional_member(alloc, fields, "text")?;
    Ok(Event::File { path, text })
}

// The event that is named `exclude`.
#[tactic(auto, unfolding(crate::specs::Event::exclude_at))]
fn exclude_of(alloc: Global, fields: &Map<String, Value>) -> Result<Event, ReadError>
    ensures { Gives result (exclude_at (members_view fields.now.entries)) }
{
    let path = path_of(alloc, fields)?;
    Ok(Event::Exclude { path })
}

// The event that is named `answer`. The variables of a command play no part.
#[tactic(auto, unfolding(crate::specs::Event::answer_at))]
fn answer_of(alloc: Global, fields: &Map<String, Value>) -> Result<Event, ReadError>
    ensures { Gives result (answer_at (members_view fields.now.entries)) }
{
    let program = required_member(alloc, fields, "program")?;
    let words = required_member(alloc, fields, "words")?;
    let dir = required_member(alloc, fields, "dir")?;
    let output = output_of(alloc, fields)?;
    let env = Items::empty(alloc);
    let line = CommandLine {
        program,
        words,
        dir,
        env,
    };
    Ok(Event::Answer { line, output })
}

// Whether a command succeeded, and what it wrote.
#[tactic(auto, unfolding(crate::specs::Event::output_at))]
fn output_of(alloc: Global, fields: &Map<String, Value>) -> Result<Output, ReadError>
    ensures { Gives result (output_at (members_view fields.now.entries)) }
{
    let ok = required_member(alloc, fields, "ok")?;
    let out = default_member(alloc, fields, "out", Text::of_str(alloc, "")?)?;
    let err = default_member(alloc, fields, "err", Text::of_str(alloc, "")?)?;
    Ok(Output { ok, out, err })
}

// The event that is named `load`.
#[tactic(auto, unfolding(crate::specs::Event::load_at))]
fn load_of(alloc: Global, fields: &Map<String, Value>) -> Result<Event, ReadError>
    ensures { Gives result (load_at (members_view fields.now.entries)) }
{
    let path = required_member(alloc, fields, "path")?;
    Ok(Event::Load { path })
}

// The event that is named `build`.
#[tactic(auto, unfolding(crate::specs::Event::build_at))]
fn build_of(alloc: Global, fields: &Map<String, Value>) -> Result<Event, ReadError>
    ensures { Gives result (build_at (members_view fields.now.entries)) }
{
    let output = output_of(alloc, fields)?;
    Ok(Event::Build { output })
}

// The real path under the key `path`.
#[tactic(auto, unfolding(crate::specs::Event::path_under))]
fn path_of(alloc: Global, fields: &Map<String, Value>) -> Result<VfsPath, ReadError>
    ensures { Gives result (path_under (members_view fields.now.entries)) }
{
    let text: Text = required_member(alloc, fields, "path")?;
    real_path(alloc, text.as_str())
}

// The real path of an absolute text.
fn real_path(alloc: Global, text: &str) -> Result<VfsPath, ReadError>
    ensures { Gives result (real_path text.now) }
{
    match VfsPath::new_real_path(alloc, text) {
        Ok(path) => Ok(path),
        Err(PathError::NotAbsolute) => miss(alloc),
        Err(PathError::OutOfMemory) => Err(ReadError::OutOfMemory),
    }
}
