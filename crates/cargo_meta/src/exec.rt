//! What the answer to a metadata command holds.

ghost use Rattle.std.specs.Prelude.{◌≡◌, IfOk, option_copied};
ghost use Rattle.base_text_outside.specs.Runner.{answer_of};
ghost use Rattle.json_fields.specs.Document as documents;
ghost use Rattle.json_fields.specs.Document.{IsWholeAgain};
ghost use Rattle.cargo_meta.specs.Answer as spec;
ghost use Rattle.cargo_meta.specs.Answer.{AnswersMetadata, of_answer, of_output};
ghost use Rattle.cargo_meta.specs.Command.{metadata_command};
ghost use Rattle.cargo_meta_values.specs.Errors.{GivesDocument};
ghost use Rattle.cargo_meta.specs.Metadata.{metadata_at, metadata_data};

use crate::command::MetadataCommand;
use crate::metadata::Metadata;
use crate::words::join_texts;
use base_text_outside::{CommandLine, Output, Runner};
use base_values::Text;
use cargo_meta_values::{Error, as_error};
use json_fields::of_text;
use std::alloc::{AllocError, Global};

impl MetadataCommand {
    /// Reads a document's text: `syntax` where it is no JSON or too deep, else as `Metadata::of_value`.
    pub fn parse(alloc: Global, text: &str) -> Result<Metadata, Error>
        ensures exact { GivesDocument result (documents.document metadata_at text.now) }
        ensures again { IfOk result (IsWholeAgain metadata_at metadata_data) }
    {
        as_error(of_text(alloc, text))
    }

    /// Asks the runner, and reads the first line of its answer that begins with `{`.
    pub fn exec<R: Runner>(&self, alloc: Global, runner: &R) -> Result<Metadata, Error>
        ensures exact { AnswersMetadata result (of_answer (metadata_command self.now)
            (answer_of (R.answers runner.now) (metadata_command self.now))) }
        ensures again { IfOk result (IsWholeAgain metadata_at metadata_data) }
    {
        let line = self.cargo_command(alloc)?;
        match runner.ask(alloc, &line)? {
            Some(output) => read_output(alloc, output),
            None => Err(Error::Io {
                line: line_text(alloc, &line)?,
            }),
        }
    }
}

/// The program and its words, with a space between each two.
fn line_text(alloc: Global, line: &CommandLine) -> Result<Text, AllocError>
    ensures { IfOk result (λ text. text ≡ spec.line_text line.now) }
{
    let program = line.program.as_str();
    let words = line.words.as_slice();
    if words.is_empty() {
        return Text::of_str(alloc, program);
    }
    let words = join_texts(alloc, words, " ")?;
    let text = format!(in alloc; "{program} {words}")?;
    Ok(Text::new(text))
}

/// The document of what a command wrote, where it succeeded.
fn read_output(alloc: Global, output: Output) -> Result<Metadata, Error>
    ensures exact { AnswersMetadata result (of_output output) }
    ensures again { IfOk result (IsWholeAgain metadata_at metadata_data) }
{
    if !output.ok {
        return Err(Error::CargoMetadata { stderr: output.err });
    }
    match json_line(output.out.as_str()) {
        Some(line) => MetadataCommand::parse(alloc, line),
        None => Err(Error::NoJson),
    }
}

/// The first line that begins with `{`.
fn json_line(out: &str) -> Option<&str>
    ensures { option_copied result ≡ spec.json_line out.now }
{
    out.lines().find(|line| line.starts_with('{'))
}
