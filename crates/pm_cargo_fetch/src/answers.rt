//! What the answer to the full question gives, and what it reports.

ghost use Rattle.std.specs.Prelude.{◌≡◌, false, [], ◌∷◌, IsErr, OnErr, OnOk, option_copied};
ghost use Rattle.std.specs.Str.Lines.{lines};
ghost use Rattle.cargo_meta.specs.Answer as answer;
ghost use Rattle.base_text.specs.Progress.{with_lines};
ghost use Rattle.pm_cargo_fetch.specs.Fetch as spec;
ghost use Rattle.pm_cargo_fetch.specs.Fetch.{AnswersFetch};
ghost use Rattle.pm_cargo_fetch.specs.Lines.{TakesLines};
ghost use Rattle.pm_cargo_fetch.specs.Reports.{answer_lines, begins_error, output_lines, reported_line, stream_lines};

use base_text::{Output, Progress};
use cargo_meta::{Metadata, MetadataCommand};
use cargo_meta_values::Error;
use std::alloc::{AllocError, Global};

/// Metadata with no error beside it.
pub(crate) fn without_error(
    metadata: Result<Metadata, Error>,
) -> Result<(Metadata, Option<Error>), Error>
    ensures { result ≡ spec.without_error metadata }
{
    metadata.map(|metadata| (metadata, None))
}

/// The metadata of an output, or the light metadata where the command failed.
pub(crate) fn of_output(
    alloc: Global,
    light: Result<Metadata, Error>,
    output: Output,
) -> Result<(Metadata, Option<Error>), Error>
    ensures { AnswersFetch result (spec.output_answer light output) }
{
    if output.ok {
        return without_error(document_of(alloc, output.out.as_str()));
    }
    let error = Error::CargoMetadata { stderr: output.err };
    match light {
        Ok(metadata) => Ok((metadata, Some(error))),
        Err(_) => Err(error),
    }
}

// The document of the first line that begins with `{`.
fn document_of(alloc: Global, out: &str) -> Result<Metadata, Error>
    ensures { answer.AnswersMetadata result (answer.of_line (answer.json_line out.now)) }
{
    match json_line(out) {
        Some(line) => MetadataCommand::parse(alloc, line),
        None => Err(Error::NoJson),
    }
}

// The first line that begins with `{`.
fn json_line(out: &str) -> Option<&str>
    ensures { option_copied result ≡ answer.json_line out.now }
{
    out.lines().find(|line| line.starts_with('{'))
}

/// Reports an answer, if there is one: what the command wrote to its error stream, line by line, and whether it
/// failed. The lines of an error or a warning are not shown, nor are those after it.
pub(crate) fn report<P: Progress>(
    alloc: Global,
    answer: &Option<Output>,
    progress: &mut P,
) -> Result<(), AllocError>
    ensures { TakesLines (IsErr result) (P.lines progress.old) (P.lines progress.new)
        (answer_lines answer.now) }
{
    match answer {
        Some(output) => report_output(alloc, output, progress),
        None => Ok(()),
    }
}

// Reports an output.
fn report_output<P: Progress>(
    alloc: Global,
    output: &Output,
    progress: &mut P,
) -> Result<(), AllocError>
    ensures { TakesLines (IsErr result) (P.lines progress.old) (P.lines progress.new)
        (output_lines output.now) }
{
    report_stream(alloc, output.err.as_str(), progress)?;
    if output.ok {
        return Ok(());
    }
    progress.line("cargo metadata: failed");
    Ok(())
}

// Reports an error stream, of which no line is hidden yet.
fn report_stream<P: Progress>(
    alloc: Global,
    stream: &str,
    progress: &mut P,
) -> Result<(), AllocError>
    ensures { TakesLines (IsErr result) (P.lines progress.old) (P.lines progress.new)
        (stream_lines false (lines stream.now)) }
{
    let mut is_hidden = false;
    for line in stream.lines() {
        is_hidden |= begins_error(line);
        report_line(alloc, line, is_hidden, progress)?;
    }
    Ok(())
}

// Whether the line is the first of an error or of a warning.
fn begins_error(line: &str) -> bool
    ensures { result ≡ begins_error line.now }
{
    line.starts_with("error") || line.starts_with("warning")
}

// Reports a line of an error stream.
fn report_line<P: Progress>(
    alloc: Global,
    line: &str,
    is_hidden: bool,
    progress: &mut P,
) -> Result<(), AllocError>
    ensures ok { OnOk result (P.lines progress.new
        ≡ with_lines (reported_line is_hidden line.now ∷ []) (P.lines progress.old)) }
    ensures err { OnErr result (P.lines progress.new ≡ P.lines progress.old) }
{
    if is_hidden {
        progress.line("cargo metadata: ?");
        return Ok(());
    }
    let text = format!(in alloc; "cargo metadata: {line}")?;
    progress.line(text.as_str());
    Ok(())
}
