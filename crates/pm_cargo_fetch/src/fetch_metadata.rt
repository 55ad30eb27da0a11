//! Fetching metadata: the light question is asked first, the full one later, and it decides.

ghost use Rattle.std.specs.Prelude.{◌≡◌, true, IfOk, IsErrOf, OnOk};
ghost use Rattle.base_text_outside.specs.Runner.{answer_of};
ghost use Rattle.cargo_meta.specs.Answer.{of_answer};
ghost use Rattle.cargo_meta.specs.Command.{metadata_command};
ghost use Rattle.base_text_paths.specs.AbsPath.{abs_text};
ghost use Rattle.pm_cargo_fetch.specs.Fetch.{AnswersFetch, HasOutput, fetch_answer, fetch_by, fetch_of, full_line};
ghost use Rattle.pm_cargo_fetch.specs.Lines.{TakesLines};
ghost use Rattle.pm_cargo_fetch.specs.Options.{full_options};
ghost use Rattle.pm_cargo_fetch.specs.Questions.{locked_question};
ghost use Rattle.pm_cargo_fetch.specs.Reports.{fetch_lines, question_lines};

use crate::answers::{of_output, report, without_error};
use crate::options::{has_unstable, metadata_options, with_unstable};
use crate::question::metadata_command;
use crate::words::line_text;
use base_text::{
    AbsPath, CommandLine, Items, ManifestPath, Output, Progress, Runner, Text, ToolRoot, TryClone,
};
use base_text_outside::command_words::push_flag;
use cargo_meta::{Metadata, MetadataCommand};
use cargo_meta_values::Error;
use pm_cargo_config::{CargoMetadataConfig, allow_unstable};
use std::alloc::{AllocError, Global};
use std::marker::Model;

/// Metadata that is ready to be fetched. The light question has been asked.
#[derive(Drop)]
pub struct FetchMetadata {
    full: CommandLine,
    no_deps: bool,
    light: Result<Metadata, Error>,
}

/// Contracts see the full question, whether the light answer is enough, and what that answer is.
impl Model for FetchMetadata {
    ghost use Rattle.std.specs.Coded.{codes};
    ghost use Rattle.cargo_meta.specs.contracts.metadata.Metadata as document;
    ghost use Rattle.pm_cargo_fetch.specs.Fetch.{Fetch};

    ghost Value = { Fetch };

    ghost coded = { Prim.hlevel (codes, document.the_row.coded) };

    ghost view = { λ a. record { full = a.full; no_deps = a.no_deps; light = a.light } };
}

impl FetchMetadata {
    /// Asks the light question, for the members of the workspace alone, and keeps its answer. Where
    /// `no_deps` is set that answer decides, whatever the full question has.
    pub fn new<R: Runner>(
        alloc: Global,
        cargo_toml: &ManifestPath,
        dir: AbsPath<'_>,
        config: &CargoMetadataConfig,
        tool_root: &ToolRoot,
        no_deps: bool,
        runner: &R,
    ) -> Result<FetchMetadata, AllocError>
        ensures { IfOk result (λ fetch. fetch ≡ fetch_of cargo_toml.now (abs_text dir.entry)
            config.now tool_root.now no_deps (R.answers runner.now)) }
    {
        let options = metadata_options(alloc, cargo_toml, config)?;
        let mut command = metadata_command(alloc, cargo_toml, dir, config, tool_root)?;
        prepare(alloc, &mut command, options, no_deps, runner)
    }

    /// The full question, which `exec` asks, with one word more where the lockfile is kept.
    pub fn question(&self) -> &CommandLine
        ensures { result.now ≡ self.now.full }
    {
        &self.full
    }

    /// The metadata, and beside it the error of the full question where the light answer stands in for
    /// it. With `locked` the lockfile stays as it is. `progress` takes a line when the full question is
    /// asked and when it is answered, and those that its answer reports.
    pub fn exec<R: Runner, P: Progress>(
        self,
        alloc: Global,
        locked: bool,
        runner: &R,
        progress: &mut P,
    ) -> Result<(Metadata, Option<Error>), Error>
        ensures answer { AnswersFetch result (fetch_answer self locked (R.answers runner.now)) }
        ensures lines { TakesLines (IsErrOf result Error.OutOfMemory)
            (P.lines progress.old) (P.lines progress.new)
            (fetch_lines self locked (R.answers runner.now)) }
    {
        let FetchMetadata {
            full,
            no_deps,
            light,
        } = self;
        if no_deps {
            return without_error(light);
        }
        let output = full_output(alloc, full, locked, runner, progress)?;
        of_output(alloc, light, output)
    }
}

impl TryClone for FetchMetadata {
    fn try_clone(&self, alloc: Global) -> Result<Self, AllocError> {
        Ok(FetchMetadata {
            full: self.full.try_clone(alloc)?,
            no_deps: self.no_deps,
            light: copy_of(alloc, &self.light)?,
        })
    }
}

// Asks the light question of a command with these options, and keeps its answer beside the full
// question.
fn prepare<R: Runner>(
    alloc: Global,
    command: &mut MetadataCommand,
    options: Items<Text>,
    no_deps: bool,
    runner: &R,
) -> Result<FetchMetadata, AllocError>
    ensures { IfOk result (λ fetch. fetch
        ≡ fetch_by command.old options no_deps (R.answers runner.now)) }
{
    let full = full_line(alloc, command, &options)?;
    limit_to_members(command, options);
    let light = ask(alloc, command, runner)?;
    Ok(FetchMetadata {
        full,
        no_deps,
        light,
    })
}

// A copy of an answer.
fn copy_of(
    alloc: Global,
    answer: &Result<Metadata, Error>,
) -> Result<Result<Metadata, Error>, AllocError>
    ensures { IfOk result (λ copy. copy ≡ answer.now) }
{
    match answer {
        Ok(metadata) => Ok(Ok(metadata.try_clone(alloc)?)),
        Err(error) => Ok(Err(error.try_clone(alloc)?)),
    }
}

// What the command of the full question wrote.
fn full_output<R: Runner, P: Progress>(
    alloc: Global,
    full: CommandLine,
    locked: bool,
    runner: &R,
    progress: &mut P,
) -> Result<Output, Error>
    ensures output { HasOutput result (locked_question full locked)
        (answer_of (R.answers runner.now) (locked_question full locked)) }
    ensures lines { TakesLines (IsErrOf result Error.OutOfMemory)
        (P.lines progress.old) (P.lines progress.new)
        (question_lines (answer_of (R.answers runner.now) (locked_question full locked))) }
{
    let line = with_lockfile_kept(alloc, full, locked)?;
    line_output(alloc, &line, runner, progress)
}

// What the command of a line wrote.
fn line_output<R: Runner, P: Progress>(
    alloc: Global,
    line: &CommandLine,
    runner: &R,
    progress: &mut P,
) -> Result<Output, Error>
    ensures output { HasOutput result line.now (answer_of (R.answers runner.now) line.now) }
    ensures lines { TakesLines (IsErrOf result Error.OutOfMemory)
        (P.lines progress.old) (P.lines progress.new)
        (question_lines (answer_of (R.answers runner.now) line.now)) }
{
    progress.line("cargo metadata: started");
    let answer = runner.ask(alloc, line)?;
    report(alloc, &answer, progress)?;
    progress.line("cargo metadata: finished");
    match answer {
        Some(output) => Ok(output),
        None => Err(Error::Io {
            line: line_text(alloc, line)?,
        }),
    }
}

// The line of a command that has these options, and leave for unstable ones.
fn full_line(
    alloc: Global,
    command: &mut MetadataCommand,
    options: &Items<Text>,
) -> Result<CommandLine, AllocError>
    ensures line { IfOk result (λ line. line ≡ full_line command.old options.now) }
    ensures options { OnOk result (command.new
        ≡ record command.old { other_options = full_options options.now }) }
{
    command.other_options(with_unstable(alloc, options)?);
    let line = command.cargo_command(alloc)?;
    allow_unstable(alloc, line, has_unstable(options.as_slice()))
}

// Limits the command to the members, with these options.
fn limit_to_members(command: &mut MetadataCommand, options: Items<Text>)
    ensures { command.new ≡ record command.old { other_options = options; no_deps = true } }
{
    command.other_options(options).no_deps();
}

// What a command answers.
fn ask<R: Runner>(
    alloc: Global,
    command: &MetadataCommand,
    runner: &R,
) -> Result<Result<Metadata, Error>, AllocError>
    ensures { IfOk result (λ answer. answer ≡ of_answer (metadata_command command.now)
        (answer_of (R.answers runner.now) (metadata_command command.now))) }
{
    match command.exec(alloc, runner) {
        Err(Error::OutOfMemory) => Err(AllocError),
        answer => Ok(answer),
    }
}

// The question, which keeps the lockfile as it is where that is asked for.
fn with_lockfile_kept(
    alloc: Global,
    line: CommandLine,
    locked: bool,
) -> Result<CommandLine, AllocError>
    ensures { IfOk result (λ kept. kept ≡ locked_question line locked) }
{
    let CommandLine {
        program,
        words,
        dir,
        env,
    } = line;
    let mut words = words.into_inner();
    push_flag(alloc, &mut words, locked, "--locked")?;
    Ok(CommandLine {
        program,
        words: Items::new(words),
        dir,
        env,
    })
}
