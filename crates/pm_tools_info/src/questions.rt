//! The questions that the tools of a toolchain are asked.

ghost use Rattle.std.specs.Prelude.{◌≡◌, IfOk, option_copied};
ghost use Rattle.pm_tools_ask.specs.Ask.{means_of};
ghost use Rattle.pm_tools_ask.specs.Questions.{question};
ghost use Rattle.pm_tools_info.specs.Config.{query_of};
ghost use Rattle.pm_tools_info.specs.Questions as spec;

use crate::query_config::QueryConfig;
use crate::tool_words::{cargo_cfg_words, cargo_spec_words, rustc_cfg_words, rustc_spec_words};
use base_text::{CommandLine, Runner, Tool, Tree, Version};
use pm_cargo_config::{allow_unstable, set_variable};
use pm_tools_ask::{Ask, words_of};
use std::alloc::{AllocError, Global};

/// A question as it is asked of one tool, and before that of another.
#[derive(Drop)]
pub(crate) struct Questions {
    /// What is asked first, where it is not the last alone.
    pub(crate) first: Option<CommandLine>,
    pub(crate) last: CommandLine,
}

impl Questions {
    // One question.
    fn one(last: CommandLine) -> Questions
        ensures { result ≡ spec.one_question last }
    {
        Questions { first: None, last }
    }
}

/// Which platform the compiler runs on.
#[tactic(auto, unfolding(crate::specs::Questions::host_questions))]
pub(crate) fn host_questions<R: Runner, T: Tree>(
    alloc: Global,
    config: QueryConfig<'_>,
    ask: &Ask<'_, R, T>,
) -> Result<Questions, AllocError>
    ensures { IfOk result (λ questions. questions
        ≡ spec.host_questions (query_of config.entry) (means_of R.answers T.files ask.now)) }
{
    let words = words_of(alloc, &["-vV"])?;
    let line = config
        .sysroot()
        .question(alloc, Tool::Rustc, config.dir(), words, ask)?;
    Ok(Questions::one(line))
}

/// Which version a tool is of.
#[tactic(auto, unfolding(crate::specs::Questions::version_questions))]
pub(crate) fn version_questions<R: Runner, T: Tree>(
    alloc: Global,
    config: QueryConfig<'_>,
    ask: &Ask<'_, R, T>,
) -> Result<Questions, AllocError>
    ensures { IfOk result (λ questions. questions
        ≡ spec.version_questions (query_of config.entry) (means_of R.answers T.files ask.now)) }
{
    let words = words_of(alloc, &["--version"])?;
    let line = config
        .sysroot()
        .question(alloc, config.tool(), config.dir(), words, ask)?;
    Ok(Questions::one(line))
}

/// Which atoms hold for a platform.
#[tactic(auto, unfolding(crate::specs::Questions::cfg_questions))]
pub(crate) fn cfg_questions<R: Runner, T: Tree>(
    alloc: Global,
    config: QueryConfig<'_>,
    target: Option<&str>,
    ask: &Ask<'_, R, T>,
) -> Result<Questions, AllocError>
    ensures { IfOk result (λ questions. questions ≡ spec.cfg_questions (query_of config.entry)
        (option_copied target.entry) (means_of R.answers T.files ask.now)) }
{
    let words = rustc_cfg_words(alloc, target)?;
    let last = config
        .sysroot()
        .question(alloc, Tool::Rustc, config.dir(), words, ask)?;
    let first = cargo_cfg_question(alloc, config, target, ask)?;
    Ok(Questions { first, last })
}

// The question for the atoms that `cargo` is asked where there is a manifest.
#[tactic(auto, unfolding(crate::specs::Questions::cfg_questions))]
fn cargo_cfg_question<R: Runner, T: Tree>(
    alloc: Global,
    config: QueryConfig<'_>,
    target: Option<&str>,
    ask: &Ask<'_, R, T>,
) -> Result<Option<CommandLine>, AllocError>
    ensures { IfOk result (λ line. line ≡ (spec.cfg_questions (query_of config.entry)
        (option_copied target.entry) (means_of R.answers T.files ask.now)).first) }
{
    match config {
        QueryConfig::Rustc(..) => Ok(None),
        QueryConfig::Cargo(sysroot, ..) => {
            let words = cargo_cfg_words(alloc, target)?;
            let line = sysroot.question(alloc, Tool::Cargo, config.dir(), words, ask)?;
            Ok(Some(allow_unstable(alloc, line, true)?))
        }
    }
}

/// What the specification of a platform is.
#[tactic(auto, unfolding(crate::specs::Questions::spec_questions))]
pub(crate) fn spec_questions<R: Runner, T: Tree>(
    alloc: Global,
    config: QueryConfig<'_>,
    target: Option<&str>,
    version: Option<&Version>,
    ask: &Ask<'_, R, T>,
) -> Result<Questions, AllocError>
    ensures { IfOk result (λ questions. questions ≡ spec.spec_questions (query_of config.entry)
        (option_copied target.entry) (option_copied version.entry)
        (means_of R.answers T.files ask.now)) }
{
    let words = rustc_spec_words(alloc, target)?;
    let line = config
        .sysroot()
        .question(alloc, Tool::Rustc, config.dir(), words, ask)?;
    let last = set_variable(alloc, line, "RUSTC_BOOTSTRAP", "1")?;
    let first = cargo_spec_question(alloc, config, target, version, ask)?;
    Ok(Questions { first, last })
}

// The question for the specification that `cargo` is asked where there is a manifest.
#[tactic(auto, unfolding(crate::specs::Questions::spec_questions))]
fn cargo_spec_question<R: Runner, T: Tree>(
    alloc: Global,
    config: QueryConfig<'_>,
    target: Option<&str>,
    version: Option<&Version>,
    ask: &Ask<'_, R, T>,
) -> Result<Option<CommandLine>, AllocError>
    ensures { IfOk result (λ line. line ≡ (spec.spec_questions (query_of config.entry)
        (option_copied target.entry) (option_copied version.entry)
        (means_of R.answers T.files ask.now)).first) }
{
    match config {
        QueryConfig::Rustc(..) => Ok(None),
        QueryConfig::Cargo(sysroot, ..) => {
            let words = cargo_spec_words(alloc, target, version)?;
            let line = sysroot.question(alloc, Tool::Cargo, config.dir(), words, ask)?;
            Ok(Some(set_variable(alloc, line, "RUSTC_BOOTSTRAP", "1")?))
        }
    }
}
