//! The platforms that are built for.

ghost use Rattle.std.specs.Prelude.{◌≡◌, ◌∷◌, [], IfOk, option_copied};
ghost use Rattle.std.specs.Option.{option_and_then};
ghost use Rattle.pm_tools_ask.specs.Ask.{means_of};
ghost use Rattle.pm_tools_info.specs.Asked.{AnswersQuery};
ghost use Rattle.pm_tools_info.specs.BuildTarget as stated;
ghost use Rattle.pm_tools_info.specs.Config.{query_of};
ghost use Rattle.pm_tools_info.specs.Queries.{host_answer, target_answer};

use crate::asking::answer_to;
use crate::build_target::build_targets;
use crate::host::host_of;
use crate::query_config::QueryConfig;
use crate::query_error::QueryError;
use crate::questions::host_questions;
use base_text::{Items, Runner, Text, Tree};
use pm_tools_ask::Ask;
use std::alloc::{AllocError, Global};

/// The platform that is given, or else those that the configuration states as `build.target`, or else the one
/// that the compiler runs on. A configuration may state that there are none.
pub fn get<R: Runner, T: Tree>(
    alloc: Global,
    config: QueryConfig<'_>,
    target: Option<&str>,
    ask: &Ask<'_, R, T>,
) -> Result<Items<Text>, QueryError>
    ensures { AnswersQuery result (target_answer (query_of config.entry)
        (option_copied target.entry) (means_of R.answers T.files ask.now)) }
{
    if let Some(target) = target {
        return Ok(one_target(alloc, target)?);
    }
    if let Some(targets) = stated_targets(alloc, config)? {
        return Ok(targets);
    }
    let host = host(alloc, config, ask)?;
    Ok(one_target(alloc, host.as_str())?)
}

// One platform.
fn one_target(alloc: Global, target: &str) -> Result<Items<Text>, AllocError>
    ensures { IfOk result (λ targets. targets ≡ target.now ∷ []) }
{
    let target = Text::of_str(alloc, target)?;
    Ok(Items::new(vec![in alloc; target]?))
}

// The platforms that the configuration states.
fn stated_targets(alloc: Global, config: QueryConfig<'_>) -> Result<Option<Items<Text>>, AllocError>
    ensures { IfOk result (λ targets. targets
        ≡ option_and_then stated.build_targets (query_of config.entry).printed) }
{
    match config {
        QueryConfig::Cargo(_, _, Some(config)) => build_targets(alloc, config),
        _ => Ok(None),
    }
}

// The platform that the compiler runs on.
fn host<R: Runner, T: Tree>(
    alloc: Global,
    config: QueryConfig<'_>,
    ask: &Ask<'_, R, T>,
) -> Result<Text, QueryError>
    ensures { AnswersQuery result
        (host_answer (query_of config.entry) (means_of R.answers T.files ask.now)) }
{
    let answer = answer_to(alloc, &host_questions(alloc, config, ask)?, ask.runner);
    let text = answer?;
    match host_of(text.as_str()) {
        Some(host) => Ok(Text::of_str(alloc, host)?),
        None => Err(QueryError::NoHost),
    }
}
