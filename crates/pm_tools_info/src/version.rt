//! The version of a toolchain.

ghost use Rattle.pm_tools_ask.specs.Ask.{means_of};
ghost use Rattle.pm_tools_info.specs.Asked.{AnswersQuery};
ghost use Rattle.pm_tools_info.specs.Config.{query_of};
ghost use Rattle.pm_tools_info.specs.Queries.{version_answer};

use crate::asking::answer_to;
use crate::query_config::QueryConfig;
use crate::query_error::QueryError;
use crate::questions::version_questions;
use crate::version_text::version_behind;
use base_text::{Runner, Tree, Version};
use pm_tools_ask::Ask;
use std::alloc::Global;

/// The version that `cargo --version` prints where there is a manifest, and else `rustc --version`. None where
/// what it prints is no version.
pub fn get<R: Runner, T: Tree>(
    alloc: Global,
    config: QueryConfig<'_>,
    ask: &Ask<'_, R, T>,
) -> Result<Option<Version>, QueryError>
    ensures { AnswersQuery result
        (version_answer (query_of config.entry) (means_of R.answers T.files ask.now)) }
{
    let answer = answer_to(alloc, &version_questions(alloc, config, ask)?, ask.runner);
    let text = answer?;
    Ok(version_behind(alloc, config.front(), text.as_str())?)
}
