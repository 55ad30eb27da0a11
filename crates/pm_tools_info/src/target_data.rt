//! The machine of a platform.

ghost use Rattle.std.specs.Prelude.{option_copied};
ghost use Rattle.pm_tools_ask.specs.Ask.{means_of};
ghost use Rattle.pm_tools_info.specs.Asked.{AnswersQuery};
ghost use Rattle.pm_tools_info.specs.Config.{query_of};
ghost use Rattle.pm_tools_info.specs.Queries.{data_answer};

use crate::asking::answer_to;
use crate::query_config::QueryConfig;
use crate::query_error::QueryError;
use crate::questions::spec_questions;
pub use crate::target_spec::TargetSpec;
use crate::target_spec::spec_of;
use base_text::{Runner, Tree, Version};
pub use crate_graph_values::target::Arch;
use crate_graph_values::target::TargetData;
use pm_tools_ask::Ask;
use std::alloc::Global;

/// The machine of the given platform, or else of the one that is built for, by the specification that `cargo`
/// or the compiler prints. The version is that of the toolchain, if it is known.
pub fn get<R: Runner, T: Tree>(
    alloc: Global,
    config: QueryConfig<'_>,
    target: Option<&str>,
    version: Option<&Version>,
    ask: &Ask<'_, R, T>,
) -> Result<TargetData, QueryError>
    ensures { AnswersQuery result (data_answer (query_of config.entry) (option_copied target.entry)
        (option_copied version.entry) (means_of R.answers T.files ask.now)) }
{
    let answer = answer_to(
        alloc,
        &spec_questions(alloc, config, target, version, ask)?,
        ask.runner,
    );
    let text = answer?;
    match spec_of(alloc, text.as_str())? {
        Some(spec) => Ok(TargetData::from(spec)),
        None => Err(QueryError::BadSpec),
    }
}
