//! The atoms of conditional compilation that hold for a platform.

ghost use Rattle.std.specs.Prelude.{◌≡◌, IfOk, option_copied};
ghost use Rattle.pm_tools_ask.specs.Ask.{means_of};
ghost use Rattle.pm_tools_info.specs.Config.{query_of};
ghost use Rattle.pm_tools_info.specs.Queries.{cfg_answer};

use crate::asking::answer_to;
use crate::cfgs::atoms_of;
use crate::query_config::QueryConfig;
use crate::query_error::QueryError;
use crate::questions::cfg_questions;
use base_text::{CfgAtom, Items, Runner, Tree};
use pm_tools_ask::Ask;
use std::alloc::{AllocError, Global};

/// The atoms that `cargo` or the compiler prints for the given platform, or else for the one that is built for,
/// and after them those that no compiler prints. There are none where nothing answers, and where a line of the
/// answer is no atom.
pub fn get<R: Runner, T: Tree>(
    alloc: Global,
    config: QueryConfig<'_>,
    target: Option<&str>,
    ask: &Ask<'_, R, T>,
) -> Result<Items<CfgAtom>, AllocError>
    ensures { IfOk result (λ atoms. atoms ≡ cfg_answer (query_of config.entry)
        (option_copied target.entry) (means_of R.answers T.files ask.now)) }
{
    let answer = answer_to(
        alloc,
        &cfg_questions(alloc, config, target, ask)?,
        ask.runner,
    );
    match answer {
        Ok(text) => atoms_of(alloc, text.as_str()),
        Err(QueryError::OutOfMemory) => Err(AllocError),
        Err(_) => Ok(Items::empty(alloc)),
    }
}
