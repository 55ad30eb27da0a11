//! The platforms that a printed configuration states as `build.target`.

ghost use Rattle.std.specs.Prelude.{◌≡◌, IfOk};
ghost use Rattle.pm_tools_info.specs.BuildTarget.{build_targets};

use crate::stated_targets::targets_at;
use base_text::{Items, Text};
use pm_tools_ask::{CargoConfigFile, statement_of, statements};
use std::alloc::{AllocError, Global};

/// The platforms of `build.target`, each JSON file below the directory that its text is relative to. None where
/// the configuration states none.
pub(crate) fn build_targets(
    alloc: Global,
    config: &CargoConfigFile,
) -> Result<Option<Items<Text>>, AllocError>
    ensures { IfOk result (λ targets. targets ≡ build_targets config.now) }
{
    let keys = [
        Text::of_str(alloc, "build")?,
        Text::of_str(alloc, "target")?,
    ];
    let Some(value) = config.get(alloc, &keys)? else {
        return Ok(None);
    };
    let statements = statements(alloc, config.as_str())?;
    targets_at(alloc, statement_of(statements.as_slice(), &keys), &value)
}
