//! The comment behind a value, which may name the file that the value comes from.

ghost use Rattle.std.specs.Prelude.{◌≡◌, IfOk};
ghost use Rattle.std.specs.Option.{option_and_then, option_map};
ghost use Rattle.base_text_paths.specs.AbsPath.{abs_text};
ghost use Rattle.base_text_paths.specs.Paths.{parent_text};
ghost use Rattle.pm_tools_ask.specs.Line.{behind_comma, root_by_comment, root_above};

use crate::quotes::behind;
use base_text::{AbsPath, AbsPathBuf, PathError};
use std::alloc::{AllocError, Global};

// What follows the comma at the front of a text, if there is one, without white space.
#[tactic(auto, unfolding(crate::specs::Line::behind_comma))]
fn behind_comma(rest: &str) -> &str
    ensures { result.now ≡ behind_comma rest.now }
{
    behind(rest, ',').unwrap_or(rest).trim_start()
}

// The path two levels above another.
fn grandparent(path: AbsPath<'_>) -> Option<AbsPath<'_>>
    ensures { option_map abs_text result
        ≡ option_and_then parent_text (parent_text (abs_text path.entry)) }
{
    path.parent()?.parent()
}

// The directory two levels above the file of a path.
#[tactic(auto, unfolding(crate::specs::Line::root_above))]
fn root_of(alloc: Global, path: &str) -> Result<Option<AbsPathBuf>, AllocError>
    ensures { IfOk result (λ root. root ≡ root_above path.now) }
{
    let file = match AbsPathBuf::new(alloc, path) {
        Ok(file) => file,
        Err(PathError::NotAbsolute) => return Ok(None),
        Err(PathError::OutOfMemory) => return Err(AllocError),
    };
    match grandparent(file.as_path()) {
        Some(root) => Ok(Some(root.to_path_buf(alloc)?)),
        None => Ok(None),
    }
}

/// What relative values are relative to, by the comment behind a value.
#[tactic(auto, unfolding(crate::specs::Line::root_by_comment))]
pub(crate) fn root_after(alloc: Global, rest: &str) -> Result<Option<AbsPathBuf>, AllocError>
    ensures { IfOk result (λ root. root ≡ root_by_comment rest.now) }
{
    match behind(behind_comma(rest), '#') {
        Some(comment) => root_of(alloc, comment.trim()),
        None => Ok(None),
    }
}
