//! Paths of a document, which must be absolute.

ghost use Rattle.pm_cargo_reading.specs.Packages.{absolute_path, absolute_manifest, optional_path};
ghost use Rattle.pm_cargo_reading.specs.Reading.{Gives};

use crate::workspace_error::WorkspaceError;
use base_text_paths::{AbsPathBuf, ManifestPath, PathError, Text};
use std::alloc::Global;

/// The path of a text, which must be absolute.
pub fn absolute_path(alloc: Global, text: &str) -> Result<AbsPathBuf, WorkspaceError>
    ensures { Gives result (absolute_path text.now) }
{
    match AbsPathBuf::new(alloc, text) {
        Ok(path) => Ok(path),
        Err(PathError::NotAbsolute) => Err(WorkspaceError::NotAbsolute(Text::of_str(alloc, text)?)),
        Err(PathError::OutOfMemory) => Err(WorkspaceError::OutOfMemory),
    }
}

/// The path of a text that may be missing.
pub fn optional_path(
    alloc: Global,
    text: &Option<Text>,
) -> Result<Option<AbsPathBuf>, WorkspaceError>
    ensures { Gives result (optional_path text.now) }
{
    match text {
        Some(text) => Ok(Some(absolute_path(alloc, text.as_str())?)),
        None => Ok(None),
    }
}

/// The path of a manifest, which must be absolute and lie in a directory.
pub(crate) fn manifest_path(alloc: Global, text: &str) -> Result<ManifestPath, WorkspaceError>
    ensures { Gives result (absolute_manifest text.now) }
{
    let path = absolute_path(alloc, text)?;
    match ManifestPath::new(path) {
        Ok(manifest) => Ok(manifest),
        Err(root) => Err(WorkspaceError::NoParent(Text::of_str(alloc, root.as_str())?)),
    }
}
