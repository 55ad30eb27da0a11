//! Libraries among the files of an artifact, and paths that must be absolute.

ghost use Rattle.std.specs.Prelude.{◌≡◌, option_copied};
ghost use Rattle.base_text_paths.specs.Paths.{components, last_component};
ghost use Rattle.pm_tools.specs.Artifact.{absolute_output_path};
ghost use Rattle.pm_tools.specs.Library.{extension_in, is_library, is_library_extension};
ghost use Rattle.pm_tools.specs.Reading.{Gives};

use crate::build_error::BuildError;
use base_text::{AbsPathBuf, PathError, Text};
use base_text_paths::paths::{is_component, split_last};
use std::alloc::Global;

/// The path of a text, which must be absolute.
pub(crate) fn absolute_path(alloc: Global, text: &str) -> Result<AbsPathBuf, BuildError>
    ensures { Gives result (absolute_output_path text.now) }
{
    match AbsPathBuf::new(alloc, text) {
        Ok(path) => Ok(path),
        Err(PathError::NotAbsolute) => Err(BuildError::NotAbsolute(Text::of_str(alloc, text)?)),
        Err(PathError::OutOfMemory) => Err(BuildError::OutOfMemory),
    }
}

// The last component of a text, which need not be absolute.
fn last_component(text: &str) -> Option<&str>
    ensures { option_copied result ≡ last_component (components text.now) }
{
    let mut last = None;
    for part in text.split('/') {
        if is_component(part) {
            last = Some(part);
        }
    }
    last
}

// What follows the last dot of the last component, unless that dot comes first.
fn extension(file: &str) -> Option<&str>
    ensures { option_copied result ≡ extension_in file.now }
{
    let name = last_component(file)?;
    if name == ".." {
        return None;
    }
    let (stem, extension) = split_last(name, '.')?;
    if stem.is_empty() {
        None
    } else {
        Some(extension)
    }
}

// Whether an extension is that of a library, in any case of its letters.
fn is_library_extension(extension: &str) -> bool
    ensures { result ≡ is_library_extension extension.now }
{
    extension.eq_ignore_ascii_case("dll")
        || extension.eq_ignore_ascii_case("dylib")
        || extension.eq_ignore_ascii_case("so")
}

/// Whether a file is a library that a process loads.
#[tactic(auto, unfolding(crate::specs::Library::is_library))]
pub(crate) fn is_library(file: &str) -> bool
    ensures { result ≡ is_library file.now }
{
    match extension(file) {
        Some(extension) => is_library_extension(extension),
        None => false,
    }
}
