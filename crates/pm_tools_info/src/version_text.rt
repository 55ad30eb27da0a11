//! The version that a tool prints of itself.

ghost use Rattle.std.specs.Prelude.{◌≡◌, IfOk};
ghost use Rattle.pm_tools_info.specs.Version.{first_word, version_behind, version_of_word};

use base_text::Version;
use std::alloc::{AllocError, Global};

/// The version behind a front of the text, as `1.90.0` behind `cargo `. What follows its word plays no part.
pub fn version_behind(alloc: Global, front: &str, text: &str) -> Result<Option<Version>, AllocError>
    ensures { IfOk result (λ version. version ≡ version_behind front.now text.now) }
{
    match text.strip_prefix(front) {
        Some(rest) => version_of(alloc, first_word(rest)),
        None => Ok(None),
    }
}

// The first word of a text, which is empty where the text has none.
fn first_word(text: &str) -> &str
    ensures { result.now ≡ first_word text.now }
{
    text.split_whitespace().next().unwrap_or("")
}

// The version that a word is.
fn version_of(alloc: Global, word: &str) -> Result<Option<Version>, AllocError>
    ensures { IfOk result (λ version. version ≡ version_of_word word.now) }
{
    match semver::Version::parse(alloc, word) {
        Ok(version) => Ok(Some(Version::new(version))),
        Err(error) if error == semver::Error::from(AllocError) => Err(AllocError),
        Err(_error) => Ok(None),
    }
}
