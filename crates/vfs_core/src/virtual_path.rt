//! Virtual paths: texts with slashes, for files that are in no file system. They are not cleaned.

ghost use Rattle.std.specs.Prelude.{◌≡◌, IfOk, is_some, string_bytes, unwrap_or};
ghost use Rattle.std.specs.Option.{option_copied, option_map};
ghost use Rattle.std.specs.Cmp.Lexicographic.{slice_cmp};
ghost use Rattle.std.specs.Ordering.{nat_cmp};
ghost use Rattle.vfs_core.specs.RealPath.{is_text_prefix, name_texts};
ghost use Rattle.vfs_core.specs.VirtualPath.{virtual_parent, virtual_joined, virtual_stem_and_extension, virtual_rest};

use crate::virtual_parts::{climb, name_and_extension, parent_of, rest_below, without_dots};
use base_text_paths::TryClone;
use base_text_paths::paths::split_last;
use std::alloc::{AllocError, Global};
use std::cmp::Ordering;
use std::marker::Model;

/// A virtual path, which contracts see as its text.
#[derive(Debug, Drop)]
pub(crate) struct VirtualPath {
    text: String,
}

impl Model for VirtualPath {
    ghost use Rattle.std.specs.Prelude.{ℕ, List, string_bytes};

    ghost Value = { List ℕ };

    ghost view = { λ a. string_bytes a.text };
}

impl VirtualPath {
    pub(crate) fn new(text: String) -> Self
        ensures { result ≡ string_bytes text }
    {
        VirtualPath { text }
    }

    pub(crate) fn as_str(&self) -> &str
        ensures { result.now ≡ self.now }
    {
        self.text.as_str()
    }

    /// The path with a tail behind it. Each leading `../` of the tail pops, and each leading `./` is dropped.
    pub(crate) fn join(&self, alloc: Global, path: &str) -> Result<Option<VirtualPath>, AllocError>
        ensures { IfOk result (λ made. made ≡ virtual_joined self.now path.now) }
    {
        match climb(self.text.as_str(), path) {
            None => Ok(None),
            Some((base, tail)) => {
                let mut text = String::from_str(alloc, base)?;
                text.push('/')?;
                text.push_str(without_dots(tail))?;
                Ok(Some(VirtualPath { text }))
            }
        }
    }

    /// Cuts the text at its last slash. Answers whether there was one.
    pub(crate) fn pop(&mut self) -> bool
        ensures path { self.new ≡ unwrap_or (virtual_parent self.old) self.old }
        ensures cut { result ≡ is_some (virtual_parent self.old) }
    {
        match split_last(self.text.as_str(), '/') {
            None => false,
            Some((above, _)) => {
                let end = above.len();
                self.text.truncate(end);
                true
            }
        }
    }

    /// The path before the last slash.
    pub(crate) fn parent(&self, alloc: Global) -> Result<Option<VirtualPath>, AllocError>
        ensures { IfOk result (λ above. above ≡ virtual_parent self.now) }
    {
        let Some(above) = parent_of(self.text.as_str()) else {
            return Ok(None);
        };
        let text = String::from_str(alloc, above)?;
        Ok(Some(VirtualPath { text }))
    }

    /// What stands before the last slash.
    pub(crate) fn parent_text(&self) -> Option<&str>
        ensures { option_copied result ≡ virtual_parent self.now }
    {
        parent_of(self.text.as_str())
    }

    /// Whether the first components are those of `other`.
    pub(crate) fn starts_with(&self, other: &VirtualPath) -> bool
        ensures { result ≡ is_text_prefix other.now self.now }
    {
        rest_below(other.text.as_str(), self.text.as_str()).is_some()
    }

    /// The order of the texts, by their bytes.
    pub(crate) fn cmp_to(&self, other: &VirtualPath) -> Ordering
        ensures { result ≡ slice_cmp nat_cmp self.now other.now }
    {
        self.text.as_str().cmp(other.text.as_str())
    }

    /// What is left behind the components of `other`, where they come first.
    pub(crate) fn strip_prefix(&self, other: &VirtualPath) -> Option<&str>
        ensures { option_copied result ≡ virtual_rest other.now self.now }
    {
        rest_below(other.text.as_str(), self.text.as_str())
    }

    /// The last name as a stem and an extension. A dot that comes first begins no extension.
    pub(crate) fn name_and_extension(&self) -> Option<(&str, Option<&str>)>
        ensures { option_map name_texts result ≡ virtual_stem_and_extension self.now }
    {
        name_and_extension(self.text.as_str())
    }
}

impl TryClone for VirtualPath {
    fn try_clone(&self, alloc: Global) -> Result<Self, AllocError> {
        let text = String::from_str(alloc, self.text.as_str())?;
        Ok(VirtualPath { text })
    }
}
