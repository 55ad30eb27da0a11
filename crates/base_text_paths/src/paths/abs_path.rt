//! A borrowed path, which is copied freely. The owned form is `AbsPathBuf`.

ghost use Rattle.base_text_paths.specs.Paths.{IsClean};

use crate::paths::abs_path_buf::AbsPathBuf;
use crate::paths::clean::{push_components, push_resolved, row_of};
use std::alloc::{AllocError, Global};

/// An absolute path that borrows its text, which is clean.
#[derive(Clone, Copy, Debug)]
pub struct AbsPath<'a> {
    text: &'a str,
    ghost clean: { IsClean text.now },
}

impl<'a> AbsPath<'a> {
    ghost use Rattle.std.specs.Prelude.{◌≡◌, ◌++◌, [], if◌then◌else◌, string_bytes, IfOk};
    ghost use Rattle.base_text_paths.specs.Paths.{components, components_with_tail, is_absolute, normal, path_text};
    ghost use Rattle.base_text_paths.specs.Paths.{resolved_components, IsClean, IsResolved};
    ghost use Rattle.base_text_paths.specs.Rows.{IsRow};
    ghost use Rattle.base_text_paths.specs.AbsPath.{abs_text};

    /// The path of a text that is clean already.
    pub(crate) fn new(text: &'a str) -> Self
        requires { IsClean text.now }
        ensures { abs_text result ≡ text.now }
    {
        AbsPath { text }
    }

    pub fn as_str(self) -> &'a str
        ensures text { result.now ≡ abs_text self.entry }
        ensures clean { IsClean result.now }
    {
        self.text
    }

    pub fn to_path_buf(self, alloc: Global) -> Result<AbsPathBuf, AllocError>
        ensures { IfOk result (λ path. path ≡ abs_text self.entry) }
    {
        let text = String::from_str(alloc, self.text)?;
        Ok(AbsPathBuf::of_clean(text))
    }

    /// The path with a tail behind it. An absolute tail stands alone, and a `..` stays.
    pub fn join(self, alloc: Global, tail: &str) -> Result<AbsPathBuf, AllocError>
        ensures ok { IfOk result (λ path.
            path ≡ path_text (components_with_tail (abs_text self.entry) tail.now)) }
        ensures same_components { IfOk result (λ path.
            components path ≡ components_with_tail (abs_text self.entry) tail.now) }
    {
        let mut slashed = self.row_before(alloc, tail)?;
        push_components(&mut slashed, tail)?;
        Ok(AbsPathBuf::of_slashed(slashed)?)
    }

    /// The row of components that stay before a tail.
    fn row_before(self, alloc: Global, tail: &str) -> Result<String, AllocError>
        ensures { IfOk result (λ row. IsRow (string_bytes row)
            (if is_absolute tail.now then [] else components (abs_text self.entry))) }
    {
        if tail.starts_with('/') {
            Ok(String::new(alloc))
        } else {
            Ok(String::from_str(alloc, row_of(self.text))?)
        }
    }

    /// The path with each `..` resolved by dropping the component before it.
    /// At the root there is none to drop.
    pub fn normalize(self, alloc: Global) -> Result<AbsPathBuf, AllocError>
        ensures ok { IfOk result (λ path. path ≡ path_text (normal (abs_text self.entry))) }
        ensures same_components { IfOk result (λ path.
            components path ≡ normal (abs_text self.entry)) }
        ensures resolved { IfOk result IsResolved }
    {
        let mut slashed = String::new(alloc);
        push_resolved(&mut slashed, self.text)?;
        Ok(AbsPathBuf::of_slashed(slashed)?)
    }

    /// The normal path with a tail behind it: each `..` of both is resolved.
    pub fn absolutize(self, alloc: Global, tail: &str) -> Result<AbsPathBuf, AllocError>
        ensures ok { IfOk result (λ path.
            path ≡ path_text (resolved_components
            (components_with_tail (abs_text self.entry) tail.now))) }
        ensures same_components { IfOk result (λ path.
            components path ≡ resolved_components
            (components_with_tail (abs_text self.entry) tail.now)) }
        ensures resolved { IfOk result IsResolved }
    {
        let whole = self.join(alloc, tail)?;
        Ok(whole.as_path().normalize(alloc)?)
    }
}
