//! A path that owns its text. The borrowed form, `AbsPath`, has the calls that only read.

ghost use Rattle.std.specs.Prelude.{◌≡◌, ◌↔◌, IfOk, IsFalse, codes, string_bytes};
ghost use Rattle.std.specs.Result.{IsErrOf};
ghost use Rattle.base_text_paths.specs.Paths.{components, path_text, without_last, IsAbsolute, IsClean, IsResolved};
ghost use Rattle.base_text_paths.specs.Rows.{IsSlashed};

use crate::paths::abs_path::AbsPath;
use crate::paths::clean::{parent_len, push_components, text_or_root};
use crate::paths::path_error::PathError;
use base_values::TryClone;
use std::alloc::{AllocError, Global};
use std::marker::Model;

/// An absolute path. Its text is clean: one slash before each component, no `.` among them,
/// and no slash at the end but for `/` alone. A `..` stays until `normalize` resolves it.
#[derive(Debug, Drop)]
pub struct AbsPathBuf {
    text: String,
}

/// Contracts see a path as its text.
impl Model for AbsPathBuf {
    ghost use Rattle.std.specs.Prelude.{ℕ, List, string_bytes};
    ghost use Rattle.base_text_paths.specs.Paths.{IsClean};

    ghost Value = { List ℕ };

    ghost view = { λ a. string_bytes a.text };

    ghost invariant = { λ a. IsClean (string_bytes a.text) };
}

impl AbsPathBuf {
    ghost use Rattle.base_text_paths.specs.AbsPath.{abs_text};

    /// The path of a text, which is cleaned.
    pub fn new(alloc: Global, text: &str) -> Result<Self, PathError>
        ensures ok { IfOk result (λ path. path ≡ path_text (components text.now)) }
        ensures same_components { IfOk result (λ path. components path ≡ components text.now) }
        ensures not_absolute { IsErrOf result PathError.NotAbsolute ↔ ¬ (IsAbsolute text.now) }
    {
        if !text.starts_with('/') {
            return Err(PathError::NotAbsolute);
        }
        let mut slashed = String::new(alloc);
        push_components(&mut slashed, text)?;
        Ok(AbsPathBuf::of_slashed(slashed)?)
    }

    pub fn as_path(&self) -> AbsPath<'_>
        ensures { abs_text result ≡ self.now }
    {
        AbsPath::new(self.text.as_str())
    }

    pub fn as_str(&self) -> &str
        ensures text { result.now ≡ self.now }
        ensures clean { IsClean result.now }
    {
        self.text.as_str()
    }

    /// Drops the last component. Answers whether there was one.
    pub fn pop(&mut self) -> bool
        ensures path { self.new ≡ path_text (without_last (components self.old)) }
        ensures components { components self.new ≡ without_last (components self.old) }
        ensures resolved { IsResolved self.old → IsResolved self.new }
        ensures at_root { IsFalse result ↔ (self.old ≡ codes "/") }
    {
        match parent_len(self.text.as_str()) {
            Some(end) => {
                self.text.truncate(end);
                true
            }
            None => false,
        }
    }

    /// The path whose components follow slashes in `slashed`.
    pub(crate) fn of_slashed(slashed: String) -> Result<Self, AllocError>
        requires { IsSlashed (string_bytes slashed) }
        ensures ok { IfOk result (λ path. path ≡ path_text (components (string_bytes slashed))) }
        ensures same_components { IfOk result (λ path.
            components path ≡ components (string_bytes slashed)) }
    {
        let text = text_or_root(slashed)?;
        Ok(AbsPathBuf { text })
    }

    /// The path of a text that is clean already.
    pub(crate) fn of_clean(text: String) -> Self
        requires { IsClean (string_bytes text) }
        ensures { result ≡ string_bytes text }
    {
        AbsPathBuf { text }
    }
}

impl TryClone for AbsPathBuf {
    fn try_clone(&self, alloc: Global) -> Result<Self, AllocError> {
        let text = String::from_str(alloc, self.text.as_str())?;
        Ok(AbsPathBuf { text })
    }
}
