//! Real paths, which are absolute and normal. What they lack of a path of the file system is the kind.

ghost use Rattle.std.specs.Prelude.{◌≡◌, ◌↔◌, IfOk, IsFalse, codes};
ghost use Rattle.std.specs.Option.{option_copied, option_map};
ghost use Rattle.std.specs.Cmp.Lexicographic.{slice_cmp};
ghost use Rattle.std.specs.Ordering.{nat_cmp, ordering_then};
ghost use Rattle.base_text_paths.specs.AbsPath.{abs_text, rel_text};
ghost use Rattle.base_text_paths.specs.Paths.{components, normal, parent_text, path_text, without_last};
ghost use Rattle.vfs_core.specs.RealPath.{is_text_prefix, name_texts, stem_and_extension, real_joined_text, real_rest};
ghost use Rattle.vfs_core.specs.RealPath.{IsNormal};

use base_text_paths::{AbsPath, AbsPathBuf, RelPath, TryClone};
use std::alloc::{AllocError, Global};
use std::cmp::Ordering;
use std::marker::Model;

/// A normal absolute path, which contracts see as its text.
#[derive(Debug, Drop)]
pub(crate) struct RealPath {
    path: AbsPathBuf,
}

impl Model for RealPath {
    ghost use Rattle.std.specs.Prelude.{ℕ, List};
    ghost use Rattle.vfs_core.specs.RealPath.{IsNormal};

    ghost Value = { List ℕ };

    ghost view = { λ a. a.path };

    ghost invariant = { λ a. IsNormal a.path };
}

impl RealPath {
    /// The path of an absolute path, which is normalized.
    pub(crate) fn of_abs(alloc: Global, path: AbsPathBuf) -> Result<Self, AllocError>
        ensures ok { IfOk result (λ made. made ≡ path_text (normal path)) }
        ensures same_components { IfOk result (λ made. components made ≡ normal path) }
    {
        let path = path.as_path().normalize(alloc)?;
        Ok(RealPath { path })
    }

    pub(crate) fn as_path(&self) -> AbsPath<'_>
        ensures { abs_text result ≡ self.now }
    {
        self.path.as_path()
    }

    pub(crate) fn as_str(&self) -> &str
        ensures text { result.now ≡ self.now }
        ensures normal { IsNormal result.now }
    {
        self.path.as_str()
    }

    pub(crate) fn into_abs_path(self) -> AbsPathBuf
        ensures { result ≡ self }
    {
        self.path
    }

    /// The path with a tail behind it, normalized. An absolute tail stands alone.
    pub(crate) fn join(&self, alloc: Global, path: &str) -> Result<RealPath, AllocError>
        ensures { IfOk result (λ made. made ≡ real_joined_text self.now path.now) }
    {
        let path = self.path.as_path().absolutize(alloc, path)?;
        Ok(RealPath { path })
    }

    /// Drops the last component. Answers whether there was one.
    pub(crate) fn pop(&mut self) -> bool
        ensures path { self.new ≡ path_text (without_last (components self.old)) }
        ensures components { components self.new ≡ without_last (components self.old) }
        ensures at_root { IsFalse result ↔ (self.old ≡ codes "/") }
    {
        self.path.pop()
    }

    /// The path without its last component.
    pub(crate) fn parent(&self, alloc: Global) -> Result<Option<RealPath>, AllocError>
        ensures { IfOk result (λ above. above ≡ parent_text self.now) }
    {
        match self.path.as_path().parent() {
            None => Ok(None),
            Some(above) => {
                let path = above.to_path_buf(alloc)?;
                Ok(Some(RealPath { path }))
            }
        }
    }

    /// The text of the path without its last component.
    pub(crate) fn parent_text(&self) -> Option<&str>
        ensures { option_copied result ≡ parent_text self.now }
    {
        match self.path.as_path().parent() {
            None => None,
            Some(above) => Some(above.as_str()),
        }
    }

    /// Whether the first components are those of `other`.
    pub(crate) fn starts_with(&self, other: &RealPath) -> bool
        ensures { result ≡ is_text_prefix other.now self.now }
    {
        self.path.as_path().starts_with(other.path.as_path())
    }

    /// The order by components.
    pub(crate) fn cmp_to(&self, other: &RealPath) -> Ordering
        ensures components { result
            ≡ slice_cmp (slice_cmp nat_cmp) (components self.now) (components other.now) }
        ensures texts { ordering_then result (slice_cmp nat_cmp self.now other.now) ≡ result }
    {
        self.path.cmp(&other.path)
    }

    /// What is left behind the components of `other`, where they come first.
    pub(crate) fn strip_prefix(&self, other: &RealPath) -> Option<RelPath<'_>>
        ensures { option_map rel_text result ≡ real_rest other.now self.now }
    {
        self.path.as_path().strip_prefix(other.path.as_path())
    }

    /// The last component as a stem and an extension. A dot that comes first begins no extension.
    pub(crate) fn name_and_extension(&self) -> Option<(&str, Option<&str>)>
        ensures { option_map name_texts result ≡ stem_and_extension self.now }
    {
        let path = self.path.as_path();
        let stem = path.file_stem()?;
        Some((stem, path.extension()))
    }
}

impl TryClone for RealPath {
    fn try_clone(&self, alloc: Global) -> Result<Self, AllocError> {
        let path = self.path.try_clone(alloc)?;
        Ok(RealPath { path })
    }
}
