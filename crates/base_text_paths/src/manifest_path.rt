//! The path of a manifest, which always has a directory above it.

ghost use Rattle.std.specs.Prelude.{◌≡◌, ◌↔◌, IfErr, IfOk, IsErr, Some, codes};
ghost use Rattle.base_text_paths.specs.AbsPath.{abs_text};
ghost use Rattle.base_text_paths.specs.Paths.{parent_text};
ghost use Rattle.base_text_paths.specs.ManifestPath.{is_rust_manifest};

use crate::paths::{AbsPath, AbsPathBuf};
use base_values::TryClone;
use std::alloc::{AllocError, Global};
use std::cmp::Ordering;
use std::fmt;
use std::hash::{Hash, Hasher};
use std::marker::Model;

/// An absolute path that is not `/`. The name of its last component plays no part.
#[derive(Debug, Drop)]
pub struct ManifestPath {
    file: AbsPathBuf,
}

/// Contracts see a manifest's path as its text.
impl Model for ManifestPath {
    ghost use Rattle.std.specs.Prelude.{ℕ, List};
    ghost use Rattle.base_text_paths.specs.ManifestPath.{HasParent};

    ghost Value = { List ℕ };

    ghost view = { λ a. a.file };

    ghost invariant = { λ a. HasParent a.file };
}

impl ManifestPath {
    /// The path as that of a manifest. `/` is given back.
    pub fn new(file: AbsPathBuf) -> Result<ManifestPath, AbsPathBuf>
        ensures ok { IfOk result (λ path. path ≡ file) }
        ensures err { IfErr result (λ back. back ≡ file) }
        ensures root { IsErr result ↔ (file ≡ codes "/") }
    {
        if file.as_path().parent().is_none() {
            return Err(file);
        }
        Ok(ManifestPath { file })
    }

    /// The directory that the manifest lies in.
    pub fn parent(&self) -> AbsPath<'_>
        ensures { Some (abs_text result) ≡ parent_text self.now }
    {
        match self.file.as_path().parent() {
            Some(parent) => parent,
            None => unreachable!(),
        }
    }

    pub fn as_path(&self) -> AbsPath<'_>
        ensures { abs_text result ≡ self.now }
    {
        self.file.as_path()
    }

    pub fn into_path(self) -> AbsPathBuf
        ensures { result ≡ self }
    {
        self.file
    }

    /// Whether the manifest stands in a Rust file, as that of a script does.
    pub fn is_rust_manifest(&self) -> bool
        ensures { result ≡ is_rust_manifest self.now }
    {
        match self.file.as_path().extension() {
            Some(extension) => extension == "rs",
            None => false,
        }
    }
}

impl TryClone for ManifestPath {
    fn try_clone(&self, alloc: Global) -> Result<Self, AllocError> {
        let file = self.file.try_clone(alloc)?;
        Ok(ManifestPath { file })
    }
}

impl PartialEq for ManifestPath {
    ghost use Rattle.std.specs.Cmp.{partial_equiv_from_equiv};
    ghost use Rattle.base_text_paths.specs.PathOrder.{path_eq, path_eq_equiv};

    ghost eq = { path_eq };

    ghost laws = { partial_equiv_from_equiv path_eq_equiv };

    fn eq(&self, other: &Self) -> bool {
        self.file == other.file
    }
}

impl Eq for ManifestPath {
    ghost use Rattle.base_text_paths.specs.PathOrder.{path_eq_equiv};

    ghost laws = { path_eq_equiv };
}

impl PartialOrd for ManifestPath {
    ghost use Rattle.std.specs.Ordering.{as_partial_cmp};
    ghost use Rattle.base_text_paths.specs.PathOrder.{path_cmp, path_po};

    ghost partial_cmp = { as_partial_cmp path_cmp };

    ghost laws = { path_po (λ text. text) };

    fn partial_cmp(&self, other: &Self) -> Option<Ordering> {
        Some(self.cmp(other))
    }
}

impl Ord for ManifestPath {
    ghost use Rattle.std.specs.Prelude.{refl};
    ghost use Rattle.base_text_paths.specs.PathOrder.{path_cmp, path_cmp_total, path_ties};

    ghost cmp = { path_cmp };

    ghost total = { path_cmp_total };

    ghost matches_partial_cmp = { λ x y. refl };

    ghost matches_eq = { path_ties };

    fn cmp(&self, other: &Self) -> Ordering {
        self.file.cmp(&other.file)
    }
}

impl Hash for ManifestPath {
    ghost use Rattle.base_text_paths.specs.PathOrder.{path_fed, path_fed_alike};

    ghost hash_input = { path_fed };

    ghost respects_eq = { path_fed_alike };

    fn hash<H: Hasher>(&self, state: &mut H) {
        self.file.hash(state);
    }
}

impl fmt::Display for ManifestPath {
    ghost use Rattle.std.specs.Prelude.{Some};

    ghost output = { λ path. Some path };

    fn fmt<W: fmt::Write>(&self, f: &mut fmt::Formatter<W>) -> fmt::Result {
        self.file.fmt(f)
    }
}
