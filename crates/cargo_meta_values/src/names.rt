//! The names of packages and features, and the ids and sources of packages.

ghost use Rattle.std.specs.Prelude.{◌≡◌, refl};
ghost use Rattle.cargo_meta_values.specs.Names.{is_crates_io, package_id_of, package_id_text, source_of, source_text};

use base_values::{Name, Text, TryClone};
use json_fields::{ReadError, TextJson};
use std::alloc::{AllocError, Global};
use std::fmt;

/// What `PackageName` names.
pub struct PackageTag;

/// What `FeatureName` names.
pub struct FeatureTag;

/// The name of a package, seen as its text.
pub type PackageName = Name<PackageTag>;

/// The name of a feature, seen as its text.
pub type FeatureName = Name<FeatureTag>;

/// An id that `cargo` gives a package, whose form it does not promise.
#[derive(Debug, PartialEq, Eq, PartialOrd, Ord, Hash, Drop)]
pub struct PackageId {
    pub repr: Text,
}

impl TryClone for PackageId {
    fn try_clone(&self, alloc: Global) -> Result<Self, AllocError> {
        Ok(PackageId {
            repr: self.repr.try_clone(alloc)?,
        })
    }
}

impl TextJson for PackageId {
    ghost of_text = { package_id_of };

    ghost text_of = { package_id_text };

    fn read_text(alloc: Global, text: &str) -> Result<PackageId, ReadError> {
        Ok(PackageId {
            repr: Text::of_str(alloc, text)?,
        })
    }

    fn write_text(&self, alloc: Global) -> Result<String, AllocError> {
        String::from_str(alloc, self.repr.as_str())
    }

    ghost again = { λ text. refl };
}

impl fmt::Display for PackageId {
    ghost use Rattle.std.specs.Prelude.{Some};

    ghost output = { λ id. Some id.repr };

    fn fmt<W: fmt::Write>(&self, f: &mut fmt::Formatter<W>) -> fmt::Result {
        f.pad(self.repr.as_str())
    }
}

/// Where a package comes from.
#[derive(Debug, PartialEq, Eq, Hash, Drop)]
pub struct Source {
    pub repr: Text,
}

impl Source {
    /// Whether this is the registry crates.io.
    pub fn is_crates_io(&self) -> bool
        ensures { result ≡ is_crates_io self.now }
    {
        self.repr.as_str() == "registry+https://github.com/rust-lang/crates.io-index"
    }
}

impl TryClone for Source {
    fn try_clone(&self, alloc: Global) -> Result<Self, AllocError> {
        Ok(Source {
            repr: self.repr.try_clone(alloc)?,
        })
    }
}

impl TextJson for Source {
    ghost of_text = { source_of };

    ghost text_of = { source_text };

    fn read_text(alloc: Global, text: &str) -> Result<Source, ReadError> {
        Ok(Source {
            repr: Text::of_str(alloc, text)?,
        })
    }

    fn write_text(&self, alloc: Global) -> Result<String, AllocError> {
        String::from_str(alloc, self.repr.as_str())
    }

    ghost again = { λ text. refl };
}

impl fmt::Display for Source {
    ghost use Rattle.std.specs.Prelude.{Some};

    ghost output = { λ source. Some source.repr };

    fn fmt<W: fmt::Write>(&self, f: &mut fmt::Formatter<W>) -> fmt::Result {
        f.pad(self.repr.as_str())
    }
}
