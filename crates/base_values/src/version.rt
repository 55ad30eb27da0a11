//! Versions as Semantic Versioning has them, where contracts see parts and texts and no buffers.

ghost use Rattle.std.specs.Prelude.{◌≡◌};
ghost use Rattle.semver.specs.Identifiers.{parts_of};

use crate::try_clone::TryClone;
use std::alloc::{AllocError, Global};
use std::marker::Model;

/// A version, seen as its three numbers and the texts of its pre-release and its build metadata.
#[derive(Debug, Drop)]
pub struct Version {
    inner: semver::Version,
}

impl Model for Version {
    ghost use Rattle.std.specs.Prelude.{ℕ, List};
    ghost use Rattle.semver.specs.Identifiers.{parts_of};

    ghost Value = { ℕ × ℕ × ℕ × List ℕ × List ℕ };

    ghost view = { λ a. parts_of a.inner };
}

impl Version {
    pub fn new(inner: semver::Version) -> Self
        ensures { result ≡ parts_of inner }
    {
        Version { inner }
    }

    pub fn as_version(&self) -> &semver::Version
        ensures { parts_of result.now ≡ self.now }
    {
        &self.inner
    }

    pub fn into_inner(self) -> semver::Version
        ensures { parts_of result ≡ self }
    {
        self.inner
    }
}

impl TryClone for Version {
    fn try_clone(&self, _alloc: Global) -> Result<Self, AllocError> {
        let inner = self.inner.clone()?;
        Ok(Version { inner })
    }
}

impl PartialEq for Version {
    ghost use Rattle.std.proofs.Common.{rules};
    ghost use Rattle.std.specs.Cmp.Rules.{comparing};
    ghost use Rattle.base_values.specs.Version.{version_eq};

    ghost eq = { version_eq };

    ghost laws = { Prim.search (comparing, rules) depth 9 };

    fn eq(&self, other: &Self) -> bool {
        self.inner == other.inner
    }
}

impl Eq for Version {
    ghost use Rattle.std.proofs.Common.{rules};
    ghost use Rattle.std.specs.Cmp.Rules.{comparing};

    ghost laws = { Prim.search (comparing, rules) depth 9 };
}
