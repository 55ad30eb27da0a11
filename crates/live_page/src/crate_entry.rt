//! The entry of a crate, by paths alone: no number of a crate or of a file is in it.

use base_text::{Items, Text, TryClone};
use std::alloc::{AllocError, Global};

/// A dependency of a crate. Dependencies are ordered by name and then by root.
#[derive(Debug, Drop, PartialEq, Eq, PartialOrd, Ord, Hash)]
pub struct DependencyEntry {
    /// The name under which the crate's code knows the other crate.
    pub name: Text,
    /// The path of the other crate's root file.
    pub root: Text,
}

impl TryClone for DependencyEntry {
    fn try_clone(&self, alloc: Global) -> Result<Self, AllocError> {
        let name = self.name.try_clone(alloc)?;
        let root = self.root.try_clone(alloc)?;
        Ok(DependencyEntry { name, root })
    }
}

/// A crate. Entries are ordered by root and then by dependencies.
#[derive(Debug, Drop, PartialEq, Eq, PartialOrd, Ord, Hash)]
pub struct CrateEntry {
    /// The path of the crate's root file.
    pub root: Text,
    /// In order, with repeats.
    pub deps: Items<DependencyEntry>,
}

impl TryClone for CrateEntry {
    fn try_clone(&self, alloc: Global) -> Result<Self, AllocError> {
        let root = self.root.try_clone(alloc)?;
        let deps = self.deps.try_clone(alloc)?;
        Ok(CrateEntry { root, deps })
    }
}
