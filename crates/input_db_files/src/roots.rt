//! Which source roots are local, and which are libraries.

use crate::source_root::SourceRootId;
use base_text_paths::TryClone;
use std::alloc::{AllocError, Global};
use std::collections::BTreeSet;

/// The roots of what is worked on. Their files change often.
#[derive(Debug, Drop, PartialEq, Eq)]
pub struct LocalRoots {
    pub roots: BTreeSet<SourceRootId>,
}

impl TryClone for LocalRoots {
    #[tactic(auto, using(crate::proofs::Copies::same_from_copies))]
    fn try_clone(&self, _alloc: Global) -> Result<Self, AllocError> {
        let roots = self.roots.clone()?;
        Ok(LocalRoots { roots })
    }
}

/// The roots of libraries. Their files hardly ever change.
#[derive(Debug, Drop, PartialEq, Eq)]
pub struct LibraryRoots {
    pub roots: BTreeSet<SourceRootId>,
}

impl TryClone for LibraryRoots {
    #[tactic(auto, using(crate::proofs::Copies::same_from_copies))]
    fn try_clone(&self, _alloc: Global) -> Result<Self, AllocError> {
        let roots = self.roots.clone()?;
        Ok(LibraryRoots { roots })
    }
}
