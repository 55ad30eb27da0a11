//! How seldom a value is expected to change.

use base_text_paths::TryClone;
use std::alloc::{AllocError, Global};

/// How seldom a value is expected to change.
#[derive(Clone, Copy, Debug, PartialEq, Eq, PartialOrd, Ord, Hash)]
pub enum Durability {
    /// Changes often, as the texts of the files that are worked on.
    Low,
    Medium,
    /// Hardly ever changes, as the texts of libraries.
    High,
}

impl TryClone for Durability {
    fn try_clone(&self, _alloc: Global) -> Result<Self, AllocError> {
        Ok(*self)
    }
}
