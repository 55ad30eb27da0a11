//! The edition of Rust that a file is read in.

ghost use Rattle.std.specs.Prelude.{◌≡◌};

use base_values::TryClone;
use std::alloc::{AllocError, Global};

/// An edition of Rust. Later editions are greater.
#[derive(Clone, Copy, Debug, PartialEq, Eq, PartialOrd, Ord, Hash)]
pub enum Edition {
    Edition2015,
    Edition2018,
    Edition2021,
    Edition2024,
}

impl Edition {
    /// The edition of a file of which nothing is said.
    pub const CURRENT: Edition = Edition::Edition2024;
}

impl TryClone for Edition {
    fn try_clone(&self, _alloc: Global) -> Result<Self, AllocError> {
        Ok(*self)
    }
}
