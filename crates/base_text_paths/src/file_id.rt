//! Numbers of files. A number names one path for as long as its table lives.

ghost use Rattle.std.specs.Prelude.{◌≡◌, ◌≤◌};

use base_values::TryClone;
use std::alloc::{AllocError, Global};
use std::marker::Model;

/// The number of a file. It is at most 0x7fff_ffff, so that one bit of a word is free.
#[derive(Clone, Copy, Debug, PartialEq, Eq, PartialOrd, Ord, Hash)]
pub struct FileId {
    raw: u32,
}

impl Model for FileId {
    ghost use Rattle.std.specs.Prelude.{ℕ, ◌≤◌};

    ghost Value = { ℕ };

    ghost view = { λ a. a.raw };

    ghost invariant = { λ a. a.raw ≤ 0x7fff_ffff };

    ghost inverse = { λ n. record { raw = n } };
}

impl FileId {
    pub fn from_raw(raw: u32) -> Self
        requires { raw ≤ 0x7fff_ffff }
        ensures { result ≡ raw }
    {
        FileId { raw }
    }

    pub fn index(self) -> u32
        ensures number { result ≡ self }
        ensures in_range { result ≤ 0x7fff_ffff }
    {
        self.raw
    }
}

impl TryClone for FileId {
    fn try_clone(&self, _alloc: Global) -> Result<Self, AllocError> {
        Ok(*self)
    }
}
