//! What distinguishes one database from another.

ghost use Rattle.std.specs.Prelude.{◌≡◌, ◌-◌, ◌^◌};
ghost use Rattle.base_text_outside.specs.Causes.{next_count};
ghost use Rattle.base_text_outside.specs.Nonce.{nonce_of};

use base_text_paths::{NonceSource, TryClone};
use std::alloc::{AllocError, Global};
use std::marker::Model;

/// A number that no other database has, where both took theirs from one source.
#[derive(Clone, Copy, Debug, PartialEq, Eq, Hash)]
pub struct Nonce {
    number: u64,
}

impl Model for Nonce {
    ghost use Rattle.std.specs.Prelude.{ℕ};

    ghost Value = { ℕ };

    ghost view = { λ a. a.number };

    ghost inverse = { λ n. record { number = n } };
}

impl Nonce {
    /// The next number of the source. None where that is the greatest u64.
    pub fn new<N: NonceSource>(source: &mut N) -> Option<Nonce>
        ensures number { result ≡ nonce_of (N.upcoming source.old) }
        ensures next { N.upcoming source.new ≡ next_count (N.upcoming source.old) }
    {
        match source.next() {
            Some(number) => Some(Nonce { number }),
            None => None,
        }
    }

    /// The number that no source gives.
    pub fn invalid() -> Nonce
        ensures { result ≡ 2 ^ 64 - 1 }
    {
        Nonce { number: u64::MAX }
    }
}

impl TryClone for Nonce {
    fn try_clone(&self, _alloc: Global) -> Result<Self, AllocError> {
        Ok(*self)
    }
}
