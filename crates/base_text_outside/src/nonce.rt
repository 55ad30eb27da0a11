//! Numbers that identify things, none of which is given twice.

ghost use Rattle.std.specs.Prelude.{◌≡◌, ℕ};
ghost use Rattle.base_text_outside.specs.Causes.{next_count};
ghost use Rattle.base_text_outside.specs.Nonce.{nonce_of};

use base_values::TryClone;
use std::alloc::{AllocError, Global};
use std::marker::Model;

/// A source of numbers that rise by one.
pub trait NonceSource {
    // The number that comes next.
    ghost upcoming: { Self → ℕ };

    /// Gives the number that comes next, and adds one. None where that number is the greatest u64,
    /// which is never given.
    fn next(&mut self) -> Option<u64>
        ensures gives { result ≡ nonce_of (upcoming self.old) }
        ensures adds { upcoming self.new ≡ next_count (upcoming self.old) };
}

/// A source from 0 on, seen as the number that comes next.
#[derive(Debug, Drop)]
pub struct Numbers {
    upcoming: u64,
}

impl Model for Numbers {
    ghost use Rattle.std.specs.Prelude.{ℕ};

    ghost Value = { ℕ };

    ghost view = { λ a. a.upcoming };
}

impl Numbers {
    pub fn new() -> Self
        ensures { result ≡ 0 }
    {
        Numbers { upcoming: 0 }
    }
}

impl TryClone for Numbers {
    fn try_clone(&self, _alloc: Global) -> Result<Self, AllocError> {
        Ok(Numbers {
            upcoming: self.upcoming,
        })
    }
}

impl NonceSource for Numbers {
    ghost upcoming = { λ n. n };

    fn next(&mut self) -> Option<u64>
        ensures gives { result ≡ nonce_of self.old }
        ensures adds { self.new ≡ next_count self.old }
    {
        let number = self.upcoming;
        if number == u64::MAX {
            return None;
        }
        self.upcoming = number + 1;
        Some(number)
    }
}
