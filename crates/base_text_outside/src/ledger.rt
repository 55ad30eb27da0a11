//! Counts of steps that a caller can read back, where a promise speaks of work done.

ghost use Rattle.std.specs.Prelude.{◌≡◌, ℕ};
ghost use Rattle.base_text_outside.specs.Causes.{next_count};

use base_values::TryClone;
use std::alloc::{AllocError, Global};
use std::marker::Model;

/// A count of steps, which stops at the greatest u64.
pub trait Ledger {
    // The steps so far.
    ghost count: { Self → ℕ };

    /// Counts one step.
    fn tick(&mut self)
        ensures { count self.new ≡ next_count (count self.old) };

    fn count(&self) -> u64
        ensures { result ≡ count self.now };
}

/// A ledger that is one number, and is seen as that number.
#[derive(Debug, Drop)]
pub struct Counter {
    steps: u64,
}

impl Model for Counter {
    ghost use Rattle.std.specs.Prelude.{ℕ};

    ghost Value = { ℕ };

    ghost view = { λ a. a.steps };
}

impl Counter {
    pub fn new() -> Self
        ensures { result ≡ 0 }
    {
        Counter { steps: 0 }
    }
}

impl TryClone for Counter {
    fn try_clone(&self, _alloc: Global) -> Result<Self, AllocError> {
        Ok(Counter { steps: self.steps })
    }
}

impl Ledger for Counter {
    ghost count = { λ n. n };

    fn tick(&mut self)
        ensures { self.new ≡ next_count self.old }
    {
        self.steps = self.steps.saturating_add(1);
    }

    fn count(&self) -> u64
        ensures { result ≡ self.now }
    {
        self.steps
    }
}

/// The steps of a call that counts what it does.
#[derive(Debug, Drop)]
pub struct Steps<L: Ledger> {
    pub ledger: L,
}
