//! Which calls of a source or a sink in memory fail, and how many have failed.

ghost use Rattle.std.specs.Prelude.{◌≡◌, ◌≤◌, IsTrue};
ghost use Rattle.base_text_outside.specs.Causes.{Rose};
ghost use Rattle.base_text_outside.specs.Faults.{FaultCounts, after_call, is_failing_call};

use std::marker::Model;

/// The numbers of the calls that fail, from 0, with the calls so far and those that failed. Both
/// counts stop at the greatest u64, and past it each call has that number.
#[derive(Debug, Drop)]
pub(crate) struct Faults {
    failing: Vec<u64>,
    calls: u64,
    faults: u64,
}

impl Model for Faults {
    ghost use Rattle.base_text_outside.specs.Faults.{FaultCounts};

    ghost Value = { FaultCounts };

    ghost view = { λ s. record { failing = s.failing.items; calls = s.calls; faults = s.faults } };
}

impl Faults {
    pub(crate) fn new(failing: Vec<u64>) -> Self
        ensures { result ≡ record { failing = failing.items; calls = 0; faults = 0 } }
    {
        Faults {
            failing,
            calls: 0,
            faults: 0,
        }
    }

    /// Counts a call. Answers whether it fails.
    pub(crate) fn next_fails(&mut self) -> bool
        ensures listed { result ≡ is_failing_call self.old }
        ensures counts { self.new ≡ after_call self.old }
        ensures later { self.old.faults ≤ self.new.faults }
        ensures rose { IsTrue result → Rose self.old.faults self.new.faults }
    {
        let is_listed = self.failing.contains(&self.calls);
        self.calls = self.calls.saturating_add(1);
        if is_listed {
            self.faults = self.faults.saturating_add(1);
        }
        is_listed
    }

    pub(crate) fn count(&self) -> u64
        ensures { result ≡ self.now.faults }
    {
        self.faults
    }
}
