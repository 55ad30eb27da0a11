//! Counts of steps and numbers that rise, each at the bound of its trait, and the greatest limits.

ghost use Rattle.std.specs.Prelude.{◌≡◌};
ghost use Rattle.base_text_outside.specs.Causes.{next_count};
ghost use Rattle.base_text_outside.specs.Nonce.{nonce_of};

use crate::arenas::number_answer;
use base_text::{Counter, Ledger, Limits, NonceSource, Numbers, Steps, TryClone};
use cases::{Case, Fault, List, Object};
use serde_json::Value;
use std::alloc::Global;

/// What counts and numbers are.
pub fn answer(alloc: Global, case: Case<'_>) -> Result<Value, Fault> {
    match case.text("call") {
        "Counter" => ticks(alloc),
        "Numbers" => two_pairs(alloc),
        "Limits::greatest" => limits(alloc),
        _ => Err(Fault::Call),
    }
}

// A count before two ticks and after them, and that of its copy.
fn ticks(alloc: Global) -> Result<Value, Fault> {
    let mut steps = Steps {
        ledger: Counter::new(),
    };
    let before = count_of(&steps);
    tick_twice(&mut steps);
    let copy = steps.ledger.try_clone(alloc)?;
    List::new(alloc)
        .number(before)
        .number(count_of(&steps))
        .number(copy.count())
        .answer()
}

fn tick_twice<L: Ledger>(steps: &mut Steps<L>)
    ensures { L.count steps.new.ledger ≡ next_count (next_count (L.count steps.old.ledger)) }
{
    steps.ledger.tick();
    steps.ledger.tick();
}

fn count_of<L: Ledger>(steps: &Steps<L>) -> u64 {
    steps.ledger.count()
}

// The first two numbers and the next.
fn two_pairs(alloc: Global) -> Result<Value, Fault> {
    let mut numbers = Numbers::new();
    let (first, second) = two(&mut numbers);
    List::new(alloc)
        .item(Ok(number_answer(first)))
        .item(Ok(number_answer(second)))
        .item(Ok(number_answer(numbers.next())))
        .answer()
}

// The next two numbers, asked at the bound.
fn two<N: NonceSource>(source: &mut N) -> (Option<u64>, Option<u64>)
    ensures { result ≡ (nonce_of (N.upcoming source.old), nonce_of (next_count (N.upcoming source.old))) }
{
    let first = source.next();
    (first, source.next())
}

fn limits(alloc: Global) -> Result<Value, Fault> {
    let limits = Limits::greatest();
    Object::new(alloc)
        .number("bytes", limits.bytes)
        .number("paths", limits.paths as u64)
        .number("packages", limits.packages as u64)
        .number("targets", limits.targets as u64)
        .number("crates", limits.crates as u64)
        .answer()
}
