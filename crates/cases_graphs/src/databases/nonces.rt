//! Nonces of databases, which sources of numbers give.

use base_text::{NonceSource, Numbers};
use cases::{Case, Fault, Object};
use input_db::Nonce;
use serde_json::Value;
use std::alloc::Global;

/// What two nonces are that one source gives.
pub fn answer(alloc: Global, case: Case<'_>) -> Result<Value, Fault> {
    match case.text("source") {
        "numbers" => two_nonces(alloc, &mut Numbers::new()),
        "spent" => two_nonces(alloc, &mut Spent {}),
        _ => Err(Fault::Member("source")),
    }
}

// A source that has no number left.
#[derive(Drop)]
struct Spent {}

impl NonceSource for Spent {
    ghost use Rattle.std.specs.Prelude.{◌-◌, ◌^◌};

    ghost upcoming = { λ source. 2 ^ 64 - 1 };

    fn next(&mut self) -> Option<u64> {
        None
    }
}

// Which of the next two nonces there are, whether they are equal, and whether one of them is the invalid one.
fn two_nonces<N: NonceSource>(alloc: Global, source: &mut N) -> Result<Value, Fault> {
    let (first, second) = (Nonce::new(source), Nonce::new(source));
    let invalid = Some(Nonce::invalid());
    Object::new(alloc)
        .flag("first", first.is_some())
        .flag("second", second.is_some())
        .flag("equal", first == second)
        .flag("invalid", first == invalid || second == invalid)
        .answer()
}
