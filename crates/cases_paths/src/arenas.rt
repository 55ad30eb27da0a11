//! Arenas, maps by their numbers, and the numbers.

use base_text::{Arena, ArenaMap, Idx};
use cases::{Case, Fault, List, copied_answer, is_least};
use serde_json::Value;
use std::alloc::Global;

// A tag has no trait of its own.
enum Letter {}

/// What a call on arenas, on maps or on their numbers gives.
pub fn answer(alloc: Global, case: Case<'_>) -> Result<Value, Fault> {
    match case.text("call") {
        "Arena" => arena(alloc),
        "ArenaMap" => map(alloc),
        "Idx" => numbers(alloc),
        _ => Err(Fault::Call),
    }
}

// An arena of 7 and 8, the second of which becomes 9: whether it is a new one before and after, the two numbers, and what
// it has.
fn arena(alloc: Global) -> Result<Value, Fault> {
    let mut arena: Arena<Letter, u64> = Arena::new(alloc);
    let is_first = arena == Arena::new(alloc);
    let (first, second) = (arena.alloc(7)?, arena.alloc(8)?);
    if let Some(value) = arena.get_mut(second) {
        *value = 9;
    }
    let answer = List::new(alloc)
        .flag(is_first)
        .flag(arena == Arena::new(alloc))
        .number(first.into_raw() as u64)
        .number(second.into_raw() as u64)
        .number(arena.len() as u64)
        .item(Ok(number_answer(arena.get(second).copied())))
        .item(Ok(number_answer(arena.get(Idx::from_raw(2)).copied())));
    answer.item(rows(alloc, &arena)).answer()
}

// The values with their numbers.
fn rows(alloc: Global, arena: &Arena<Letter, u64>) -> Result<Value, Fault> {
    let mut rows = List::new(alloc);
    for (id, value) in arena.iter() {
        let row = List::new(alloc).number(id.into_raw() as u64);
        rows = rows.item(row.number(*value).answer());
    }
    rows.answer()
}

// What stood at a number before 7 and before 8, what stands there once it is set to 9, and what stands at another.
fn map(alloc: Global) -> Result<Value, Fault> {
    let (id, other): (Idx<Letter>, Idx<Letter>) = (Idx::from_raw(0), Idx::from_raw(1));
    let mut map = ArenaMap::new(alloc);
    let (first, second) = (map.insert(id, 7u64)?, map.insert(id, 8)?);
    if let Some(value) = map.get_mut(id) {
        *value = 9;
    }
    List::new(alloc)
        .item(Ok(number_answer(first)))
        .item(Ok(number_answer(second)))
        .item(Ok(number_answer(map.get(id).copied())))
        .item(Ok(number_answer(map.get(other).copied())))
        .answer()
}

// Whether 1 is at most 2 and itself, whether 2 is, and whether a number equals its copy.
fn numbers(alloc: Global) -> Result<Value, Fault> {
    let (first, second): (Idx<Letter>, Idx<Letter>) = (Idx::from_raw(1), Idx::from_raw(2));
    List::new(alloc)
        .flag(is_least(&first, &[second, first]))
        .flag(is_least(&second, &[second, first]))
        .item(copied_answer(alloc, &first))
        .answer()
}

/// An answer that is a number, or null.
pub fn number_answer(number: Option<u64>) -> Value {
    match number {
        Some(number) => Value::from(number),
        None => Value::Null,
    }
}
