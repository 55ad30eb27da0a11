//! Databases: graphs that are set one after another, changes of roots and texts, setters, what is asked of crates, the pages
//! that databases show, and their nonces.

mod changes;
mod contents;
mod crates;
mod nonces;
mod questions;
mod setters;

use cases::{Case, Fault, List};
use input_db::{InputDb, Nonce};
use serde_json::Value;
use std::alloc::Global;

/// What a case of a database gives: an answer after each of its changes, or to its question after all of them.
pub fn answer(alloc: Global, file: &str, case: Case<'_>) -> Result<Value, Fault> {
    let mut db = Box::new(alloc, InputDb::new(alloc, Nonce::invalid()))?;
    match file {
        "changes.jsonl" | "database_graphs.jsonl" | "pages.jsonl" => {
            after_each(alloc, file, case, &mut db)
        }
        "nonces.jsonl" => nonces::answer(alloc, case),
        "roots.jsonl" => questions::answer(alloc, case, &mut db),
        "setters.jsonl" => setters::set_all(alloc, case, &mut db),
        _ => Err(Fault::Kind),
    }
}

fn after_each(alloc: Global, file: &str, case: Case<'_>, db: &mut InputDb) -> Result<Value, Fault> {
    let mut given = Vec::new(alloc);
    let mut answers = List::new(alloc);
    for change in case.list("changes") {
        let change = case.with(change);
        answers = match file {
            "changes.jsonl" => answers.item(changes::apply(alloc, db, change)),
            "pages.jsonl" => answers.item(changes::page_after(alloc, db, change)),
            _ => answers.item(crates::set_graph(alloc, db, &mut given, change)),
        };
    }
    answers.answer()
}
