//! Values that have an order: sorted lists, names, editions and numbers of files.

use crate::traits::numbers;
use base_text::{Edition, FileId, Symbol, TryClone, sort_all};
use cases::{Case, Fault, List, Object, is_copied, is_least, texts, texts_answer};
use serde_json::Value;
use std::alloc::Global;

/// What a call on values that have an order gives.
pub fn answer(alloc: Global, case: Case<'_>) -> Result<Value, Fault> {
    match case.text("call") {
        "sort_all" => sorted_texts(alloc, case),
        "sort_all of numbers" => sorted_numbers(alloc, case),
        "values" => values(alloc, case),
        _ => Err(Fault::Call),
    }
}

fn sorted_texts(alloc: Global, case: Case<'_>) -> Result<Value, Fault> {
    let mut items = texts(alloc, case, "texts")?.into_inner();
    sort_all(&mut items)?;
    texts_answer(alloc, items.as_slice())
}

fn sorted_numbers(alloc: Global, case: Case<'_>) -> Result<Value, Fault> {
    let mut items = numbers(alloc, case, "numbers")?;
    sort_all(&mut items)?;
    let mut answers = List::new(alloc);
    for number in items.iter() {
        answers = answers.number(*number);
    }
    answers.answer()
}

// A name, the current edition and the number of a file: what is printed or known of each, and that it equals its copy and comes
// before another.
fn values(alloc: Global, case: Case<'_>) -> Result<Value, Fault> {
    let name = Symbol::new(String::from_str(alloc, case.text("name"))?);
    let other = Symbol::of_str(alloc, case.text("other"))?;
    let file = FileId::from_raw(case.of("file").as_file_number());
    let edition = Edition::CURRENT.try_clone(alloc)?;
    let printed = format!(in alloc; "{name}")?;
    Object::new(alloc)
        .text("name", name.as_str())
        .text("printed", printed.as_str())
        .number("file", file.index() as u64)
        .flag(
            "copied",
            is_copied(alloc, &name)? && is_copied(alloc, &file)?,
        )
        .flag("is_before", is_least(&name, &[other]))
        .flag(
            "is_before_last",
            is_least(&file, &[FileId::from_raw(0x7fff_ffff)]),
        )
        .flag(
            "is_last",
            edition == Edition::Edition2024 && Edition::Edition2015 < edition,
        )
        .answer()
}
