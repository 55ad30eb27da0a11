//! Values that stand in fields: versions, requirements, any values and maps. Each is copied, and written of its copy.

use base_text::{ByText, Text, TryClone, Version};
use cases::{Case, Fault, List, Object, copied_answer, optional_answer, texts_of_pair};
use json_fields::{
    AnyValue, BareVersion, Json, ReadJson, Requirement, holds_float, same_value, set_unless_null,
};
use serde_json::{Map, Value};
use std::alloc::Global;
use std::collections::BTreeMap;

/// What a call on a value gives.
pub fn answer(alloc: Global, case: Case<'_>) -> Result<Value, Fault> {
    match case.text("call") {
        "ByText" => map(alloc, case),
        "same_value" => {
            Ok(Value::from(same_value(case.member("document"), case.member("other"))))
        }
        call => of_document(alloc, call, case.member("document")),
    }
}

fn of_document(alloc: Global, call: &str, document: &Value) -> Result<Value, Fault> {
    match call {
        "versions" => versions(alloc, document),
        "Requirement" => requirement(alloc, document),
        "AnyValue" => any_value(alloc, document),
        "set_unless_null" => set(alloc, document),
        "holds_float" => Ok(Value::from(holds_float(document))),
        _ => Err(Fault::Call),
    }
}

// What is written of the copy of a value, once the two are equal.
fn write_value<T: Json + TryClone + PartialEq>(alloc: Global, value: &T) -> Result<Value, Fault> {
    let copy = value.try_clone(alloc)?;
    if copy == *value {
        Ok(copy.write(alloc)?)
    } else {
        Err(Fault::Condition)
    }
}

// The minor numbers of a version and of the bare version of its text, what is written of both, and whether each is made of what
// is in it.
fn versions(alloc: Global, document: &Value) -> Result<Value, Fault> {
    let Ok(version) = Version::read(alloc, document) else {
        return Err(Fault::Member("document"));
    };
    let Ok(bare) = BareVersion::read(alloc, document) else {
        return Err(Fault::Member("document"));
    };
    let answer = Object::new(alloc)
        .number("minor", version.as_version().minor)
        .number("bare_minor", bare.as_version().as_version().minor)
        .member("written", write_value(alloc, &version))
        .member("bare_written", write_value(alloc, &bare));
    let (copy, bare_copy) = (version.try_clone(alloc)?, bare.try_clone(alloc)?);
    answer
        .flag("same", Version::new(version.into_inner()) == copy)
        .flag(
            "bare_same",
            BareVersion::new(bare.into_inner()) == bare_copy,
        )
        .answer()
}

fn requirement(alloc: Global, document: &Value) -> Result<Value, Fault> {
    let Ok(requirement) = Requirement::read(alloc, document) else {
        return Err(Fault::Member("document"));
    };
    let parts = requirement.as_req().comparators.len() as u64;
    Object::new(alloc)
        .text("text", requirement.as_str())
        .number("comparators", parts)
        .member("written", write_value(alloc, &requirement))
        .answer()
}

// What is written of any value, and whether it is the value that was kept.
fn any_value(alloc: Global, document: &Value) -> Result<Value, Fault> {
    let kept = AnyValue::new(document.clone()?);
    let written = write_value(alloc, &kept)?;
    let is_kept = same_value(kept.as_value(), &written);
    let is_same = same_value(&kept.into_inner(), &written);
    Object::new(alloc)
        .member("written", Ok(written))
        .flag("kept", is_kept)
        .flag("same", is_same)
        .answer()
}

// The members once a value is put under the key `a`, unless it is null.
fn set(alloc: Global, document: &Value) -> Result<Value, Fault> {
    let value = AnyValue::new(document.clone()?);
    let mut members = Map::new(alloc);
    set_unless_null(alloc, &mut members, "a", &value)?;
    Ok(Value::Object(members))
}

// What stood at each key before, and what a map gives at each key of the case, with how many entries it has, once entries are
// put in.
fn map(alloc: Global, case: Case<'_>) -> Result<Value, Fault> {
    let mut map: ByText<Text> = ByText::new(BTreeMap::new(alloc));
    let is_empty = map.is_empty();
    let mut before = List::new(alloc);
    for entry in case.list("entries") {
        before = before.item(put(alloc, &mut map, case.with(entry)));
    }
    let answer = Object::new(alloc)
        .flag("empty", is_empty)
        .member("before", before.answer())
        .member("found", find_keys(alloc, &map, case))
        .member("copy", copied_answer(alloc, &map))
        .number("entries", map.as_map().len() as u64);
    answer
        .number("inside", map.into_inner().len() as u64)
        .answer()
}

// What stood at a key before.
fn put(alloc: Global, map: &mut ByText<Text>, entry: Case<'_>) -> Result<Value, Fault> {
    let (key, value) = texts_of_pair(alloc, entry)?;
    let before = map.insert(key, Text::new(value))?;
    optional_answer(alloc, before.as_ref().map(|text| text.as_str()))
}

fn find_keys(alloc: Global, map: &ByText<Text>, case: Case<'_>) -> Result<Value, Fault> {
    let mut found = List::new(alloc);
    for key in case.list("keys") {
        let text = map.get(case.with(key).as_text());
        found = found.optional(text.map(|text| text.as_str()));
    }
    found.answer()
}
