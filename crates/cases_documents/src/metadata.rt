//! Whole documents: the first place that does not fit, what is written of them, and what they select.

use crate::packages::refusal;
use base_text::Text;
use cargo_meta::{Error, Metadata, MetadataCommand, Package, PackageId};
use cases::{Case, Fault, List, Object, is_copied, text_answer};
use serde_json::Value;
use std::alloc::{AllocError, Global};
use std::fs;
use std::rt::Files;

/// What a call on a document gives. The document is a value, or the text of a file.
pub fn answer<R: Files + AllocGlobal>(rt: &R, case: Case<'_>) -> Result<Value, Fault> {
    let reading = Box::new(rt.alloc(), reading_of(rt, case)?)?;
    of_reading(rt.alloc(), case, &reading)
}

// What is read of the document of a case.
fn reading_of<R: Files + AllocGlobal>(
    rt: &R,
    case: Case<'_>,
) -> Result<Result<Metadata, Error>, Fault> {
    let alloc = rt.alloc();
    match case.optional_text("file") {
        Some(file) => {
            let text = text_of_file(rt, case, file)?;
            Ok(MetadataCommand::parse(alloc, text.as_str()))
        }
        None => Ok(Metadata::of_value(alloc, case.member("document"))),
    }
}

// The text of a file, in which texts are replaced once each.
fn text_of_file<R: Files + AllocGlobal>(
    rt: &R,
    case: Case<'_>,
    file: &str,
) -> Result<String, Fault> {
    let Ok(text) = fs::read_to_string(rt, file) else {
        return Err(Fault::Member("file"));
    };
    let mut text = text;
    for pair in case.list("replace") {
        text = replace(rt.alloc(), text.as_str(), case.with(pair))?;
    }
    Ok(text)
}

fn replace(alloc: Global, text: &str, pair: Case<'_>) -> Result<String, Fault> {
    match text.split_once(pair.text_at(0)) {
        Some((front, rest)) => {
            let new = pair.text_at(1);
            Ok(format!(in alloc; "{front}{new}{rest}")?)
        }
        None => Err(Fault::Member("replace")),
    }
}

fn of_reading(
    alloc: Global,
    case: Case<'_>,
    reading: &Result<Metadata, Error>,
) -> Result<Value, Fault> {
    match reading {
        Ok(metadata) => of_metadata(alloc, case, metadata),
        Err(error) => refusal(alloc, error),
    }
}

fn of_metadata(alloc: Global, case: Case<'_>, metadata: &Metadata) -> Result<Value, Fault> {
    match case.text("call") {
        "Metadata::of_value" => is_read_again(alloc, metadata),
        "Metadata::to_value" => members(alloc, case, &metadata.to_value(alloc)?),
        "Metadata" => selection(alloc, metadata),
        "Metadata::get_package" => package(alloc, metadata, &id_of(alloc, case)?),
        "Resolve::get_node" => node(alloc, metadata, &id_of(alloc, case)?),
        _ => Err(Fault::Call),
    }
}

// Whether the document is read again, equal, from what is written of it, and its copy is equal.
fn is_read_again(alloc: Global, metadata: &Metadata) -> Result<Value, Fault> {
    let is_copied = is_copied(alloc, metadata)?;
    let again = Box::new(alloc, Metadata::of_value(alloc, &metadata.to_value(alloc)?))?;
    match &*again {
        Ok(again) => Ok(Value::from(is_copied && *again == *metadata)),
        Err(error) => refusal(alloc, error),
    }
}

// The members of what is written, in a list each: empty where it is left out.
fn members(alloc: Global, case: Case<'_>, written: &Value) -> Result<Value, Fault> {
    let mut members = List::new(alloc);
    for key in case.list("members") {
        let member = List::new(alloc);
        members = match written.get(case.with(key).as_text()) {
            Some(value) => members.item(member.item(Ok(value.clone()?)).answer()),
            None => members.item(member.answer()),
        };
    }
    members.answer()
}

// The names of the packages at the root, of the members and of the default members.
fn selection(alloc: Global, metadata: &Metadata) -> Result<Value, Fault> {
    let root = metadata.root_package();
    let members = names(alloc, metadata.workspace_packages(alloc));
    Object::new(alloc)
        .optional("root", root.map(|package| package.name.as_str()))
        .member("members", members)
        .member("default_members", default_members(alloc, metadata))
        .answer()
}

fn default_members(alloc: Global, metadata: &Metadata) -> Result<Value, Fault> {
    if !metadata.workspace_default_members.is_available() {
        return Ok(Value::Null);
    }
    names(alloc, metadata.workspace_default_packages(alloc))
}

fn names(alloc: Global, packages: Result<Vec<&Package>, AllocError>) -> Result<Value, Fault> {
    let packages = packages?;
    let mut names = List::new(alloc);
    for package in packages.as_slice() {
        names = names.text(package.name.as_str());
    }
    names.answer()
}

fn id_of(alloc: Global, case: Case<'_>) -> Result<PackageId, Fault> {
    let repr = Text::of_str(alloc, case.text("id"))?;
    Ok(PackageId { repr })
}

// The name of the package of an id.
fn package(alloc: Global, metadata: &Metadata, id: &PackageId) -> Result<Value, Fault> {
    if metadata.get_package(id).is_none() {
        return Ok(Value::Null);
    }
    text_answer(alloc, metadata[id].name.as_str())
}

// How many packages the node of an id depends on: those with a name, and all ids.
fn node(alloc: Global, metadata: &Metadata, id: &PackageId) -> Result<Value, Fault> {
    let Some(graph) = &metadata.resolve else {
        return Ok(Value::Null);
    };
    if graph.get_node(id).is_none() {
        return Ok(Value::Null);
    }
    let node = &graph[id];
    List::new(alloc)
        .number(node.deps.len() as u64)
        .number(node.dependencies.len() as u64)
        .answer()
}
