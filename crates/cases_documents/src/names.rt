//! Names, ids, kinds, default members and errors: compared, copied and printed.

use crate::fields::unread_answer;
use base_text::{Items, Text, TryClone};
use cargo_meta::{
    DependencyKind, Edition, Error, FeatureName, PackageId, PackageName, Source,
    WorkspaceDefaultMembers,
};
use cases::{Case, Fault, Object, copied_answer, print_answer};
use json_fields::{ReadJson, of_value};
use serde_json::Value;
use std::alloc::{AllocError, Global};
use std::fmt;

/// What a call on a name, a kind or an error gives.
pub fn answer(alloc: Global, case: Case<'_>) -> Result<Value, Fault> {
    match case.text("call") {
        "DependencyKind" => kind::<DependencyKind>(alloc, case.find("document")),
        "Edition" => kind::<Edition>(alloc, case.find("document")),
        "WorkspaceDefaultMembers" => default_members(alloc, case.flag("told")),
        "Error" => error(
            alloc,
            case.text("error"),
            case.optional_text("text").unwrap_or(""),
        ),
        "Source" => source(alloc, case.text("text")),
        "names" => names(alloc, case.text("text"), case.text("other")),
        _ => Err(Fault::Call),
    }
}

// What is printed of the name of a package, of the name of a feature and of an id of one text, whether each is the other text,
// whether the name and the id come before it, and whether their copies are equal.
fn names(alloc: Global, text: &str, other: &str) -> Result<Value, Fault> {
    let id = id_of(alloc, text)?;
    let other_id = id_of(alloc, other)?;
    let name = PackageName::new(Text::of_str(alloc, text)?);
    let other_name = PackageName::new(Text::of_str(alloc, other)?);
    let feature = FeatureName::new(Text::of_str(alloc, text)?);
    Object::new(alloc)
        .member("name", print_answer(alloc, &name))
        .member("feature", print_answer(alloc, &feature))
        .member("id", print_answer(alloc, &id))
        .member("copied_name", copied_answer(alloc, &name))
        .member("copied_id", copied_answer(alloc, &id))
        .flag("is_name", name.eq_str(other))
        .flag("is_feature", feature.eq_str(other))
        .flag("is_id", id == other_id)
        .flag("before", name < other_name && id < other_id)
        .text("text", feature.into_inner().as_str())
        .answer()
}

fn id_of(alloc: Global, text: &str) -> Result<PackageId, AllocError> {
    let repr = Text::of_str(alloc, text)?;
    Ok(PackageId { repr })
}

fn source(alloc: Global, text: &str) -> Result<Value, Fault> {
    let repr = Text::of_str(alloc, text)?;
    let source = Source { repr };
    Object::new(alloc)
        .member("printed", print_answer(alloc, &source))
        .flag("crates_io", source.is_crates_io())
        .answer()
}

// What is printed of the kind that is read of a document, and without a document of the default.
fn kind<T: ReadJson + Default + fmt::Display>(
    alloc: Global,
    document: Option<&Value>,
) -> Result<Value, Fault> {
    let Some(document) = document else {
        return print_answer(alloc, &T::default());
    };
    match of_value::<T>(alloc, document) {
        Ok(kind) => print_answer(alloc, &kind),
        Err(error) => unread_answer(alloc, error),
    }
}

// How many default members a document lists that lists none, or does not tell them.
fn default_members(alloc: Global, is_told: bool) -> Result<Value, Fault> {
    let members = if is_told {
        WorkspaceDefaultMembers::new(Some(Items::empty(alloc)))
    } else {
        WorkspaceDefaultMembers::default()
    };
    if members.is_missing() {
        return Ok(Value::Null);
    }
    Ok(Value::from(members.as_slice().len()))
}

// What is printed of the copy of an error.
fn error(alloc: Global, name: &str, text: &str) -> Result<Value, Fault> {
    let text = Text::of_str(alloc, text)?;
    let error = match name {
        "CargoMetadata" => Error::CargoMetadata { stderr: text },
        "Io" => Error::Io { line: text },
        "Json" => Error::Json { field: text },
        "NoJson" => Error::NoJson,
        _ => Error::OutOfMemory,
    };
    print_answer(alloc, &error.try_clone(alloc)?)
}
