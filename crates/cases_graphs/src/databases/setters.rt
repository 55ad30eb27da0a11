//! Setters of a database, one after another.

use crate::databases::changes::root_of;
use crate::databases::contents::contents;
use base_text::{FileId, TryClone};
use cases::{Case, Fault, Object, text_answer};
use input_db::{Durability, InputDb, SourceDatabase, SourceRootId};
use serde_json::Value;
use std::alloc::Global;

/// Makes settings, and gives what the database has then, with the text of file 1 in a copy of the files before the last one.
pub fn set_all(alloc: Global, case: Case<'_>, db: &mut InputDb) -> Result<Value, Fault> {
    let mut before = Value::Null;
    for setting in case.list("settings") {
        before = first_text(alloc, db)?;
        set(alloc, db, case.with(setting))?;
    }
    Object::new(alloc)
        .member("before", Ok(before))
        .member("after", contents(alloc, db))
        .answer()
}

fn first_text(alloc: Global, db: &InputDb) -> Result<Value, Fault> {
    let files = db.files().try_clone(alloc)?;
    if !files.has_text(FileId::from_raw(1)) {
        return Ok(Value::Null);
    }
    text_answer(alloc, files.file_text(FileId::from_raw(1)).text.as_str())
}

fn set<D: SourceDatabase>(alloc: Global, db: &mut D, setting: Case<'_>) -> Result<(), Fault> {
    let durability = durability_of(setting.optional_text("durability"));
    match setting.text("set") {
        "file_text" => set_text(db, setting, durability),
        "file_source_root" => {
            let id = FileId::from_raw(setting.of("file").as_file_number());
            let root = SourceRootId(setting.of("root").as_u32());
            let durability = durability.unwrap_or(Durability::Low);
            db.set_file_source_root_with_durability(id, root, durability)?;
            Ok(())
        }
        "source_root" => {
            let root = root_of(alloc, setting)?;
            let id = SourceRootId(setting.of("root").as_u32());
            let durability = durability.unwrap_or(Durability::Low);
            db.set_source_root_with_durability(id, root, durability)?;
            Ok(())
        }
        _ => Err(Fault::Member("set")),
    }
}

// Sets a text, with a durability where the case gives one.
fn set_text<D: SourceDatabase>(
    db: &mut D,
    setting: Case<'_>,
    durability: Option<Durability>,
) -> Result<(), Fault> {
    let id = FileId::from_raw(setting.of("file").as_file_number());
    let text = setting.text("text");
    match durability {
        Some(durability) => db.set_file_text_with_durability(id, text, durability)?,
        None => db.set_file_text(id, text)?,
    }
    Ok(())
}

fn durability_of(name: Option<&str>) -> Option<Durability> {
    match name? {
        "low" => Some(Durability::Low),
        "medium" => Some(Durability::Medium),
        _ => Some(Durability::High),
    }
}
