//! The script that `generate` runs: the files of packages in a row, their metadata, the load, and two flushes, with every third file
//! deleted between them.

ghost use Rattle.std.specs.Prelude.{◌≡◌, ◌++◌, false, IfOk, OnOk, string_bytes};
ghost use Rattle.serde_json.specs.View.{members_view, view};
ghost use Rattle.serde_json.specs.Written.{has_float};
ghost use Rattle.live_page.specs.GeneratedScript.{answer_data, data_line, deletion_text, deletions_text, file_data, files_text, flush_data, generated_script, load_data, metadata_words, path_event, path_members};

use crate::generated::{generated_document, library_path};
use crate::page_text::line_of;
use base_text::{Items, Text};
use json_fields::{set, set_value};
use serde_json::{Map, Value};
use std::alloc::{AllocError, Global};

/// The script of so many packages, as bytes that a session takes in place of an input.
#[tactic(auto, unfolding(crate::specs::GeneratedScript::generated_script))]
pub fn generated_script(alloc: Global, count: u64) -> Result<String, AllocError>
    ensures { IfOk result (λ script. string_bytes script ≡ generated_script count) }
{
    let mut script = String::new(alloc);
    push_files(alloc, &mut script, count)?;
    push_answer(alloc, &mut script, count)?;
    push_load(alloc, &mut script)?;
    push_flush(alloc, &mut script)?;
    push_deletions(alloc, &mut script, count)?;
    push_flush(alloc, &mut script)?;
    Ok(script)
}

// Puts a value behind the lines of a script, as one more line.
fn push_line(alloc: Global, script: &mut String, value: &Value) -> Result<(), AllocError>
    requires { has_float (view value.now) ≡ false }
    ensures { OnOk result (string_bytes script.new
        ≡ string_bytes script.old ++ data_line (view value.now)) }
{
    let line = line_of(alloc, value)?;
    script.push_str(line.as_str())?;
    Ok(())
}

// The members of an event with a path.
#[tactic(auto, unfolding(crate::specs::GeneratedScript::path_members, json_fields::specs::Written::set_member))]
fn path_members(alloc: Global, event: &str, path: &str) -> Result<Map<String, Value>, AllocError>
    ensures { IfOk result (λ members.
        members_view members.entries ≡ path_members event.now path.now) }
{
    let mut members = Map::new(alloc);
    set_value(
        alloc,
        &mut members,
        "event",
        Value::try_from_str(alloc, event)?,
    )?;
    set_value(
        alloc,
        &mut members,
        "path",
        Value::try_from_str(alloc, path)?,
    )?;
    Ok(members)
}

// An event with a path and nothing more.
fn path_event(alloc: Global, event: &str, path: &str) -> Result<Value, AllocError>
    ensures { IfOk result (λ value. view value ≡ path_event event.now path.now) }
{
    let members = path_members(alloc, event, path)?;
    Ok(Value::Object(members))
}

// The root file of a package.
#[tactic(auto, unfolding(crate::specs::GeneratedScript::file_data))]
fn file_value(alloc: Global, number: u64) -> Result<Value, AllocError>
    ensures { IfOk result (λ value. view value ≡ file_data number) }
{
    let path = library_path(alloc, number)?;
    let text = format!(in alloc; "{number}")?;
    let mut members = path_members(alloc, "file", path.as_str())?;
    set_value(alloc, &mut members, "text", Value::String(text))?;
    Ok(Value::Object(members))
}

// Puts the root file of a package behind the lines of a script.
fn push_file(alloc: Global, script: &mut String, number: u64) -> Result<(), AllocError>
    ensures { OnOk result (string_bytes script.new
        ≡ string_bytes script.old ++ data_line (file_data number)) }
{
    let value = file_value(alloc, number)?;
    push_line(alloc, script, &value)
}

// Puts the files of all packages behind the lines of a script.
fn push_files(alloc: Global, script: &mut String, count: u64) -> Result<(), AllocError>
    ensures { OnOk result (string_bytes script.new
        ≡ string_bytes script.old ++ files_text count) }
{
    for number in 0..count {
        push_file(alloc, script, number)?;
    }
    Ok(())
}

// The words that ask for the metadata.
fn metadata_words(alloc: Global) -> Result<Items<Text>, AllocError>
    ensures { IfOk result (λ words. words ≡ metadata_words) }
{
    let mut words = Vec::new(alloc);
    words.push(Text::of_str(alloc, "metadata")?)?;
    words.push(Text::of_str(alloc, "--format-version")?)?;
    words.push(Text::of_str(alloc, "1")?)?;
    words.push(Text::of_str(alloc, "--manifest-path")?)?;
    words.push(Text::of_str(alloc, "/g/Cargo.toml")?)?;
    Ok(Items::new(words))
}

// The answer with a document.
#[tactic(auto, unfolding(crate::specs::GeneratedScript::answer_data, json_fields::specs::Written::set_member))]
fn answer_value(alloc: Global, count: u64) -> Result<Value, AllocError>
    ensures { IfOk result (λ value. view value ≡ answer_data count) }
{
    let document = Value::String(generated_document(alloc, count)?);
    let words = metadata_words(alloc)?;
    let mut members = Map::new(alloc);
    set_value(
        alloc,
        &mut members,
        "event",
        Value::try_from_str(alloc, "answer")?,
    )?;
    set_value(
        alloc,
        &mut members,
        "program",
        Value::try_from_str(alloc, "cargo")?,
    )?;
    set(alloc, &mut members, "words", &words)?;
    set_value(
        alloc,
        &mut members,
        "dir",
        Value::try_from_str(alloc, "/g")?,
    )?;
    set(alloc, &mut members, "ok", &true)?;
    set_value(alloc, &mut members, "out", document)?;
    Ok(Value::Object(members))
}

// Puts the answer with the metadata behind the lines of a script.
fn push_answer(alloc: Global, script: &mut String, count: u64) -> Result<(), AllocError>
    ensures { OnOk result (string_bytes script.new
        ≡ string_bytes script.old ++ data_line (answer_data count)) }
{
    let value = answer_value(alloc, count)?;
    push_line(alloc, script, &value)
}

// Puts the load behind the lines of a script.
fn push_load(alloc: Global, script: &mut String) -> Result<(), AllocError>
    ensures { OnOk result (string_bytes script.new
        ≡ string_bytes script.old ++ data_line load_data) }
{
    let value = path_event(alloc, "load", "/g/Cargo.toml")?;
    push_line(alloc, script, &value)
}

// A flush.
#[tactic(auto, unfolding(crate::specs::GeneratedScript::flush_data, json_fields::specs::Written::set_member))]
fn flush_value(alloc: Global) -> Result<Value, AllocError>
    ensures { IfOk result (λ value. view value ≡ flush_data) }
{
    let mut members = Map::new(alloc);
    set_value(
        alloc,
        &mut members,
        "event",
        Value::try_from_str(alloc, "flush")?,
    )?;
    Ok(Value::Object(members))
}

// Puts a flush behind the lines of a script.
fn push_flush(alloc: Global, script: &mut String) -> Result<(), AllocError>
    ensures { OnOk result (string_bytes script.new
        ≡ string_bytes script.old ++ data_line flush_data) }
{
    let value = flush_value(alloc)?;
    push_line(alloc, script, &value)
}

// Puts the deletion of the file of a package behind the lines of a script, if it is a third one.
fn push_deletion(alloc: Global, script: &mut String, number: u64) -> Result<(), AllocError>
    ensures { OnOk result (string_bytes script.new
        ≡ string_bytes script.old ++ deletion_text number) }
{
    if number % 3 != 0 {
        return Ok(());
    }
    let path = library_path(alloc, number)?;
    let value = path_event(alloc, "file", path.as_str())?;
    push_line(alloc, script, &value)
}

// Puts the deletions behind the lines of a script.
fn push_deletions(alloc: Global, script: &mut String, count: u64) -> Result<(), AllocError>
    ensures { OnOk result (string_bytes script.new
        ≡ string_bytes script.old ++ deletions_text count) }
{
    for number in 0..count {
        push_deletion(alloc, script, number)?;
    }
    Ok(())
}
