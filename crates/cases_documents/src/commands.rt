//! Commands that ask for metadata, and what is read of their recorded answers.

use crate::packages::refusal;
use base_text::{Items, RecordedRunner, Text, TryClone};
use cargo_meta::{CargoOpt, MetadataCommand};
use cases::{Case, Fault, Object, line_answer, output_of, text_answer};
use serde_json::Value;
use std::alloc::Global;

/// What a call on a command gives.
pub fn answer(alloc: Global, case: Case<'_>) -> Result<Value, Fault> {
    match case.text("call") {
        "MetadataCommand::cargo_command" => {
            let command = command(alloc, case)?;
            words(alloc, &command)
        }
        "MetadataCommand::exec" => {
            let command = command(alloc, case)?;
            exec(alloc, &command, case)
        }
        "MetadataCommand::parse" => parse(alloc, case.text("text")),
        _ => Err(Fault::Call),
    }
}

fn parse(alloc: Global, text: &str) -> Result<Value, Fault> {
    let reading = Box::new(alloc, MetadataCommand::parse(alloc, text))?;
    match &*reading {
        Ok(metadata) => Ok(Value::from(metadata.version)),
        Err(error) => refusal(alloc, error),
    }
}

// The command after the calls of a case, in their order.
fn command(alloc: Global, case: Case<'_>) -> Result<Box<MetadataCommand>, Fault> {
    let mut command = Box::new(alloc, MetadataCommand::new(alloc))?;
    for call in case.list("set") {
        set(alloc, &mut command, case.with(call))?;
    }
    Ok(command)
}

// One call: a list of its name, and of the words that it is given.
fn set(alloc: Global, command: &mut MetadataCommand, call: Case<'_>) -> Result<(), Fault> {
    let name = call.text_at(0);
    match name {
        "no_deps" | "verbose" | "all_features" | "no_default_features" => set_flag(command, name),
        "features" | "other_options" => set_words(alloc, command, name, call),
        "env" => {
            let value = Text::of_str(alloc, call.text_at(2))?;
            drop(command.env(Text::of_str(alloc, call.text_at(1))?, value)?);
            Ok(())
        }
        _ => set_text(command, name, Text::of_str(alloc, call.text_at(1))?),
    }
}

fn set_flag(command: &mut MetadataCommand, name: &str) -> Result<(), Fault> {
    match name {
        "no_deps" => drop(command.no_deps()),
        "verbose" => drop(command.verbose(true)),
        "all_features" => {
            if command.has_all_features() {
                return Err(Fault::Condition);
            }
            drop(command.features(CargoOpt::AllFeatures)?);
        }
        _ => {
            if command.has_no_default_features() {
                return Err(Fault::Condition);
            }
            drop(command.features(CargoOpt::NoDefaultFeatures)?);
        }
    }
    Ok(())
}

fn set_words(
    alloc: Global,
    command: &mut MetadataCommand,
    name: &str,
    call: Case<'_>,
) -> Result<(), Fault> {
    let mut words = Vec::new(alloc);
    for word in call.items().get(1..).unwrap_or(&[]) {
        words.push(Text::of_str(alloc, call.with(word).as_text())?)?;
    }
    let words = Items::new(words);
    if name == "features" {
        let features = CargoOpt::SomeFeatures(words).try_clone(alloc)?;
        drop(command.features(features)?);
    } else {
        drop(command.other_options(words));
    }
    Ok(())
}

fn set_text(command: &mut MetadataCommand, name: &str, text: Text) -> Result<(), Fault> {
    match name {
        "cargo_path" => drop(command.cargo_path(text)),
        "manifest_path" => drop(command.manifest_path(text)),
        "current_dir" => drop(command.current_dir(text)),
        "env_remove" => drop(command.env_remove(text)?),
        _ => return Err(Fault::Member("set")),
    }
    Ok(())
}

// The command line of a copy, and the flags of features that are set.
fn words(alloc: Global, command: &MetadataCommand) -> Result<Value, Fault> {
    Object::new(alloc)
        .member("line", line_of_copy(alloc, command))
        .flag("all_features", command.has_all_features())
        .flag("no_default_features", command.has_no_default_features())
        .answer()
}

fn line_of_copy(alloc: Global, command: &MetadataCommand) -> Result<Value, Fault> {
    let copy = Box::new(alloc, command.try_clone(alloc)?)?;
    let line = copy.cargo_command(alloc)?;
    line_answer(alloc, &line)
}

// What a command gives whose answer is recorded, if there is one: the workspace's root.
fn exec(alloc: Global, command: &MetadataCommand, case: Case<'_>) -> Result<Value, Fault> {
    let mut runner = RecordedRunner::new(alloc);
    if case.find("answer").is_some() {
        let output = output_of(alloc, case.of("answer"))?;
        runner.insert(command.cargo_command(alloc)?, output)?;
    }
    let reading = Box::new(alloc, command.exec(alloc, &runner))?;
    match &*reading {
        Ok(metadata) => text_answer(alloc, metadata.workspace_root.as_str()),
        Err(error) => refusal(alloc, error),
    }
}
