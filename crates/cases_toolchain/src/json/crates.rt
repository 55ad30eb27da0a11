//! A crate of a project as JSON.

use base_text::{AbsPathBuf, ByText, Edition, Text};
use cases::{Fault, List, Object, atoms_answer, paths_answer, texts_answer};
use crate_graph::{CrateDisplayName, TargetKind};
use pm_json::{Build, Crate, Dep};
use serde_json::Value;
use std::alloc::Global;

/// Every field of a crate.
pub fn crate_answer(alloc: Global, krate: &Crate) -> Result<Value, Fault> {
    let answer = with_module(alloc, Object::new(alloc), krate);
    let answer = with_conditions(alloc, answer, krate);
    let answer = with_paths(alloc, answer, krate);
    with_part(alloc, answer, krate).answer()
}

// What is compiled, and with what.
fn with_module(alloc: Global, answer: Object, krate: &Crate) -> Object {
    answer
        .member("display_name", name_answer(alloc, &krate.display_name))
        .text("root_module", krate.root_module.as_str())
        .text("edition", edition(krate.edition))
        .optional("version", krate.version.as_ref().map(Text::as_str))
        .member("deps", deps_answer(alloc, krate.deps.as_slice()))
}

// Under which conditions it is compiled.
fn with_conditions(alloc: Global, answer: Object, krate: &Crate) -> Object {
    answer
        .member("cfg", atoms_answer(alloc, krate.cfg.as_slice()))
        .optional("target", krate.target.as_ref().map(Text::as_str))
        .member("env", env_answer(alloc, &krate.env))
        .member(
            "crate_attrs",
            texts_answer(alloc, krate.crate_attrs.as_slice()),
        )
}

// The members that are paths.
fn with_paths(alloc: Global, answer: Object, krate: &Crate) -> Object {
    let dylib = krate.proc_macro_dylib_path.as_ref();
    let directory = krate.proc_macro_cwd.as_ref();
    answer
        .member("include", paths_answer(alloc, krate.include.as_slice()))
        .member("exclude", paths_answer(alloc, krate.exclude.as_slice()))
        .optional("proc_macro_dylib_path", dylib.map(AbsPathBuf::as_str))
        .optional("proc_macro_cwd", directory.map(AbsPathBuf::as_str))
}

// What part of the project it is.
fn with_part(alloc: Global, answer: Object, krate: &Crate) -> Object {
    answer
        .flag("is_workspace_member", krate.is_workspace_member)
        .flag("is_proc_macro", krate.is_proc_macro)
        .optional("repository", krate.repository.as_ref().map(Text::as_str))
        .member("build", build_answer(alloc, krate.build.as_ref()))
}

// The name that code knows a crate by, and its own.
fn name_answer(alloc: Global, name: &Option<CrateDisplayName>) -> Result<Value, Fault> {
    match name {
        Some(name) => {
            let (known, own) = (name.crate_name().symbol(), name.canonical_name());
            List::new(alloc)
                .text(known.as_str())
                .text(own.as_str())
                .answer()
        }
        None => Ok(Value::Null),
    }
}

fn edition(edition: Edition) -> &'static str {
    match edition {
        Edition::Edition2015 => "2015",
        Edition::Edition2018 => "2018",
        Edition::Edition2021 => "2021",
        Edition::Edition2024 => "2024",
    }
}

fn deps_answer(alloc: Global, deps: &[Dep]) -> Result<Value, Fault> {
    let mut answers = List::new(alloc);
    for dep in deps {
        let answer = List::new(alloc).number(dep.krate.0 as u64);
        answers = answers.item(answer.text(dep.name.symbol().as_str()).answer());
    }
    answers.answer()
}

fn env_answer(alloc: Global, env: &ByText<Text>) -> Result<Value, Fault> {
    let mut answers = List::new(alloc);
    for (name, value) in env.as_map().iter() {
        let pair = List::new(alloc).text(name.as_str()).text(value.as_str());
        answers = answers.item(pair.answer());
    }
    answers.answer()
}

/// The label, the file and the kind of a build.
pub fn build_answer(alloc: Global, build: Option<&Build>) -> Result<Value, Fault> {
    match build {
        Some(build) => List::new(alloc)
            .text(build.label.as_str())
            .text(build.build_file.as_str())
            .text(target_kind(build.target_kind))
            .answer(),
        None => Ok(Value::Null),
    }
}

fn target_kind(kind: TargetKind) -> &'static str {
    match kind {
        TargetKind::Bin => "bin",
        TargetKind::Lib {
            is_proc_macro: false,
        } => "lib",
        TargetKind::Test => "test",
        _ => "other",
    }
}
