//! Questions to the tools of a toolchain, and what is made of their answers.

use base_text::{AbsPath, AbsPathBuf, CommandLine, Text};
use cases::{
    Case, Fault, Given, Object, copied_answer, env_of, given_of, line_answer, line_of, manifest_of,
    optional_answer, optional_path, print_answer, text_answer, tool_of,
};
use pm_tools_ask::config_question::config_question;
use pm_tools_ask::{CargoConfigFile, Sysroot, serving_answer, set_variable, words_of};
use serde_json::Value;
use std::alloc::{AllocError, Global};

/// What a call that asks gives.
pub fn answer(alloc: Global, case: Case<'_>) -> Result<Value, Fault> {
    let given = given_of(alloc, case)?;
    of_given(alloc, case, &given)
}

fn of_given(alloc: Global, case: Case<'_>, given: &Given) -> Result<Value, Fault> {
    match case.text("call") {
        "Sysroot" => sysroot(alloc, &given.sysroot),
        "Sysroot::tool" => tool(alloc, case, given),
        "Sysroot::question" => question(alloc, case, given),
        "Sysroot::tool_path" => tool_path(alloc, case, given),
        "Sysroot::tool_path_question" => tool_path_question(alloc, case, given),
        "serving_answer" => answer_serving(alloc, case, given),
        "config_question" => question_of_config(alloc, case, given),
        "CargoConfigFile::load" => load(alloc, case, given),
        _ => Err(Fault::Call),
    }
}

// What a toolchain is, and whether its copy equals it.
fn sysroot(alloc: Global, sysroot: &Sysroot) -> Result<Value, Fault> {
    let is_empty = *sysroot == Sysroot::empty();
    Object::new(alloc)
        .optional("root", sysroot.root().map(AbsPath::as_str))
        .optional("src", sysroot.rust_lib_src_root().map(AbsPath::as_str))
        .member("workspace", print_answer(alloc, &sysroot.workspace()))
        .flag("empty", is_empty)
        .member("copied", copied_answer(alloc, sysroot))
        .answer()
}

// The command line of a question.
fn question_answer(alloc: Global, line: Result<CommandLine, AllocError>) -> Result<Value, Fault> {
    line_answer(alloc, &line?)
}

fn tool(alloc: Global, case: Case<'_>, given: &Given) -> Result<Value, Fault> {
    let (tool, dir) = (tool_of(case)?, case.text("dir"));
    let line = given.sysroot.tool(alloc, tool, dir, &given.ask());
    question_answer(alloc, line)
}

// A question with one word, and a variable that is set last.
fn question(alloc: Global, case: Case<'_>, given: &Given) -> Result<Value, Fault> {
    let (tool, dir) = (tool_of(case)?, case.text("dir"));
    let (name, value) = (case.text("name"), case.text("value"));
    let words = words_of(alloc, &[case.text("word")])?;
    let line = given
        .sysroot
        .question(alloc, tool, dir, words, &given.ask())?;
    question_answer(alloc, set_variable(alloc, line, name, value))
}

fn tool_path(alloc: Global, case: Case<'_>, given: &Given) -> Result<Value, Fault> {
    let (tool, dir) = (tool_of(case)?, case.text("dir"));
    let envs = env_of(alloc, case, "envs")?;
    let sysroot = &given.sysroot;
    match sysroot.tool_path(alloc, tool, dir, &envs, &given.ask()) {
        Ok(path) => text_answer(alloc, path.as_str()),
        Err(_) => Err(Fault::OutOfMemory),
    }
}

fn tool_path_question(alloc: Global, case: Case<'_>, given: &Given) -> Result<Value, Fault> {
    let (tool, dir) = (tool_of(case)?, case.text("dir"));
    let envs = env_of(alloc, case, "envs")?;
    let line = given
        .sysroot
        .tool_path_question(alloc, tool, dir, &envs, &given.ask());
    question_answer(alloc, line)
}

fn answer_serving(alloc: Global, case: Case<'_>, given: &Given) -> Result<Value, Fault> {
    let line = line_of(alloc, case)?;
    match serving_answer(alloc, given.ask().runner, &line) {
        Ok(answer) => optional_answer(alloc, answer.as_ref().map(Text::as_str)),
        Err(_) => Err(Fault::OutOfMemory),
    }
}

fn question_of_config(alloc: Global, case: Case<'_>, given: &Given) -> Result<Value, Fault> {
    let manifest = manifest_of(alloc, case.text("manifest"))?;
    let config = optional_path(alloc, case, "config_path")?;
    let config = config.as_ref().map(AbsPathBuf::as_path);
    let line = config_question(alloc, &manifest, &given.sysroot, config, &given.ask());
    question_answer(alloc, line)
}

fn load(alloc: Global, case: Case<'_>, given: &Given) -> Result<Value, Fault> {
    let manifest = manifest_of(alloc, case.text("manifest"))?;
    let config = optional_path(alloc, case, "config_path")?;
    let config = config.as_ref().map(AbsPathBuf::as_path);
    match CargoConfigFile::load(alloc, &manifest, &given.sysroot, config, &given.ask()) {
        Ok(file) => optional_answer(alloc, file.as_ref().map(CargoConfigFile::as_str)),
        Err(_) => Err(Fault::OutOfMemory),
    }
}
