//! A toolchain whose tools have names of their own, so that they are not taken for the words of a question.

use crate::case::{Case, Fault};
use crate::given::Given;
use base_text::{Text, Tool, Tools};
use std::alloc::{AllocError, Global};

/// The toolchain of a case, and what questions are asked with.
pub fn given_of(alloc: Global, case: Case<'_>) -> Result<Box<Given>, Fault> {
    Given::of_case(alloc, case, tools(alloc)?)
}

fn tools(alloc: Global) -> Result<Tools, AllocError> {
    Ok(Tools {
        cargo: Text::of_str(alloc, "my-cargo")?,
        rustc: Text::of_str(alloc, "my-rustc")?,
        rustup: Text::of_str(alloc, "my-rustup")?,
        myself: Text::of_str(alloc, "/bin/myself")?,
    })
}

/// A tool by its name.
pub fn tool_of(case: Case<'_>) -> Result<Tool, Fault> {
    match case.text("tool") {
        "cargo" => Ok(Tool::Cargo),
        "rustc" => Ok(Tool::Rustc),
        "rustup" => Ok(Tool::Rustup),
        _ => Err(Fault::Member("tool")),
    }
}
