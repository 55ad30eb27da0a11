//! What answers say.

use base_text::{TryClone, Version};
use cases::{Case, Fault, List, atoms_answer, optional_answer};
use crate_graph_values::target::{Arch, TargetData};
use pm_tools_info::{TargetSpec, atoms_of, host_of, spec_of, version_behind};
use serde_json::Value;
use std::alloc::Global;

/// What a call on a text gives.
pub fn answer(alloc: Global, case: Case<'_>) -> Result<Value, Fault> {
    let text = case.text("text");
    match case.text("call") {
        "version_behind" => {
            let version = version_behind(alloc, case.text("front"), text)?;
            version_answer(alloc, version.as_ref())
        }
        "host_of" => optional_answer(alloc, host_of(text)),
        "atoms_of" => atoms_answer(alloc, atoms_of(alloc, text)?.as_slice()),
        "spec_of" => specification(alloc, text),
        _ => Err(Fault::Call),
    }
}

fn specification(alloc: Global, text: &str) -> Result<Value, Fault> {
    match &spec_of(alloc, text)? {
        Some(spec) => specification_answer(alloc, spec),
        None => Ok(Value::Null),
    }
}

// The machine of a specification's copy, where that equals it.
fn specification_answer(alloc: Global, spec: &TargetSpec) -> Result<Value, Fault> {
    let copy = spec.try_clone(alloc)?;
    if copy == *spec {
        machine_answer(alloc, &TargetData::from(copy))
    } else {
        Err(Fault::Condition)
    }
}

/// A version as its text, or null.
pub fn version_answer(alloc: Global, version: Option<&Version>) -> Result<Value, Fault> {
    match version {
        Some(version) => Ok(Value::String(version.as_version().to_string(alloc)?)),
        None => Ok(Value::Null),
    }
}

/// The kind of a machine and its layout.
pub fn machine_answer(alloc: Global, machine: &TargetData) -> Result<Value, Fault> {
    let arch = match machine.arch {
        Arch::Wasm32 => "Wasm32",
        Arch::Wasm64 => "Wasm64",
        Arch::Other => "Other",
    };
    List::new(alloc)
        .text(arch)
        .text(machine.data_layout.as_str())
        .answer()
}
