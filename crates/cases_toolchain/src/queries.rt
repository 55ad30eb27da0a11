//! What is known of a toolchain by the answers of its tools.

use crate::answers::{machine_answer, version_answer};
use crate::placed_given::PlacedGiven;
use cases::{
    Case, CaseAsk, Fault, Object, atoms_answer, copied_answer, optional_version, print_answer,
    texts_answer,
};
use pm_tools_info::{QueryConfig, QueryError, rustc_cfg, target_data, target_tuple, version};
use serde_json::Value;
use std::alloc::Global;

/// What a query gives.
pub fn answer(alloc: Global, case: Case<'_>) -> Result<Value, Fault> {
    let given = PlacedGiven::of_case(alloc, case)?;
    of_given(alloc, case, &given)
}

fn of_given(alloc: Global, case: Case<'_>, given: &PlacedGiven) -> Result<Value, Fault> {
    let target = case.optional_text("target");
    match case.text("call") {
        "version::get" => versions(alloc, given.config(), &given.ask()),
        "target_tuple::get" => platforms(alloc, given.config(), target, &given.ask()),
        "target_data::get" => machines(alloc, case, given.config(), target, &given.ask()),
        "rustc_cfg::get" => {
            let atoms = rustc_cfg::get(alloc, given.config(), target, &given.ask())?;
            atoms_answer(alloc, atoms.as_slice())
        }
        _ => Err(Fault::Call),
    }
}

fn versions(alloc: Global, config: QueryConfig<'_>, ask: &CaseAsk<'_>) -> Result<Value, Fault> {
    match version::get(alloc, config, ask) {
        Ok(version) => version_answer(alloc, version.as_ref()),
        Err(error) => refusal(alloc, &error),
    }
}

fn platforms(
    alloc: Global,
    config: QueryConfig<'_>,
    target: Option<&str>,
    ask: &CaseAsk<'_>,
) -> Result<Value, Fault> {
    match target_tuple::get(alloc, config, target, ask) {
        Ok(targets) => texts_answer(alloc, targets.as_slice()),
        Err(error) => refusal(alloc, &error),
    }
}

fn machines(
    alloc: Global,
    case: Case<'_>,
    config: QueryConfig<'_>,
    target: Option<&str>,
    ask: &CaseAsk<'_>,
) -> Result<Value, Fault> {
    let version = optional_version(alloc, case)?;
    match target_data::get(alloc, config, target, version.as_ref(), ask) {
        Ok(machine) => machine_answer(alloc, &machine),
        Err(error) => refusal(alloc, &error),
    }
}

// An error by the name that it prints, whether its copy equals it, and the line of one that carries a line.
fn refusal(alloc: Global, error: &QueryError) -> Result<Value, Fault> {
    let answer = Object::new(alloc)
        .member("error", print_answer(alloc, error))
        .member("copied", copied_answer(alloc, error));
    match error {
        QueryError::Failed(line) => answer.text("line", line.as_str()).answer(),
        QueryError::NoHost | QueryError::BadSpec => answer.answer(),
        QueryError::OutOfMemory => Err(Fault::OutOfMemory),
    }
}
