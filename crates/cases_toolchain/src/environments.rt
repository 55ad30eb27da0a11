//! The environments that configurations give.

use crate::origins::text_of_case;
use cases::{Case, Fault, env_answer, given_of};
use pm_tools_ask::{CargoConfigFile, cargo_config_env};
use serde_json::Value;
use std::alloc::Global;

/// The environment of the configuration of a case, where it has one.
pub fn answer(alloc: Global, case: Case<'_>) -> Result<Value, Fault> {
    let given = given_of(alloc, case)?;
    let config = config_of(alloc, case)?;
    match cargo_config_env(alloc, config.as_ref(), &given.ask()) {
        Ok(env) => env_answer(alloc, &env),
        Err(_) => Err(Fault::OutOfMemory),
    }
}

// The configuration of a case: its lines as one text, if it has some.
fn config_of(alloc: Global, case: Case<'_>) -> Result<Option<CargoConfigFile>, Fault> {
    if case.find("lines").is_none() {
        return Ok(None);
    }
    Ok(Some(CargoConfigFile::from_text(text_of_case(alloc, case)?)))
}
