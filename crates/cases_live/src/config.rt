//! Configurations as they are compared.

use base_text::{Limits, Tools};
use cases::{Fault, List, Object, paths_answer, text_answer, texts_answer};
use crate_graph_values::Env;
use live_config::LiveConfig;
use pm_cargo_config::{CargoConfig, CargoFeatures};
use serde_json::Value;
use std::alloc::Global;

/// What options set.
pub fn config_answer(alloc: Global, config: &LiveConfig) -> Result<Value, Fault> {
    Object::new(alloc)
        .member("cargo", cargo_answer(alloc, &config.cargo))
        .member("process_env", process_answer(alloc, &config.process_env))
        .member("tools", tools_answer(alloc, &config.tools))
        .member("limits", limits_answer(alloc, config.limits))
        .answer()
}

fn cargo_answer(alloc: Global, cargo: &CargoConfig) -> Result<Value, Fault> {
    let target = cargo.target.as_ref().map(|target| target.as_str());
    Object::new(alloc)
        .member("features", features_answer(alloc, &cargo.features))
        .optional("target", target)
        .member(
            "includes",
            paths_answer(alloc, cargo.extra_includes.as_slice()),
        )
        .member("env", extra_answer(alloc, cargo))
        .flag("no_deps", cargo.no_deps)
        .answer()
}

fn features_answer(alloc: Global, features: &CargoFeatures) -> Result<Value, Fault> {
    match features {
        CargoFeatures::All => text_answer(alloc, "all"),
        CargoFeatures::Selected {
            features,
            no_default_features,
        } => Object::new(alloc)
            .member("names", texts_answer(alloc, features.as_slice()))
            .flag("no_default", *no_default_features)
            .answer(),
    }
}

// The variables of commands, with null for one that is removed.
fn extra_answer(alloc: Global, cargo: &CargoConfig) -> Result<Value, Fault> {
    let mut pairs = List::new(alloc);
    for (name, value) in cargo.extra_env.as_map() {
        let value = value.as_ref().map(|value| value.as_str());
        pairs = pairs.item(pair_answer(alloc, name.as_str(), value));
    }
    pairs.answer()
}

fn process_answer(alloc: Global, env: &Env) -> Result<Value, Fault> {
    let mut pairs = List::new(alloc);
    for (name, value) in env.iter() {
        pairs = pairs.item(pair_answer(alloc, name, Some(value)));
    }
    pairs.answer()
}

fn pair_answer(alloc: Global, name: &str, value: Option<&str>) -> Result<Value, Fault> {
    List::new(alloc).text(name).optional(value).answer()
}

fn tools_answer(alloc: Global, tools: &Tools) -> Result<Value, Fault> {
    List::new(alloc)
        .text(tools.cargo.as_str())
        .text(tools.rustc.as_str())
        .text(tools.rustup.as_str())
        .text(tools.myself.as_str())
        .answer()
}

fn limits_answer(alloc: Global, limits: Limits) -> Result<Value, Fault> {
    List::new(alloc)
        .number(limits.bytes)
        .number(limits.paths as u64)
        .number(limits.packages as u64)
        .number(limits.targets as u64)
        .number(limits.crates as u64)
        .answer()
}
