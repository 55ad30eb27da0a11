//! Environments: what insertions find, how two of them are joined, and what is found then.

use base_text::TryClone;
use cases::{Case, Fault, List, Object, optional_answer, texts_of_pair};
use crate_graph::Env;
use serde_json::Value;
use std::alloc::Global;

/// What each insertion finds, and the pairs in order once the environment is extended by another, read from its copy.
pub fn answer(alloc: Global, case: Case<'_>) -> Result<Value, Fault> {
    let mut env = Env::new(alloc);
    let found = insert_all(alloc, &mut env, case)?;
    let other = env_of(alloc, case)?;
    env.extend_from_other(&other)?;
    Object::new(alloc)
        .member("found", Ok(found))
        .member("pairs", pairs_answer(alloc, &env))
        .flag("empty", env.is_empty())
        .flag("other", env == other)
        .answer()
}

fn insert_all(alloc: Global, env: &mut Env, case: Case<'_>) -> Result<Value, Fault> {
    let mut found = List::new(alloc);
    for pair in case.list("set") {
        found = found.item(insert(alloc, env, case.with(pair)));
    }
    found.answer()
}

// What an insertion finds. A pair with a third item is set.
fn insert(alloc: Global, env: &mut Env, pair: Case<'_>) -> Result<Value, Fault> {
    let (name, value) = texts_of_pair(alloc, pair)?;
    if pair.items().len() == 2 {
        let old = env.insert(name, value)?;
        return optional_answer(alloc, old.as_ref().map(String::as_str));
    }
    env.set(name, value)?;
    Ok(Value::Bool(true))
}

// The environment of the other pairs.
fn env_of(alloc: Global, case: Case<'_>) -> Result<Env, Fault> {
    let mut pairs = Vec::new(alloc);
    for pair in case.list("other") {
        pairs.push(texts_of_pair(alloc, case.with(pair))?)?;
    }
    let mut env = Env::new(alloc);
    env.extend(pairs)?;
    Ok(env)
}

// The pairs of a copy, each with the value that is found by its name.
fn pairs_answer(alloc: Global, env: &Env) -> Result<Value, Fault> {
    let mut pairs = List::new(alloc);
    for (name, value) in env.try_clone(alloc)?.into_vec(alloc)? {
        let pair = List::new(alloc).text(name.as_str()).text(value.as_str());
        let is_found = env.contains_key(name.as_str())
            && env.get(name.as_str()) == Some(value.as_str());
        pairs = pairs.item(pair.flag(is_found).answer());
    }
    pairs.answer()
}
