//! The environment that a configuration gives.

ghost use Rattle.std.specs.Prelude.{◌≡◌, IfOk, OnOk, option_copied, string_bytes, unwrap_or};
ghost use Rattle.std.specs.Option.{option_map};
ghost use Rattle.toml.specs.Data.{as_table, get};
ghost use Rattle.toml.specs.View.{table_view, view};
ghost use Rattle.pm_tools_ask.specs.Ask.{means_of};
ghost use Rattle.pm_tools_ask.specs.ConfigEnv.{config_env, entry_value, given_env, given_value, has_flag};
ghost use Rattle.pm_tools_ask.specs.ConfigEnv.{env_table, stated_value, value_before, variable_value, with_entries};

use crate::ask::Ask;
use crate::cargo_config_file::CargoConfigFile;
use crate::relative_roots::{relative_roots, root_of};
use base_text::{AbsPathBuf, ByText, Runner, Text, Tree, TryClone};
use crate_graph_values::Env;
use std::alloc::{AllocError, Global};
use toml::{Table, Value};

/// The environment of a configuration: the variables that `ask` gives a value first, and then those of
/// the table `env`. One of these that is not forced has the value that is given for it, or else that of
/// the process. Where its flag `relative` is true, its own value is a path below the directory that the
/// flag comes from.
#[tactic(auto, unfolding(crate::specs::ConfigEnv::env_entries, crate::specs::ConfigEnv::with_entries))]
pub fn cargo_config_env<R: Runner, T: Tree>(
    alloc: Global,
    config: Option<&CargoConfigFile>,
    ask: &Ask<'_, R, T>,
) -> Result<Env, AllocError>
    ensures { IfOk result (λ env. env
        ≡ config_env (option_copied config.entry) (means_of R.answers T.files ask.now)) }
{
    let mut env = given_env(alloc, ask.extra_env)?;
    let Some(config) = config else {
        return Ok(env);
    };
    let Some(document) = config.read(alloc)? else {
        return Ok(env);
    };
    let document = Value::Table(document);
    let Some(entries) = env_table(&document) else {
        return Ok(env);
    };
    set_entries(alloc, &mut env, config.as_str(), entries, ask)?;
    Ok(env)
}

// The environment of those given variables that have a value.
fn given_env(alloc: Global, given: &ByText<Option<Text>>) -> Result<Env, AllocError>
    ensures { IfOk result (λ env. env ≡ given_env given.now) }
{
    let mut env = Env::new(alloc);
    for (name, value) in given.as_map() {
        if let Some(value) = value {
            env.set(name.clone()?, value.try_clone(alloc)?.into_inner())?;
        }
    }
    Ok(env)
}

// The table `env` of a document.
fn env_table(document: &Value) -> Option<&Table>
    ensures { option_map (λ t. table_view t.now) result ≡ env_table (view document.now) }
{
    document.get("env")?.as_table()
}

// Sets the variables of the entries of a table.
fn set_entries<R: Runner, T: Tree>(
    alloc: Global,
    env: &mut Env,
    text: &str,
    entries: &Table,
    ask: &Ask<'_, R, T>,
) -> Result<(), AllocError>
    ensures { OnOk result (env.new ≡ with_entries text.now (means_of R.answers T.files ask.now)
        env.old (table_view entries.now)) }
{
    let roots = relative_roots(alloc, text)?;
    for (name, entry) in entries.iter() {
        let root = root_of(&roots, name.as_str());
        if let Some(value) = variable_value(alloc, name.as_str(), entry, root, ask)? {
            env.set(name.clone()?, value)?;
        }
    }
    Ok(())
}

// The value that the variable of an entry gets, where the entry states one.
fn variable_value<R: Runner, T: Tree>(
    alloc: Global,
    name: &str,
    entry: &Value,
    root: Option<&AbsPathBuf>,
    ask: &Ask<'_, R, T>,
) -> Result<Option<String>, AllocError>
    ensures { IfOk result (λ value. option_map string_bytes value
        ≡ variable_value (means_of R.answers T.files ask.now) name.now (view entry.now)
        (option_copied root.entry)) }
{
    let Some(stated) = stated_value(entry) else {
        return Ok(None);
    };
    match value_before(name, entry, ask) {
        Some(value) => Ok(Some(String::from_str(alloc, value)?)),
        None => Ok(Some(entry_value(alloc, root, entry, stated)?)),
    }
}

// The value that comes before that of an entry.
fn value_before<'a, R: Runner, T: Tree>(
    name: &str,
    entry: &Value,
    ask: &Ask<'a, R, T>,
) -> Option<&'a str>
    ensures { option_copied result
        ≡ value_before (means_of R.answers T.files ask.now) name.now (view entry.now) }
{
    if has_flag(entry, "force") {
        return None;
    }
    match given_value(name, ask.extra_env) {
        Some(value) => Some(value),
        None => ask.process_env.get(name),
    }
}

// The value that is given for a variable.
fn given_value<'a>(name: &str, given: &'a ByText<Option<Text>>) -> Option<&'a str>
    ensures { option_copied result ≡ given_value name.now given.now }
{
    match given.get(name) {
        Some(Some(value)) => Some(value.as_str()),
        _ => None,
    }
}

// The value that an entry states.
fn stated_value(entry: &Value) -> Option<&str>
    ensures { option_copied result ≡ stated_value (view entry.now) }
{
    match entry {
        Value::String(text) => Some(text.as_str()),
        _ => entry.get("value")?.as_str(),
    }
}

// The value of an entry, below the directory that its flag `relative` comes from.
fn entry_value(
    alloc: Global,
    root: Option<&AbsPathBuf>,
    entry: &Value,
    stated: &str,
) -> Result<String, AllocError>
    ensures { IfOk result (λ value. string_bytes value
        ≡ entry_value (option_copied root.entry) (view entry.now) stated.now) }
{
    match root {
        Some(root) if has_flag(entry, "relative") => {
            let path = root.as_path().join(alloc, stated)?;
            String::from_str(alloc, path.as_str())
        }
        _ => String::from_str(alloc, stated),
    }
}

// Whether a flag of an entry is true.
fn has_flag(entry: &Value, flag: &str) -> bool
    ensures { result ≡ has_flag flag.now (view entry.now) }
{
    match entry.get(flag) {
        Some(value) => value.as_bool().unwrap_or(false),
        None => false,
    }
}
