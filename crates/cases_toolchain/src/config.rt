//! What is configured, and what versions allow.

use base_text::{ByText, CfgAtom, CfgDiff, CfgOptions, Items, Text, TryClone, Version, parse_cfg};
use cases::{
    Case, Fault, atoms_answer, features_of, is_copied, optional_answer, optional_path,
    optional_version, texts, variables, version_of,
};
use pm_cargo_config::{
    CargoConfig, CargoFeatures, CargoMetadataConfig, CfgOverrides, InvocationStrategy,
    LockfileUsage, TargetDirectoryConfig, lockfile_usage, needs_json_flag,
};
use serde_json::Value;
use std::alloc::Global;

/// What a call on a configuration gives.
pub fn answer(alloc: Global, case: Case<'_>) -> Result<Value, Fault> {
    match case.text("call") {
        "lockfile_usage" => usage(alloc, case.text("version")),
        "needs_json_flag" => needs_flag(alloc, case.text("target"), case.text("version")),
        "TargetDirectoryConfig::target_dir" => target_dir(alloc, case),
        "CfgOverrides::len" => Ok(Value::from(overrides_of(alloc, case)?.len() as u64)),
        "CfgOverrides::apply" => apply(alloc, case),
        "new" => is_default(alloc),
        _ => Err(Fault::Call),
    }
}

fn usage(alloc: Global, version: &str) -> Result<Value, Fault> {
    let version = version_of(alloc, version)?;
    optional_answer(alloc, usage_name(&version))
}

fn usage_name(version: &Version) -> Option<&'static str> {
    match lockfile_usage(version) {
        Some(LockfileUsage::WithFlag) => Some("WithFlag"),
        Some(LockfileUsage::WithEnvVarUnstable) => Some("WithEnvVarUnstable"),
        Some(LockfileUsage::WithEnvVar) => Some("WithEnvVar"),
        None => None,
    }
}

fn needs_flag(alloc: Global, target: &str, version: &str) -> Result<Value, Fault> {
    let version = version_of(alloc, version)?;
    Ok(Value::from(needs_json_flag(target, Some(&version))))
}

fn target_dir(alloc: Global, case: Case<'_>) -> Result<Value, Fault> {
    let config = match case.text("config") {
        "None" => TargetDirectoryConfig::default(),
        "UseSubdirectory" => TargetDirectoryConfig::UseSubdirectory,
        dir => TargetDirectoryConfig::Directory(Text::of_str(alloc, dir)?),
    };
    dir_of_copy(alloc, &config, case.optional_text("dir"))
}

fn dir_of_copy(
    alloc: Global,
    config: &TargetDirectoryConfig,
    dir: Option<&str>,
) -> Result<Value, Fault> {
    let copy = config.try_clone(alloc)?;
    let dir = copy.target_dir(alloc, dir)?;
    optional_answer(alloc, dir.as_ref().map(Text::as_str))
}

// The atoms after a copy of the overrides of a case, as they are written.
fn apply(alloc: Global, case: Case<'_>) -> Result<Value, Fault> {
    let overrides = overrides_of(alloc, case)?.try_clone(alloc)?;
    let mut options = CfgOptions::new(alloc);
    for atom in case.list("options") {
        options.insert_atom(atom_named(alloc, case.with(atom).as_text())?)?;
    }
    overrides.apply(&mut options, case.text("name"))?;
    atoms_answer(alloc, options.as_slice())
}

// The overrides of a case: the atoms to change of all crates, and of those of a name.
fn overrides_of(alloc: Global, case: Case<'_>) -> Result<CfgOverrides, Fault> {
    let mut selective = ByText::empty(alloc);
    for entry in case.list("selective") {
        insert_diff(alloc, &mut selective, case.with(entry))?;
    }
    let global = match case.find("global") {
        Some(atoms) => diff_of(alloc, case.with(atoms))?,
        None => CfgDiff::new(Vec::new(alloc), Vec::new(alloc)),
    };
    Ok(CfgOverrides { global, selective })
}

// Puts the change of a name in.
fn insert_diff(alloc: Global, diffs: &mut ByText<CfgDiff>, entry: Case<'_>) -> Result<(), Fault> {
    let name = String::from_str(alloc, entry.text_at(0))?;
    drop(diffs.insert(name, diff_of(alloc, entry.at(1))?)?);
    Ok(())
}

// A change: an atom behind `!` is disabled, another is enabled.
fn diff_of(alloc: Global, atoms: Case<'_>) -> Result<CfgDiff, Fault> {
    let mut enable = Vec::new(alloc);
    let mut disable = Vec::new(alloc);
    for atom in atoms.items() {
        let atom = atoms.with(atom).as_text();
        push_atom(alloc, &mut enable, &mut disable, atom)?;
    }
    Ok(CfgDiff::new(enable, disable))
}

fn push_atom(
    alloc: Global,
    enable: &mut Vec<CfgAtom>,
    disable: &mut Vec<CfgAtom>,
    atom: &str,
) -> Result<(), Fault> {
    match atom.strip_prefix('!') {
        Some(name) => disable.push(atom_named(alloc, name)?)?,
        None => enable.push(atom_named(alloc, atom)?)?,
    }
    Ok(())
}

fn atom_named(alloc: Global, name: &str) -> Result<CfgAtom, Fault> {
    match parse_cfg(alloc, name) {
        Ok(atom) => Ok(atom),
        Err(_) => Err(Fault::Member("atoms")),
    }
}

// Whether nothing is configured at first, and copies are equal.
fn is_default(alloc: Global) -> Result<Value, Fault> {
    let config = Box::new(alloc, CargoConfig::new(alloc))?;
    let metadata = Box::new(alloc, CargoMetadataConfig::new(alloc))?;
    let is_default = is_nothing_configured(&config)
        && has_no_features(alloc, &config.features)
        && has_no_features(alloc, &metadata.features);
    let is_copied = is_copied(alloc, &*config)? && is_copied(alloc, &*metadata)?;
    Ok(Value::from(is_default && is_copied))
}

fn is_nothing_configured(config: &CargoConfig) -> bool {
    config.cfg_overrides.len() == 0
        && config.invocation_strategy == InvocationStrategy::default()
        && config.extra_args.is_empty()
        && config.config_path.is_none()
}

fn has_no_features(alloc: Global, features: &CargoFeatures) -> bool {
    let none = CargoFeatures::Selected {
        features: Items::empty(alloc),
        no_default_features: false,
    };
    *features == none
}

/// The configuration of a metadata question.
pub fn metadata_config(alloc: Global, case: Case<'_>) -> Result<Box<CargoMetadataConfig>, Fault> {
    let mut config = Box::new(alloc, CargoMetadataConfig::new(alloc))?;
    set_words(alloc, case, &mut config)?;
    set_rest(alloc, case, &mut config)?;
    Ok(config)
}

// Sets what a metadata question depends on besides its words.
fn set_rest(alloc: Global, case: Case<'_>, config: &mut CargoMetadataConfig) -> Result<(), Fault> {
    config.features = features_of(alloc, case)?;
    config.config_path = optional_path(alloc, case, "config_path")?;
    config.extra_env = variables(alloc, case, "env")?;
    config.kind = "workspace";
    config.toolchain_version = optional_version(alloc, case)?;
    Ok(())
}

// Sets the words of a metadata question.
fn set_words(alloc: Global, case: Case<'_>, config: &mut CargoMetadataConfig) -> Result<(), Fault> {
    config.targets = texts(alloc, case, "targets")?;
    config.extra_args = texts(alloc, case, "extra_args")?;
    config.metadata_extra_args = texts(alloc, case, "metadata_extra_args")?;
    Ok(())
}
