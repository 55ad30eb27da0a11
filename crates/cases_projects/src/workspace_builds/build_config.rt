//! What is configured of a build.

use base_text::{Items, Text};
use cases::{Case, Fault, features_of, optional_path, optional_text, texts, variables};
use pm_cargo_config::{CargoConfig, TargetDirectoryConfig};
use std::alloc::Global;

/// The configuration of a case. What the case leaves out is not configured.
pub fn config_of(alloc: Global, case: Case<'_>) -> Result<Box<CargoConfig>, Fault> {
    let mut config = Box::new(alloc, CargoConfig::new(alloc))?;
    config.all_targets = case.flag("all_targets");
    config.wrap_rustc_in_build_scripts = case.flag("wrap");
    set_words(alloc, case, &mut config)?;
    set_places(alloc, case, &mut config)?;
    Ok(config)
}

fn set_words(alloc: Global, case: Case<'_>, config: &mut CargoConfig) -> Result<(), Fault> {
    config.extra_args = texts(alloc, case, "extra_args")?;
    config.metadata_extra_args = texts(alloc, case, "metadata_extra_args")?;
    config.features = features_of(alloc, case)?;
    config.run_build_script_command = command_of(alloc, case)?;
    Ok(())
}

fn set_places(alloc: Global, case: Case<'_>, config: &mut CargoConfig) -> Result<(), Fault> {
    config.target = optional_text(alloc, case, "target")?;
    config.config_path = optional_path(alloc, case, "config_path")?;
    config.extra_env = variables(alloc, case, "extra")?;
    config.target_dir_config = match case.optional_text("target_dir") {
        None => TargetDirectoryConfig::None,
        Some("UseSubdirectory") => TargetDirectoryConfig::UseSubdirectory,
        Some(dir) => TargetDirectoryConfig::Directory(Text::of_str(alloc, dir)?),
    };
    Ok(())
}

/// The configured command of a case, which may have no words.
pub fn command_of(alloc: Global, case: Case<'_>) -> Result<Option<Items<Text>>, Fault> {
    if case.find("command").is_none() {
        return Ok(None);
    }
    Ok(Some(texts(alloc, case, "command")?))
}
