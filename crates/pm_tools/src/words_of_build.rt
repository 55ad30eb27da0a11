//! The words that `cargo` builds a workspace by.

ghost use Rattle.std.specs.Prelude.{◌≡◌, ◌++◌, IfOk, OnOk, option_copied};
ghost use Rattle.pm_tools.specs.Words.{build_words, coverage_words, first_words, is_unstable, place_words, platform_words, takes_compile_time_deps};

use crate::features::push_features;
use base_text::{ManifestPath, Text, Version};
use base_text_outside::command_words::{push_flag, push_option, push_word, push_words};
use pm_cargo::CargoWorkspace;
use pm_cargo_config::{CargoConfig, is_at_least, needs_json_flag};
use pm_cargo_fetch::words::push_path;
use pm_tools_ask::words_of;
use std::alloc::{AllocError, Global};

/// Whether a build can be limited to what is needed at compile time.
#[tactic(auto, unfolding(crate::specs::Words::takes_compile_time_deps))]
pub(crate) fn takes_compile_time_deps(version: Option<&Version>) -> bool
    ensures { result ≡ takes_compile_time_deps (option_copied version.entry) }
{
    match version {
        Some(version) => is_at_least(version, 1, 89, 0),
        None => false,
    }
}

/// Whether a build uses unstable options.
pub(crate) fn is_unstable(manifest: &ManifestPath, version: Option<&Version>) -> bool
    ensures { result ≡ is_unstable manifest.now (option_copied version.entry) }
{
    manifest.is_rust_manifest() || takes_compile_time_deps(version)
}

// The words that each build begins with.
fn first_words(alloc: Global) -> Result<Vec<Text>, AllocError>
    ensures { IfOk result (λ words. words.items ≡ first_words) }
{
    words_of(
        alloc,
        &["check", "--quiet", "--workspace", "--message-format=json"],
    )
}

// Puts the configuration file, the manifest and the directory that is written into behind the others.
fn push_places(
    alloc: Global,
    words: &mut Vec<Text>,
    config: &CargoConfig,
    workspace: &CargoWorkspace,
) -> Result<(), AllocError>
    ensures { OnOk result (words.new.items
        ≡ words.old.items ++ place_words config.now workspace.now) }
{
    push_path(alloc, words, "--config", &config.config_path)?;
    push_word(alloc, words, "--manifest-path")?;
    push_word(alloc, words, workspace.manifest_path().as_path().as_str())?;
    let directory = config
        .target_dir_config
        .target_dir(alloc, Some(workspace.target_directory().as_str()))?;
    push_option(alloc, words, "--target-dir", &directory)
}

// Puts the platform behind the others, where one is set.
fn push_platform(
    alloc: Global,
    words: &mut Vec<Text>,
    target: &Option<Text>,
    version: Option<&Version>,
) -> Result<(), AllocError>
    ensures { OnOk result (words.new.items
        ≡ words.old.items ++ platform_words (option_copied version.entry) target.now) }
{
    let Some(target) = target else {
        return Ok(());
    };
    push_word(alloc, words, "--target")?;
    push_word(alloc, words, target.as_str())?;
    let needs_json = needs_json_flag(target.as_str(), version);
    push_flag(alloc, words, needs_json, "-Zjson-target-spec")
}

// Puts which kinds of targets are built behind the others.
fn push_coverage(
    alloc: Global,
    words: &mut Vec<Text>,
    all_targets: bool,
    version: Option<&Version>,
) -> Result<(), AllocError>
    ensures { OnOk result (words.new.items
        ≡ words.old.items ++ coverage_words all_targets (option_copied version.entry)) }
{
    if takes_compile_time_deps(version) {
        push_word(alloc, words, "--compile-time-deps")?;
        push_word(alloc, words, "--all-targets")
    } else {
        push_flag(alloc, words, all_targets, "--all-targets")
    }
}

/// The words of a build.
#[tactic(auto, unfolding(crate::specs::Words::build_words))]
pub(crate) fn build_words(
    alloc: Global,
    config: &CargoConfig,
    workspace: &CargoWorkspace,
    version: Option<&Version>,
) -> Result<Vec<Text>, AllocError>
    ensures { IfOk result (λ words. words.items
        ≡ build_words config.now workspace.now (option_copied version.entry)) }
{
    let manifest = workspace.manifest_path();
    let mut words = first_words(alloc)?;
    push_words(alloc, &mut words, config.extra_args.as_slice())?;
    push_places(alloc, &mut words, config, workspace)?;
    push_platform(alloc, &mut words, &config.target, version)?;
    push_features(alloc, &mut words, &config.features, workspace)?;
    push_flag(alloc, &mut words, manifest.is_rust_manifest(), "-Zscript")?;
    push_word(alloc, &mut words, "--keep-going")?;
    push_coverage(alloc, &mut words, config.all_targets, version)?;
    let is_unstable = is_unstable(manifest, version);
    push_flag(alloc, &mut words, is_unstable, "-Zunstable-options")?;
    Ok(words)
}
