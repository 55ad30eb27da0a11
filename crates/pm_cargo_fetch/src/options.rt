//! The options that metadata questions end with.

ghost use Rattle.std.specs.Prelude.{◌≡◌, ◌++◌, IfOk, OnOk};
ghost use Rattle.std.specs.List.{list_any};
ghost use Rattle.pm_cargo_config.specs.Versions.{needs_json_flag};
ghost use Rattle.pm_cargo_fetch.specs.Options.{full_options, has_unstable, is_unstable_option, options_of, filter_words, unstable_pairs};

use crate::words::push_path;
use base_text::{Items, ManifestPath, Text, TryClone, Version};
use base_text_outside::command_words::{push_flag, push_word, push_words};
use pm_cargo_config::{CargoMetadataConfig, needs_json_flag};
use std::alloc::{AllocError, Global};

/// The options of a metadata question: what `cargo metadata` takes of the words that are configured, and
/// what the manifest, the platforms and the version ask for.
pub fn metadata_options(
    alloc: Global,
    cargo_toml: &ManifestPath,
    config: &CargoMetadataConfig,
) -> Result<Items<Text>, AllocError>
    ensures { IfOk result (λ options. options ≡ options_of cargo_toml.now config.now) }
{
    let targets = config.targets.as_slice();
    let mut options = Vec::new(alloc);
    push_unstable_pairs(alloc, &mut options, config.extra_args.as_slice())?;
    push_words(alloc, &mut options, config.metadata_extra_args.as_slice())?;
    push_path(alloc, &mut options, "--config", &config.config_path)?;
    push_flag(
        alloc,
        &mut options,
        cargo_toml.is_rust_manifest(),
        "-Zscript",
    )?;
    push_platforms(alloc, &mut options, targets)?;
    let needs_json = needs_json(targets, &config.toolchain_version);
    push_flag(alloc, &mut options, needs_json, "-Zjson-target-spec")?;
    Ok(Items::new(options))
}

/// The options of the full question: unstable ones are allowed.
pub(crate) fn with_unstable(alloc: Global, options: &Items<Text>) -> Result<Items<Text>, AllocError>
    ensures { IfOk result (λ full. full ≡ full_options options.now) }
{
    let has_unstable = has_unstable(options.as_slice());
    let mut full = options.try_clone(alloc)?.into_inner();
    push_flag(alloc, &mut full, has_unstable, "-Zunstable-options")?;
    Ok(Items::new(full))
}

/// Whether one of the options is unstable.
pub(crate) fn has_unstable(options: &[Text]) -> bool
    ensures { result ≡ has_unstable options.now }
{
    options.iter().any(|option| is_unstable(option.as_str()))
}

// Whether the option is unstable.
fn is_unstable(option: &str) -> bool
    ensures { result ≡ is_unstable_option option.now }
{
    option.starts_with("-Z")
}

// Puts each `-Z` among the words, with the word behind it, behind the options.
#[tactic(auto, unfolding(crate::specs::Options::unstable_pairs))]
fn push_unstable_pairs(
    alloc: Global,
    options: &mut Vec<Text>,
    words: &[Text],
) -> Result<(), AllocError>
    ensures { OnOk result (options.new.items ≡ options.old.items ++ unstable_pairs words.now) }
{
    let mut left = words;
    while let [word, option, rest @ ..] = left {
        if word.as_str() == "-Z" {
            push_word(alloc, options, word.as_str())?;
            push_word(alloc, options, option.as_str())?;
            left = rest;
        } else {
            left = &left[1..];
        }
    }
    Ok(())
}

// Puts each platform behind the options, as one that dependencies are wanted for.
fn push_platforms(
    alloc: Global,
    options: &mut Vec<Text>,
    targets: &[Text],
) -> Result<(), AllocError>
    ensures { OnOk result (options.new.items ≡ options.old.items ++ filter_words targets.now) }
{
    for target in targets {
        push_word(alloc, options, "--filter-platform")?;
        push_word(alloc, options, target.as_str())?;
    }
    Ok(())
}

// Whether one of the platforms needs the option for platforms that JSON files describe.
fn needs_json(targets: &[Text], version: &Option<Version>) -> bool
    ensures { result ≡ list_any (needs_json_flag version.now) targets.now }
{
    targets.iter().any(|target| needs_json_flag(target.as_str(), version.as_ref()))
}
