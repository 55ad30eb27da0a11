//! The words of questions.

ghost use Rattle.std.specs.Prelude.{◌≡◌, ◌++◌, IfOk, OnOk, false, option_copied};
ghost use Rattle.std.specs.Option.{option_map_or};
ghost use Rattle.pm_cargo_config.specs.Versions as versions;
ghost use Rattle.pm_tools_info.specs.Questions as spec;
ghost use Rattle.pm_tools_info.specs.Questions.{target_words};

use base_text::{Text, Version};
use base_text_outside::command_words::{push_flag, push_word};
use pm_cargo_config::needs_json_flag;
use pm_tools_ask::words_of;
use std::alloc::{AllocError, Global};

/// The words that ask `cargo` for the atoms of a platform.
pub(crate) fn cargo_cfg_words(alloc: Global, target: Option<&str>) -> Result<Vec<Text>, AllocError>
    ensures { IfOk result (λ words. words.items ≡ spec.cargo_cfg_words (option_copied target.entry)) }
{
    let mut words = words_of(
        alloc,
        &["rustc", "-Z", "unstable-options", "--print", "cfg"],
    )?;
    push_target(alloc, &mut words, target)?;
    push_word(alloc, &mut words, "--")?;
    push_word(alloc, &mut words, "-O")?;
    Ok(words)
}

/// The words that ask the compiler for them.
pub(crate) fn rustc_cfg_words(alloc: Global, target: Option<&str>) -> Result<Vec<Text>, AllocError>
    ensures { IfOk result (λ words. words.items ≡ spec.rustc_cfg_words (option_copied target.entry)) }
{
    let mut words = words_of(alloc, &["--print", "cfg", "-O"])?;
    push_target(alloc, &mut words, target)?;
    Ok(words)
}

/// The words that ask `cargo` for the specification of a platform.
pub(crate) fn cargo_spec_words(
    alloc: Global,
    target: Option<&str>,
    version: Option<&Version>,
) -> Result<Vec<Text>, AllocError>
    ensures { IfOk result (λ words. words.items
        ≡ spec.cargo_spec_words (option_copied target.entry) (option_copied version.entry)) }
{
    let mut words = words_of(
        alloc,
        &[
            "rustc",
            "-Z",
            "unstable-options",
            "--print",
            "target-spec-json",
        ],
    )?;
    push_target(alloc, &mut words, target)?;
    push_flag(
        alloc,
        &mut words,
        needs_json(target, version),
        "-Zjson-target-spec",
    )?;
    push_word(alloc, &mut words, "--")?;
    push_word(alloc, &mut words, "-Z")?;
    push_word(alloc, &mut words, "unstable-options")?;
    Ok(words)
}

/// The words that ask the compiler for it.
pub(crate) fn rustc_spec_words(alloc: Global, target: Option<&str>) -> Result<Vec<Text>, AllocError>
    ensures { IfOk result (λ words. words.items ≡ spec.rustc_spec_words (option_copied target.entry)) }
{
    let mut words = words_of(
        alloc,
        &["-Z", "unstable-options", "--print", "target-spec-json"],
    )?;
    push_target(alloc, &mut words, target)?;
    Ok(words)
}

// Puts the words for a platform after the others, where one is given.
fn push_target(alloc: Global, words: &mut Vec<Text>, target: Option<&str>) -> Result<(), AllocError>
    ensures { OnOk result (words.new.items ≡ words.old.items ++ target_words (option_copied target.entry)) }
{
    match target {
        Some(target) => {
            push_word(alloc, words, "--target")?;
            push_word(alloc, words, target)
        }
        None => Ok(()),
    }
}

// Whether the platform, where one is given, needs the option for platforms that JSON files describe.
fn needs_json(target: Option<&str>, version: Option<&Version>) -> bool
    ensures { result ≡ option_map_or (versions.needs_json_flag (option_copied version.entry))
        (option_copied target.entry) false }
{
    match target {
        Some(target) => needs_json_flag(target, version),
        None => false,
    }
}
