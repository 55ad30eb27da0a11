//! The question by which `cargo` prints its configuration.

ghost use Rattle.std.specs.Prelude.{◌≡◌, ◌++◌, codes, IfOk, OnOk};
ghost use Rattle.std.specs.Option.{option_map};
ghost use Rattle.base_text_paths.specs.AbsPath.{abs_text};
ghost use Rattle.base_text_outside.specs.CommandWords.{flag_word, option_words};
ghost use Rattle.base_text_paths.specs.ManifestPath.{is_rust_manifest};
ghost use Rattle.pm_tools_ask.specs.Ask.{means_of};
ghost use Rattle.pm_tools_ask.specs.ConfigQuestion.{config_question, config_words};

use crate::ask::Ask;
use crate::question::words_of;
use crate::sysroot::Sysroot;
use base_text::{AbsPath, CommandLine, ManifestPath, Runner, Text, Tool, Tree};
use pm_cargo_config::set_variable;
use std::alloc::{AllocError, Global};

/// The question for the configuration that holds where a manifest lies, with one that is given by its
/// path. It is asked by a command that is not stable, which the variable `RUSTC_BOOTSTRAP` allows.
pub fn config_question<R: Runner, T: Tree>(
    alloc: Global,
    manifest: &ManifestPath,
    sysroot: &Sysroot,
    config_path: Option<AbsPath<'_>>,
    ask: &Ask<'_, R, T>,
) -> Result<CommandLine, AllocError>
    ensures { IfOk result (λ line. line ≡ config_question manifest.now sysroot.now
        (option_map abs_text config_path.entry) (means_of R.answers T.files ask.now)) }
{
    let words = config_words(alloc, manifest, config_path)?;
    let line = sysroot.question(alloc, Tool::Cargo, manifest.parent().as_str(), words, ask)?;
    set_variable(alloc, line, "RUSTC_BOOTSTRAP", "1")
}

// The words of the question.
fn config_words(
    alloc: Global,
    manifest: &ManifestPath,
    config_path: Option<AbsPath<'_>>,
) -> Result<Vec<Text>, AllocError>
    ensures { IfOk result (λ words. words.items
        ≡ config_words manifest.now (option_map abs_text config_path.entry)) }
{
    let mut words = words_of(
        alloc,
        &[
            "-Z",
            "unstable-options",
            "config",
            "get",
            "--format",
            "toml",
            "--show-origin",
        ],
    )?;
    push_config(alloc, &mut words, config_path)?;
    push_script(alloc, &mut words, manifest)?;
    Ok(words)
}

// Gives the configuration file that is known.
fn push_config(
    alloc: Global,
    words: &mut Vec<Text>,
    config_path: Option<AbsPath<'_>>,
) -> Result<(), AllocError>
    ensures { OnOk result (words.new.items ≡ words.old.items
        ++ option_words (codes "--config") (option_map abs_text config_path.entry)) }
{
    if let Some(path) = config_path {
        words.push(Text::of_str(alloc, "--config")?)?;
        words.push(Text::of_str(alloc, path.as_str())?)?;
    }
    Ok(())
}

// Allows a manifest in a Rust file.
fn push_script(
    alloc: Global,
    words: &mut Vec<Text>,
    manifest: &ManifestPath,
) -> Result<(), AllocError>
    ensures { OnOk result (words.new.items ≡ words.old.items
        ++ flag_word (is_rust_manifest manifest.now) (codes "-Zscript")) }
{
    if manifest.is_rust_manifest() {
        words.push(Text::of_str(alloc, "-Zscript")?)?;
    }
    Ok(())
}
