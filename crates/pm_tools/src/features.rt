//! The features that a build enables.

ghost use Rattle.std.specs.Prelude.{◌≡◌, ◌++◌, IfOk, OnOk, codes, filter, string_bytes};
ghost use Rattle.cargo_meta.specs.Command.{joined_text};
ghost use Rattle.pm_cargo.specs.Queries.{is_feature};
ghost use Rattle.pm_tools.specs.Words.{build_feature_words, selected_words};

use base_text::Text;
use base_text_outside::command_words::{push_flag, push_word};
use pm_cargo::CargoWorkspace;
use pm_cargo_config::CargoFeatures;
use std::alloc::{AllocError, Global};

// Those of the features that the workspace has, joined by commas.
fn known_features(
    alloc: Global,
    features: &[Text],
    workspace: &CargoWorkspace,
) -> Result<String, AllocError>
    ensures { IfOk result (λ names. string_bytes names
        ≡ joined_text (codes ",") (filter (is_feature workspace.now) features.now)) }
{
    let known = workspace.workspace_features(alloc)?;
    let mut names = Vec::new(alloc);
    for feature in features {
        if known.contains(feature.as_str()) {
            names.push(feature.as_str())?;
        }
    }
    names.join(alloc, ",")
}

// Puts the features that are selected behind the others, where some are.
fn push_selected(
    alloc: Global,
    words: &mut Vec<Text>,
    features: &[Text],
    workspace: &CargoWorkspace,
) -> Result<(), AllocError>
    ensures { OnOk result (words.new.items
        ≡ words.old.items ++ selected_words workspace.now features.now) }
{
    if features.is_empty() {
        return Ok(());
    }
    let names = known_features(alloc, features, workspace)?;
    push_word(alloc, words, "--features")?;
    push_word(alloc, words, names.as_str())
}

/// Puts the features that are enabled behind the other words.
pub(crate) fn push_features(
    alloc: Global,
    words: &mut Vec<Text>,
    features: &CargoFeatures,
    workspace: &CargoWorkspace,
) -> Result<(), AllocError>
    ensures { OnOk result (words.new.items
        ≡ words.old.items ++ build_feature_words workspace.now features.now) }
{
    match features {
        CargoFeatures::All => push_word(alloc, words, "--all-features"),
        CargoFeatures::Selected {
            features,
            no_default_features,
        } => {
            push_flag(alloc, words, *no_default_features, "--no-default-features")?;
            push_selected(alloc, words, features.as_slice(), workspace)
        }
    }
}
