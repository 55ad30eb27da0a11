//! The words of a command, one after another, each where it is set.

ghost use Rattle.std.specs.Prelude.{◌≡◌, ◌∷◌, [], ◌++◌, IfOk, OnOk, codes, string_bytes, unwrap_or};
ghost use Rattle.base_values.specs.ByText.{HasAscendingKeys};
ghost use Rattle.cargo_meta.specs.Command as spec;
ghost use Rattle.cargo_meta.specs.Command.{feature_words};

use base_text_outside::command_words::push_word;
use base_values::{ByText, Items, Text, TryClone};
use std::alloc::{AllocError, Global};

/// A copy of the text, or of another where there is none.
pub(crate) fn text_or(alloc: Global, text: &Option<Text>, other: &str) -> Result<Text, AllocError>
    ensures { IfOk result (λ copy. copy ≡ unwrap_or text.now other.now) }
{
    match text {
        Some(text) => text.try_clone(alloc),
        None => Text::of_str(alloc, other),
    }
}

/// The words that each command begins with.
pub(crate) fn first_words(alloc: Global) -> Result<Vec<Text>, AllocError>
    ensures { IfOk result (λ words. words.items
        ≡ codes "metadata" ∷ codes "--format-version" ∷ codes "1" ∷ []) }
{
    let mut words = Vec::new(alloc);
    push_word(alloc, &mut words, "metadata")?;
    push_word(alloc, &mut words, "--format-version")?;
    push_word(alloc, &mut words, "1")?;
    Ok(words)
}

/// Puts the features behind the others, joined by commas, where some are named.
pub(crate) fn push_features(
    alloc: Global,
    words: &mut Vec<Text>,
    features: &[Text],
) -> Result<(), AllocError>
    ensures { OnOk result (words.new.items ≡ words.old.items ++ feature_words features.now) }
{
    if features.is_empty() {
        return Ok(());
    }
    let names = join_texts(alloc, features, ",")?;
    push_word(alloc, words, "--features")?;
    push_word(alloc, words, names.as_str())
}

/// The texts, with one between each two.
pub(crate) fn join_texts(alloc: Global, texts: &[Text], between: &str) -> Result<String, AllocError>
    ensures { IfOk result (λ whole. string_bytes whole ≡ spec.joined_text between.now texts.now) }
{
    let pieces: Vec<&str> = texts.iter().map(|text| text.as_str()).collect(alloc)?;
    pieces.join(alloc, between)
}

/// The variables by ascending key.
pub(crate) fn variables(
    alloc: Global,
    env: &ByText<Option<Text>>,
) -> Result<Items<(Text, Option<Text>)>, AllocError>
    ensures variables { IfOk result (λ variables. variables ≡ env.now) }
    ensures ascending { OnOk result (HasAscendingKeys env.now) }
{
    let mut variables = Vec::with_capacity(alloc, env.len())?;
    for (name, value) in env.as_map().iter() {
        let name = Text::of_str(alloc, name.as_str())?;
        let value = value.try_clone(alloc)?;
        variables.push((name, value))?;
    }
    Ok(Items::new(variables))
}
