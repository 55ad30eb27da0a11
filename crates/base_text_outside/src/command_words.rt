//! Words that are put behind those of a command, each where it is set.

ghost use Rattle.std.specs.Prelude.{◌≡◌, ◌∷◌, [], ◌++◌, OnErr, OnOk};
ghost use Rattle.base_text_outside.specs.CommandWords.{flag_word, option_words};

use base_values::{Items, Text, copy_items};
use std::alloc::{AllocError, Global};

/// Puts the word behind the others.
pub fn push_word(alloc: Global, words: &mut Vec<Text>, word: &str) -> Result<(), AllocError>
    ensures ok { OnOk result (words.new.items ≡ words.old.items ++ word.now ∷ []) }
    ensures err { OnErr result (words.new.items ≡ words.old.items) }
{
    let word = Text::of_str(alloc, word)?;
    words.push(word)?;
    Ok(())
}

/// Puts copies of these words behind the others.
pub fn push_words(alloc: Global, words: &mut Vec<Text>, more: &[Text]) -> Result<(), AllocError>
    ensures ok { OnOk result (words.new.items ≡ words.old.items ++ more.now) }
    ensures err { OnErr result (words.new.items ≡ words.old.items) }
{
    let copies = copy_items(alloc, more)?;
    append(words, Items::new(copies))
}

/// Puts the word behind the others where its flag is set.
pub fn push_flag(
    alloc: Global,
    words: &mut Vec<Text>,
    is_set: bool,
    word: &str,
) -> Result<(), AllocError>
    ensures ok { OnOk result (words.new.items ≡ words.old.items ++ flag_word is_set word.now) }
    ensures err { OnErr result (words.new.items ≡ words.old.items) }
{
    if is_set {
        push_word(alloc, words, word)
    } else {
        Ok(())
    }
}

/// Puts the word and its value behind the others where that is set.
pub fn push_option(
    alloc: Global,
    words: &mut Vec<Text>,
    word: &str,
    value: &Option<Text>,
) -> Result<(), AllocError>
    ensures { OnOk result (words.new.items ≡ words.old.items ++ option_words word.now value.now) }
{
    match value {
        Some(value) => {
            push_word(alloc, words, word)?;
            push_word(alloc, words, value.as_str())
        }
        None => Ok(()),
    }
}

/// Puts these texts behind the others. Where there is no memory the others stay.
pub fn append(texts: &mut Vec<Text>, more: Items<Text>) -> Result<(), AllocError>
    ensures ok { OnOk result (texts.new.items ≡ texts.old.items ++ more) }
    ensures err { OnErr result (texts.new.items ≡ texts.old.items) }
{
    let mut more = more.into_inner();
    texts.append(&mut more)
}
