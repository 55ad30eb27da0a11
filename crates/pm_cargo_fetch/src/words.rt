//! The words of a path in a question, and the text of a whole command line.

ghost use Rattle.std.specs.Prelude.{◌≡◌, ◌++◌, IfOk, OnOk};
ghost use Rattle.cargo_meta.specs.Answer as answer;
ghost use Rattle.base_text_outside.specs.CommandWords.{option_words};

use base_text::{AbsPathBuf, CommandLine, Text};
use base_text_outside::command_words::push_word;
use std::alloc::{AllocError, Global};

/// Puts the word and the path behind the others, where there is a path.
pub fn push_path(
    alloc: Global,
    words: &mut Vec<Text>,
    word: &str,
    path: &Option<AbsPathBuf>,
) -> Result<(), AllocError>
    ensures { OnOk result (words.new.items ≡ words.old.items ++ option_words word.now path.now) }
{
    match path {
        Some(path) => {
            push_word(alloc, words, word)?;
            push_word(alloc, words, path.as_str())
        }
        None => Ok(()),
    }
}

/// The program and its words, with a space between each two.
pub fn line_text(alloc: Global, line: &CommandLine) -> Result<Text, AllocError>
    ensures { IfOk result (λ text. text ≡ answer.line_text line.now) }
{
    let mut text = String::from_str(alloc, line.program.as_str())?;
    for word in line.words.as_slice() {
        text.push(' ')?;
        text.push_str(word.as_str())?;
    }
    Ok(Text::new(text))
}
