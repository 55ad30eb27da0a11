//! What the values of options say.

ghost use Rattle.std.specs.Prelude.{◌≡◌, ◌≤◌, IfOk, IsErrOf, OnOk, None, Some};
ghost use Rattle.live_config.specs.Values.{absolute_option_path, feature_names, number_up_to, pair_texts, variable_of, with_extra, with_option_path, with_process};

use crate::config::WordsError;
use base_text::{AbsPathBuf, ByText, Items, PathError, Text};
use crate_graph_values::Env;
use std::alloc::Global;
use std::mem;

// The number of a decimal text without sign or leading zero, if it is at most this.
pub(crate) fn read_number(alloc: Global, most: u64, text: &str) -> Result<u64, WordsError>
    ensures ok { IfOk result (λ number. number_up_to most text.now ≡ Some number) }
    ensures most { IfOk result (λ number. number ≤ most) }
    ensures usage { IsErrOf result WordsError.Usage → number_up_to most text.now ≡ None }
{
    let Ok(number) = text.parse::<u64>() else {
        return Err(WordsError::Usage);
    };
    if number > most {
        return Err(WordsError::Usage);
    }
    let written = number.to_string(alloc)?;
    if written.as_str() == text {
        Ok(number)
    } else {
        Err(WordsError::Usage)
    }
}

// The names that single commas join. An empty one is refused.
pub(crate) fn feature_names(alloc: Global, text: &str) -> Result<Items<Text>, WordsError>
    ensures ok { IfOk result (λ names. feature_names text.now ≡ Some names) }
    ensures usage { IsErrOf result WordsError.Usage → feature_names text.now ≡ None }
{
    let mut names = Vec::new(alloc);
    for name in text.split(',') {
        if name.is_empty() {
            return Err(WordsError::Usage);
        }
        names.push(Text::of_str(alloc, name)?)?;
    }
    Ok(Items::new(names))
}

// The path of an absolute text.
fn absolute_path(alloc: Global, text: &str) -> Result<AbsPathBuf, WordsError>
    ensures ok { IfOk result (λ path. absolute_option_path text.now ≡ Some path) }
    ensures usage { IsErrOf result WordsError.Usage → absolute_option_path text.now ≡ None }
{
    match AbsPathBuf::new(alloc, text) {
        Ok(path) => Ok(path),
        Err(PathError::NotAbsolute) => Err(WordsError::Usage),
        Err(PathError::OutOfMemory) => Err(WordsError::OutOfMemory),
    }
}

// Adds the path of an absolute text.
pub(crate) fn push_path(
    alloc: Global,
    paths: &mut Items<AbsPathBuf>,
    text: &str,
) -> Result<(), WordsError>
    ensures ok { OnOk result (with_option_path paths.old text.now ≡ Some paths.new) }
    ensures usage { IsErrOf result WordsError.Usage → with_option_path paths.old text.now ≡ None }
{
    let path = absolute_path(alloc, text)?;
    let mut all = mem::replace(paths, Items::empty(alloc)).into_inner();
    all.push(path)?;
    *paths = Items::new(all);
    Ok(())
}

// A name and a value, cut at the first `=`. None where the name is empty.
fn variable_of(text: &str) -> Option<(&str, &str)>
    ensures { pair_texts result ≡ variable_of text.now }
{
    let (name, value) = text.split_once('=')?;
    if name.is_empty() {
        return None;
    }
    Some((name, value))
}

// Sets a variable of commands.
pub(crate) fn set_variable(
    alloc: Global,
    variables: &mut ByText<Option<Text>>,
    text: &str,
) -> Result<(), WordsError>
    ensures ok { OnOk result (with_extra variables.old text.now ≡ Some variables.new) }
    ensures usage { IsErrOf result WordsError.Usage → with_extra variables.old text.now ≡ None }
{
    let Some((name, value)) = variable_of(text) else {
        return Err(WordsError::Usage);
    };
    let name = String::from_str(alloc, name)?;
    let value = Text::of_str(alloc, value)?;
    drop(variables.insert(name, Some(value))?);
    Ok(())
}

// Sets a variable of the process.
pub(crate) fn set_process_variable(
    alloc: Global,
    variables: &mut Env,
    text: &str,
) -> Result<(), WordsError>
    ensures ok { OnOk result (with_process variables.old text.now ≡ Some variables.new) }
    ensures usage { IsErrOf result WordsError.Usage → with_process variables.old text.now ≡ None }
{
    let Some((name, value)) = variable_of(text) else {
        return Err(WordsError::Usage);
    };
    let name = String::from_str(alloc, name)?;
    let value = String::from_str(alloc, value)?;
    variables.set(name, value)?;
    Ok(())
}
