//! What words ask for.

use crate::config::config_answer;
use crate::values::words_at;
use base_text::TryClone;
use cases::{Case, Fault, Object};
use live_config::{Command, LiveConfig, WordsError};
use serde_json::Value;
use std::alloc::Global;

/// The configuration that the words of a case set, and null where they are wrong.
pub fn answer(alloc: Global, case: Case<'_>) -> Result<Value, Fault> {
    let words = words_at(alloc, case, "words")?;
    match Command::of_words(alloc, words.as_slice()) {
        Ok(command) => {
            let command = Box::new(alloc, command)?;
            copy_command(alloc, &command)
        }
        Err(WordsError::Usage) => Ok(Value::Null),
        Err(WordsError::OutOfMemory) => Err(Fault::OutOfMemory),
    }
}

// The configuration of a copy.
fn copy_command(alloc: Global, command: &Command) -> Result<Value, Fault> {
    let config = command.try_clone(alloc)?.into_config();
    let config = Box::new(alloc, config)?;
    compare_copy(alloc, &config)
}

// A configuration, and whether it is that of no words.
fn compare_copy(alloc: Global, config: &LiveConfig) -> Result<Value, Fault> {
    let first = Box::new(alloc, LiveConfig::new(alloc)?)?;
    Object::new(alloc)
        .member("config", config_answer(alloc, config))
        .flag("is_first", *config == *first)
        .flag("fits", config.fits())
        .answer()
}
