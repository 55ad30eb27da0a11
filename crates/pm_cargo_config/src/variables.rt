//! Variables that a command sets beside those of the user.

ghost use Rattle.std.specs.Prelude.{◌≡◌, IfOk};
ghost use Rattle.pm_cargo_config.specs.Variables.{with_channel, with_last_variable};

use base_text::{CommandLine, Items, Text};
use std::alloc::{AllocError, Global};

/// The command with a variable set, behind what it says of its variables before.
pub fn set_variable(
    alloc: Global,
    line: CommandLine,
    name: &str,
    value: &str,
) -> Result<CommandLine, AllocError>
    ensures { IfOk result (λ set. set ≡ with_last_variable name.now value.now line) }
{
    let name = Text::of_str(alloc, name)?;
    let value = Text::of_str(alloc, value)?;
    let mut env = line.env.into_inner();
    env.push((name, Some(value)))?;
    Ok(CommandLine {
        program: line.program,
        words: line.words,
        dir: line.dir,
        env: Items::new(env),
    })
}

/// The command, whose `cargo` allows unstable options where that is wanted: it takes itself for one of
/// the nightly channel.
pub fn allow_unstable(
    alloc: Global,
    line: CommandLine,
    is_wanted: bool,
) -> Result<CommandLine, AllocError>
    ensures { IfOk result (λ set. set ≡ with_channel is_wanted line) }
{
    if !is_wanted {
        return Ok(line);
    }
    let name = "__CARGO_TEST_CHANNEL_OVERRIDE_DO_NOT_USE_THIS";
    set_variable(alloc, line, name, "nightly")
}
