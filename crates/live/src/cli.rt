//! The program as one call: words, a source and two sinks in, a status out.

ghost use Rattle.std.specs.Prelude.{◌≡◌, IfErr, IfOk, OnOk, string_bytes};
ghost use Rattle.live.specs.Cli.{CompletesAs, FailsAs, FailsFor, FinishesAs, KeepsAlways, UsageExactly, asked_by, status_for, usage_text};
ghost use Rattle.live.specs.Session.{State};
ghost use Rattle.live.specs.Turn.{HasEnded, Holds};
ghost use Rattle.live_script.specs.Fault.{all_statuses, status_of, live_error_text, word_statuses};
ghost use Rattle.live_script.specs.Run.{HasStatusCause, IsFaultless};

use crate::run::live_run;
use crate::session::Live;
use base_text::{ByteSink, ByteSource};
use live_config::{Command, WordsError};
use live_script::{LiveError, tell, text_by};
use std::alloc::{AllocError, Global};

/// Reads the words, runs the script on the session, and answers the exit status. On a refusal its text
/// and a newline go to `err`; what `err` does changes no status.
pub fn live_cli<S: ByteSource, K: ByteSink, E: ByteSink>(
    alloc: Global,
    words: &[String],
    live: &mut Live,
    input: &mut S,
    out: &mut K,
    err: &mut E,
) -> u8
    requires { ¬ HasEnded live.old }
    ensures ok { result ≡ 0 → (s : State) → Holds live.old s → FinishesAs (asked_by words.now) s
        live.new (S.left input.old, S.left input.new) (K.held out.old, K.held out.new) }
    ensures err { ¬ (result ≡ 0) → FailsAs (asked_by words.now) result (live.old, live.new)
        (S.left input.old, S.left input.new)
        ((K.held out.old, K.held out.new), (E.held err.old, E.held err.new))
        (E.faults err.old, E.faults err.new) }
    ensures cause { HasStatusCause all_statuses result
        (S.faults input.old, S.faults input.new) (K.faults out.old, K.faults out.new) }
    ensures usage { UsageExactly (asked_by words.now).work result
        ((live.new ≡ live.old) × (input.new ≡ input.old) × (out.new ≡ out.old)) }
    ensures always { KeepsAlways (asked_by words.now) result (live.old, live.new)
        (S.left input.old, S.left input.new) }
    ensures complete { (s : State) → Holds live.old s
        → IsFaultless (S.faults input.old, S.faults input.new) (K.faults out.old, K.faults out.new)
        → CompletesAs (asked_by words.now) s (S.left input.old) result }
{
    match run_words(alloc, words, live, input, out) {
        Ok(()) => 0,
        Err(error) => {
            let _ = tell(alloc, usage_text(), &error, err);
            error.status()
        }
    }
}

// Configures the session by the words, and runs it.
fn run_words<S: ByteSource, K: ByteSink>(
    alloc: Global,
    words: &[String],
    live: &mut Live,
    input: &mut S,
    out: &mut K,
) -> Result<(), LiveError>
    requires { ¬ HasEnded live.old }
    ensures ok { OnOk result ((s : State) → Holds live.old s → FinishesAs (asked_by words.now) s
        live.new (S.left input.old, S.left input.new) (K.held out.old, K.held out.new)) }
    ensures err { IfErr result (λ e. (s : State) → Holds live.old s → FailsFor (asked_by words.now)
        s e (live.old, live.new) (S.left input.old, S.left input.new)
        (K.held out.old, K.held out.new)) }
    ensures cause { IfErr result (λ e. HasStatusCause word_statuses (status_of e)
        (S.faults input.old, S.faults input.new) (K.faults out.old, K.faults out.new)) }
    ensures usage { UsageExactly (asked_by words.now).work (status_for result)
        ((live.new ≡ live.old) × (input.new ≡ input.old) × (out.new ≡ out.old)) }
    ensures always { KeepsAlways (asked_by words.now) (status_for result) (live.old, live.new)
        (S.left input.old, S.left input.new) }
    ensures complete { (s : State) → Holds live.old s
        → IsFaultless (S.faults input.old, S.faults input.new) (K.faults out.old, K.faults out.new)
        → CompletesAs (asked_by words.now) s (S.left input.old) (status_for result) }
{
    let command = match Command::of_words(alloc, words) {
        Ok(command) => command,
        Err(WordsError::Usage) => return Err(LiveError::Usage),
        Err(WordsError::OutOfMemory) => return Err(LiveError::OutOfMemory),
    };
    live.configure(command.into_config());
    live_run(alloc, live, input, out)
}

/// The text that says which words are commands.
pub fn usage_text() -> &'static str
    ensures { result.now ≡ usage_text }
{
    "usage: live [options] or live generate N"
}

/// One line of text for people, without a newline.
pub fn fault_text(alloc: Global, error: &LiveError) -> Result<String, AllocError>
    ensures { IfOk result (λ text. string_bytes text ≡ live_error_text usage_text error.now) }
{
    text_by(alloc, usage_text(), error)
}
