//! The program as one call over any source and sinks.

ghost use Rattle.std.specs.Prelude.{◌≡◌};
ghost use Rattle.live.specs.Cli.{CompletesAs, FinishesAs, TakesFor, UsageExactly, asked_by};
ghost use Rattle.live_prog.specs.Top.{FailsTop};
ghost use Rattle.live.specs.Turn.{first_state};
ghost use Rattle.live.specs.declared.session.Live.{Live};
ghost use Rattle.live_script.specs.Fault.{all_statuses};
ghost use Rattle.live_script.specs.Run.{HasStatusCause, IsFaultless};

use base_text::{ByteSink, ByteSource};
use live::{Live, live_cli};
use live_script::LiveError;
use std::alloc::Global;

/// Runs a script on a new session and answers the exit status. Where there is no memory for the session it
/// answers 1 and touches neither source nor sinks.
pub fn live_top<S: ByteSource, K: ByteSink, E: ByteSink>(
    alloc: Global,
    words: &[String],
    input: &mut S,
    out: &mut K,
    err: &mut E,
) -> u8
    ensures ok { result ≡ 0 → (live : Live) × FinishesAs (asked_by words.now) first_state live
        (S.left input.old, S.left input.new) (K.held out.old, K.held out.new) }
    ensures err { ¬ (result ≡ 0) → FailsTop (asked_by words.now) result
        (S.left input.old, S.left input.new)
        ((K.held out.old, K.held out.new), (E.held err.old, E.held err.new))
        (E.faults err.old, E.faults err.new) }
    ensures cause { HasStatusCause all_statuses result
        (S.faults input.old, S.faults input.new) (K.faults out.old, K.faults out.new) }
    ensures usage { UsageExactly (asked_by words.now).work result
        ((input.new ≡ input.old) × (out.new ≡ out.old)) }
    ensures taken { TakesFor (asked_by words.now) (S.left input.old, S.left input.new) }
    ensures complete { IsFaultless (S.faults input.old, S.faults input.new)
        (K.faults out.old, K.faults out.new)
        → CompletesAs (asked_by words.now) first_state (S.left input.old) result }
{
    match Live::new(alloc) {
        Ok(mut live) => {
            let status = live_cli(alloc, words, &mut live, input, out, err);
            drop(live);
            status
        }
        Err(_) => LiveError::OutOfMemory.status(),
    }
}
