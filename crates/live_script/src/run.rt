//! Runs a script against a stepper.

ghost use Rattle.std.specs.Prelude.{◌≡◌, ◌+◌, ◌^◌, ◌<◌, ℕ, List, IfErr, OnOk, Some};
ghost use Rattle.live_page.specs.Event.{event};
ghost use Rattle.live_page.specs.declared.lines.LineError.TheVariants.{Ended};
ghost use Rattle.live_script.specs.Fault.{fault_of, line_statuses, run_statuses, status_of};
ghost use Rattle.live_script.specs.Run.{Completes, EndsFrom, Finishes, HasStatusCause, IsFaultless, TakesAtMost};
ghost use Rattle.live_script.specs.Session.{session_by, turn_of};
ghost use Rattle.live_script.specs.Turn.{EndsLine, StaysOn, TakesTurn};
ghost use Rattle.live_script.specs.Written.{HasWriteCause};

use crate::fault::LiveError;
use crate::stepper::Stepper;
use base_text_outside::{ByteSink, ByteSource, Limit};
use live_page::{Event, EventError, LineError, Lines};
use std::alloc::Global;

/// Reads a script to its end and takes each line as soon as it is whole. It takes at most one byte more
/// than the limit. Lines are counted from 1 in each run.
pub fn run_script<P: Stepper, S: ByteSource, K: ByteSink>(
    alloc: Global,
    limit: u64,
    stepper: &mut P,
    input: &mut S,
    out: &mut K,
) -> Result<(), LiveError>
    requires small { limit + 1 < 2 ^ 64 }
    requires going { ¬ P.has_ended stepper.old }
    ensures ok { OnOk result ((s : P.rules.State) (before : List P.rules.Flush)
        → P.rules.holds stepper.old before s → Finishes P.rules limit s before stepper.new
        (S.left input.old, S.left input.new) (K.held out.old, K.held out.new)) }
    ensures err { IfErr result (λ e. (s : P.rules.State) (before : List P.rules.Flush)
        → P.rules.holds stepper.old before s → EndsFrom P.rules limit s before e stepper.new
        (S.left input.old, S.left input.new) (K.held out.old, K.held out.new)) }
    ensures cause { IfErr result (λ e. HasStatusCause run_statuses (status_of e)
        (S.faults input.old, S.faults input.new) (K.faults out.old, K.faults out.new)) }
    ensures taken { TakesAtMost (limit + 1) (S.left input.old, S.left input.new) }
    ensures rest { StaysOn P.has_ended P.keeps result stepper.old stepper.new }
    ensures complete { (s : P.rules.State) (before : List P.rules.Flush)
        → P.rules.holds stepper.old before s → (all : List ℕ) → S.left input.old ≡ Some all
        → IsFaultless (S.faults input.old, S.faults input.new) (K.faults out.old, K.faults out.new)
        → Completes (session_by limit P.rules.turn s all).refusal result }
{
    let mut lines = Lines::new(alloc, limit);
    let mut number = 0u64;
    'run: loop {
        match lines.next(input) {
            Ok(Some(line)) => {
                number += 1;
                match take_line(alloc, number, &line, stepper, out) {
                    Ok(()) => {}
                    Err(error) => return Err(error),
                }
            }
            Ok(None) => return Ok(()),
            Err(error) => return Err(fault_of(error)),
        }
    }
}

// The error of a run whose line was not given.
fn fault_of(error: LineError) -> LiveError
    requires { ¬ (error ≡ Ended) }
    ensures { fault_of error ≡ Some result }
{
    match error {
        LineError::ReadFault => LiveError::ReadFault,
        LineError::TooMany => LiveError::TooMany(Limit::Bytes),
        LineError::OutOfMemory => LiveError::OutOfMemory,
        LineError::Ended => unreachable!(),
    }
}

// One line of this number.
fn take_line<P: Stepper, K: ByteSink>(
    alloc: Global,
    number: u64,
    line: &[u8],
    stepper: &mut P,
    out: &mut K,
) -> Result<(), LiveError>
    requires { ¬ P.has_ended stepper.old }
    ensures ok { OnOk result ((s : P.rules.State) (before : List P.rules.Flush)
        → P.rules.holds stepper.old before s
        → TakesTurn P.rules (turn_of P.rules.turn s number (event line.now)) before
        stepper.new (K.held out.old, K.held out.new)) }
    ensures err { IfErr result (λ e. (s : P.rules.State) (before : List P.rules.Flush)
        → P.rules.holds stepper.old before s → EndsLine P.rules s number line.now e before
        stepper.new (K.held out.old, K.held out.new)) }
    ensures cause { HasWriteCause result line_statuses (K.faults out.old, K.faults out.new) }
    ensures rest { StaysOn P.has_ended P.keeps result stepper.old stepper.new }
{
    match Event::of_line(alloc, line) {
        Ok(event) => stepper.take(alloc, event, out),
        Err(EventError::Refused) => Err(LiveError::Script(number)),
        Err(EventError::OutOfMemory) => Err(LiveError::OutOfMemory),
    }
}
