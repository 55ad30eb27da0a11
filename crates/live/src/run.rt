//! Runs a session over a source of bytes.

ghost use Rattle.std.specs.Prelude.{◌≡◌, ◌+◌, ℕ, List, [], IfErr, IsErrOf, OnOk, Some};
ghost use Rattle.live.specs.Session.{State, session};
ghost use Rattle.live.specs.Turn.{HasEnded, Holds, KeepsNames, live_rules};
ghost use Rattle.live_script.specs.Fault.{run_statuses, status_of};
ghost use Rattle.live_script.specs.Run.{Completes, EndsFrom, Finishes, HasStatusCause, IsFaultless, TakesAtMost};
ghost use Rattle.live_script.specs.declared.fault.LiveError.TheVariants.{OutOfMemory};

use crate::session::Live;
use base_text::{ByteSink, ByteSource};
use live_page::Event;
use live_script::{LiveError, Stepper, run_script};
use std::alloc::Global;

impl Stepper for Live {
    ghost use Rattle.std.specs.Prelude.{IsErrOf};
    ghost use Rattle.live.specs.Names.{keeps_itself, keeps_on};
    ghost use Rattle.live.specs.Turn.{HasEnded, KeepsNames, live_rules};
    ghost use Rattle.live_script.specs.declared.fault.LiveError.TheVariants.{OutOfMemory};

    ghost rules = { live_rules };

    ghost has_ended = { HasEnded };

    ghost keeps = { λ result old new. KeepsNames (IsErrOf result OutOfMemory) old new };

    fn take<K: ByteSink>(
        &mut self,
        alloc: Global,
        event: Event,
        out: &mut K,
    ) -> Result<(), LiveError> {
        self.turn(alloc, event, out)
    }

    ghost keeps_itself = { keeps_itself };

    ghost keeps_on = { keeps_on };
}

/// Reads a script to its end and takes each line as soon as it is whole. It takes at most one byte more
/// than the byte limit. Lines are counted from 1 in each run.
pub fn live_run<S: ByteSource, K: ByteSink>(
    alloc: Global,
    live: &mut Live,
    input: &mut S,
    out: &mut K,
) -> Result<(), LiveError>
    requires { ¬ HasEnded live.old }
    ensures ok { OnOk result ((s : State) → Holds live.old s
        → Finishes live_rules s.said.config.limits.bytes s [] live.new
        (S.left input.old, S.left input.new) (K.held out.old, K.held out.new)) }
    ensures err { IfErr result (λ e. (s : State) → Holds live.old s
        → EndsFrom live_rules s.said.config.limits.bytes s [] e live.new
        (S.left input.old, S.left input.new) (K.held out.old, K.held out.new)) }
    ensures cause { IfErr result (λ e. HasStatusCause run_statuses (status_of e)
        (S.faults input.old, S.faults input.new) (K.faults out.old, K.faults out.new)) }
    ensures taken { TakesAtMost (live.old.recorded.config.limits.bytes + 1)
        (S.left input.old, S.left input.new) }
    ensures names { KeepsNames (IsErrOf result OutOfMemory) live.old live.new }
    ensures complete { (s : State) → Holds live.old s → (all : List ℕ) → S.left input.old ≡ Some all
        → IsFaultless (S.faults input.old, S.faults input.new) (K.faults out.old, K.faults out.new)
        → Completes (session s all).refusal result }
{
    let limit = live.byte_limit();
    run_script(alloc, limit, live, input, out)
}
