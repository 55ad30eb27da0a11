//! What takes the events of a script, one by one.

ghost use Rattle.std.specs.Prelude.{List, Ok, OnOk, IfErr, Result};
ghost use Rattle.live_script.specs.Fault.{turn_statuses};
ghost use Rattle.live_script.specs.Session.{Rules};
ghost use Rattle.live_script.specs.Turn.{EndsTurn, StaysOn, TakesTurn};
ghost use Rattle.live_script.specs.Written.{HasWriteCause};
ghost use Rattle.live_script.specs.declared.fault.LiveError.{LiveError};

use crate::fault::LiveError;
use base_text_outside::ByteSink;
use live_page::Event;
use std::alloc::Global;

/// A value that takes events, and writes a text at each flush. Its rules say what a session is for it.
pub trait Stepper {
    // The states, the flushes, the turns and the texts of a session, and when this value holds a state.
    ghost rules: { Rules Self };

    // No event is taken any more.
    ghost has_ended: { Self → Type 0 };

    // What a call with this result leaves as it was.
    ghost keeps: { Result (Unit {0}) LiveError → Self → Self → Type 0 };

    /// Takes one event.
    fn take<K: ByteSink>(
        &mut self,
        alloc: Global,
        event: Event,
        out: &mut K,
    ) -> Result<(), LiveError>
        requires { ¬ has_ended self.old }
        ensures ok { OnOk result ((s : rules.State) (before : List rules.Flush)
            → rules.holds self.old before s
            → TakesTurn rules (rules.turn s event) before self.new (K.held out.old, K.held out.new)) }
        ensures err { IfErr result (λ e. (s : rules.State) (before : List rules.Flush)
            → rules.holds self.old before s
            → EndsTurn rules (rules.turn s event) (rules.may_leave s event) e before
            self.new (K.held out.old, K.held out.new)) }
        ensures cause { HasWriteCause result turn_statuses (K.faults out.old, K.faults out.new) }
        ensures rest { StaysOn has_ended keeps result self.old self.new };

    // What is kept is kept by a call that does nothing, and through one call after another.
    ghost keeps_itself: { (result : Result (Unit {0}) LiveError) (p : Self) → keeps result p p };

    ghost keeps_on: { (done : Unit {0}) (result : Result (Unit {0}) LiveError) (p q r : Self)
        → keeps (Ok done) p q → keeps result q r → keeps result p r };
}
