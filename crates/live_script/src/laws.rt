//! What sessions of any state promise of every script. These functions do nothing when they run: their contracts are the laws.

ghost use Rattle.live_script.specs.Laws.{ScriptsJoin};

use crate::stepper::Stepper;

/// The session of a text that another follows.
pub fn sessions_join<P: Stepper>()
    ensures { ScriptsJoin P.rules.turn }
{}
