//! What sessions promise of every script. These functions do nothing when they run: their contracts are the laws.

ghost use Rattle.live.specs.Laws.{SessionsJoin};

/// The session of a text that another follows.
pub fn sessions_join()
    ensures { SessionsJoin }
{}
