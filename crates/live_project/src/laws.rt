//! What projects of a session promise of builds. These functions do nothing when they run: their contracts are the laws.

ghost use Rattle.live_project.specs.Build.{IsBuiltAlone};

/// A build replaces the one before it: after two of them the project is as after the second alone, or is refused as that is.
pub fn a_build_replaces_the_one_before()
    ensures { IsBuiltAlone }
{}
