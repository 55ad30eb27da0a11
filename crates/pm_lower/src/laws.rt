//! Laws that users of projects rest on. Each is a function that does nothing: its contract is the law.

ghost use Rattle.std.specs.Prelude.{◌≡◌};
ghost use Rattle.cargo_meta.specs.declared.metadata.Metadata.{Metadata};
ghost use Rattle.pm_tools.specs.Outputs.{BuildScripts};
ghost use Rattle.pm_cargo.specs.Shuffle.{IsShuffle};
ghost use Rattle.pm_lower.specs.Builds.{with_build_scripts};
ghost use Rattle.pm_lower.specs.Equality.{equal_except_builds, is_equal_to_itself};
ghost use Rattle.pm_lower.specs.Order.{IsDetachedAlike, IsLoadedAlike};
ghost use Rattle.pm_lower.specs.declared.project_workspace.ProjectWorkspace.{ProjectWorkspace};

/// Metadata that differs in nothing but the order of packages, nodes, entries and members gives one project,
/// where both give one.
pub fn shuffled_metadata_gives_one_project()
    ensures { (a b : Metadata) → IsShuffle a b → IsLoadedAlike a b }
{}

/// The same of a detached file that cargo reads as a project.
pub fn shuffled_metadata_gives_one_detached_project()
    ensures { (a b : Metadata) → IsShuffle a b → IsDetachedAlike a b }
{}

/// A build changes nothing that is compared: a project is equal to itself with other outputs, except a detached file
/// that cargo reads as no project, which is equal to none.
pub fn builds_are_not_compared()
    ensures { (p : ProjectWorkspace) (scripts : BuildScripts)
        → equal_except_builds p (with_build_scripts p scripts) ≡ is_equal_to_itself p.kind }
{}
