//! Laws that users of workspaces rest on. Each is a function that changes nothing: its contract is the law.

ghost use Rattle.std.specs.Prelude.{◌≡◌};
ghost use Rattle.cargo_meta.specs.declared.metadata.Metadata.{Metadata};
ghost use Rattle.crate_graph_values.specs.Laws.{IsContentEqualityOn};
ghost use Rattle.pm_cargo.specs.Laws.{HasCleanWorkspace};
ghost use Rattle.pm_cargo.specs.Shuffle.{IsReadAlike, IsShuffle};

use crate::cargo_workspace::CargoWorkspace;

/// Two documents that differ in nothing but the order of their packages, nodes, entries and members are read
/// as one workspace, where both are read. Packages of one id keep their order, and so do nodes and entries.
/// The plain list of a node's dependencies is not read, so that its order plays no part.
pub fn shuffled_documents_give_one_workspace()
    ensures { (a b : Metadata) → IsShuffle a b → IsReadAlike a b }
{}

/// Two workspaces are equal exactly where all that they hold is: their packages, targets, directories,
/// manifests and environments. Each path's text is clean.
pub fn equality_of_workspaces_is_content()
    ensures { IsContentEqualityOn HasCleanWorkspace ⟦<CargoWorkspace as PartialEq>⟧.eq }
{
    pm_cargo_packages::laws::equality_of_packages_is_content();
    pm_cargo_packages::laws::equality_of_targets_is_content();
    crate_graph_values::laws::equality_of_environments_is_content();
}
