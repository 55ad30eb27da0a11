//! Laws for callers' proofs. Each is a function that changes nothing: its contract is the law.

ghost use Rattle.crate_graph_values.specs.Laws.{IsContentEqualityOn};
ghost use Rattle.pm_tools.specs.Laws.{HasCleanBuild};

use crate::build_scripts::WorkspaceBuildScripts;

/// What two builds give is equal exactly where the same packages have the same outputs, and the errors are the
/// same. Each path's text is clean.
pub fn equality_of_build_scripts_is_content()
    ensures { IsContentEqualityOn HasCleanBuild ⟦<WorkspaceBuildScripts as PartialEq>⟧.eq }
{
    pm_cargo::output_laws::equality_of_outputs_is_content();
}
