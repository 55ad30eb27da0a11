//! Laws for callers' proofs. Each is a function that does nothing: its contract is the law.

ghost use Rattle.std.specs.Prelude.{◌≡◌};
ghost use Rattle.crate_graph_values.specs.Laws.{IsContentEqualityOn};
ghost use Rattle.pm_cargo.specs.OutputLaws.{HasCleanLibrary, HasCleanOutput};
ghost use Rattle.pm_cargo.specs.declared.output.ProcMacroDylibPath.{ProcMacroDylibPath};
ghost use Rattle.pm_cargo.specs.declared.output.ProcMacroDylibPath.TheVariants.{NotBuilt};

use crate::output::{BuildScriptOutput, ProcMacroDylibPath};

/// Of a package of which nothing is said, nothing was built.
pub fn default_library_is_not_built()
    ensures { (path : ProcMacroDylibPath)
        → ⟦<ProcMacroDylibPath as Default>⟧.is_default path → path ≡ NotBuilt }
{}

/// What is known of two libraries is equal exactly where it is the same, with the same path. Each path's text
/// is clean.
pub fn equality_of_libraries_is_content()
    ensures { IsContentEqualityOn HasCleanLibrary ⟦<ProcMacroDylibPath as PartialEq>⟧.eq }
{}

/// Two outputs are equal exactly where all that they hold is. Each path's text is clean.
pub fn equality_of_outputs_is_content()
    ensures { IsContentEqualityOn HasCleanOutput ⟦<BuildScriptOutput as PartialEq>⟧.eq }
{
    equality_of_libraries_is_content();
    base_text_paths::laws::equality_is_content();
    crate_graph_values::laws::equality_of_environments_is_content();
}
