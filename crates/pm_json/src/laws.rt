//! Laws for callers' proofs. Each is a function that changes nothing: its contract is the law.

ghost use Rattle.base_values.specs.Equality.{IsContentEquality};
ghost use Rattle.crate_graph_values.specs.Laws.{IsContentEqualityOn};
ghost use Rattle.pm_json.specs.ProjectLaws.{HasCleanCrate, HasCleanLevels};

use crate::dep::Dep;
use crate::krate::{Build, Crate};
use crate::parts::Runnable;
use crate::project_json::ProjectJson;

/// What a build system knows of two crates is equal exactly where all of it is.
pub fn equality_of_builds_is_content()
    ensures { IsContentEquality ⟦<Build as PartialEq>⟧.eq }
{
    crate_graph_values::laws::equality_of_kinds_is_content();
}

// Dependencies and runnables are equal exactly where all that they hold is.
fn equality_of_stated_parts_is_content()
    ensures dependencies { IsContentEquality ⟦<Dep as PartialEq>⟧.eq }
    ensures runnables { IsContentEquality ⟦<Runnable as PartialEq>⟧.eq }
{
    crate_graph_values::laws::equality_of_crate_names_is_content();
    crate::data_laws::equality_of_kinds_is_content();
}

/// Two crates are equal exactly where all that they hold is. Each path's text is clean.
pub fn equality_of_crates_is_content()
    ensures { IsContentEqualityOn HasCleanCrate ⟦<Crate as PartialEq>⟧.eq }
{
    equality_of_builds_is_content();
    equality_of_stated_parts_is_content();
    base_text_paths::laws::equality_is_content();
    crate_graph_values::laws::equality_of_display_names_is_content();
}

/// Two projects are equal exactly where all that they hold is: their paths, crates and runnables, and their
/// standard libraries' projects. Each path's text is clean.
pub fn equality_of_projects_is_content()
    ensures { IsContentEqualityOn HasCleanLevels ⟦<ProjectJson as PartialEq>⟧.eq }
{
    equality_of_crates_is_content();
    equality_of_stated_parts_is_content();
}
