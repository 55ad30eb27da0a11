//! Laws that users of a database rest on. Each is a function that changes nothing and answers nothing:
//! its contract is the law.

ghost use Rattle.std.specs.Prelude.{◌≡◌, ◌↔◌, IfSome, ℕ, List, slice_get, true};
ghost use Rattle.std.specs.BTreeMap as tree;
ghost use Rattle.std.specs.declared.cmp.Ordering.{Ordering};
ghost use Rattle.crate_graph_values.specs.declared.builder.CrateBuilder.{CrateBuilder};
ghost use Rattle.input_db.specs.Database.{Database};
ghost use Rattle.input_db.specs.FinishSteps.{IsSetInSteps};
ghost use Rattle.crate_graph.specs.Extend.{Id};
ghost use Rattle.input_db.specs.Identity.{HasCleanIdentity, HasCleanInput, input_eq, unique_eq};
ghost use Rattle.input_db.specs.SetInDb.{HaveOwnNumbers};
ghost use Rattle.input_db.specs.declared.crate_input.CrateInput.{CrateInput};
ghost use Rattle.input_db.specs.declared.crate_input.UniqueCrateData.{UniqueCrateData};

use crate::crate_input::{Crate, CrateInput, UniqueCrateData};
use crate::crates_map::CratesMap;

/// The paths in the identity of a crate and in what is held of it are clean, as every path is. A path's
/// type gives this fact only to code that reads the path's text, as this function does.
pub fn paths_of_a_crate(crates: &CratesMap, krate: Crate)
    ensures identity { IfSome (slice_get crates.now krate) (λ entry. HasCleanIdentity entry.0) }
    ensures input { IfSome (slice_get crates.now krate) (λ entry. HasCleanInput entry.1) }
{
    if let Some((unique, input)) = crates.entry(krate) {
        read_paths(unique, input);
    }
}

fn read_paths(unique: &UniqueCrateData, input: &CrateInput)
    ensures identity { HasCleanIdentity unique.now }
    ensures input { HasCleanInput input.now }
{
    input.crate_data.proc_macro_cwd.as_str();
    if let Some(pair) = &unique.disambiguator {
        pair.get().0.proc_macro_cwd.as_str();
    }
}

/// Two identities are equal exactly where they are of one root file, and both have the same data and the
/// same atoms or neither has any. The paths of a table's identities are clean (`paths_of_a_crate`).
pub fn equality_of_identities()
    ensures { (x y : UniqueCrateData) → HasCleanIdentity x → HasCleanIdentity y
        → (unique_eq x y ≡ true) ↔ (x ≡ y) }
{}

/// Two inputs are equal exactly where all that they hold is the same: data, extra data, what the workspace
/// shares, atoms, environment and durability. The paths of a table's inputs are clean (`paths_of_a_crate`).
pub fn equality_of_inputs()
    ensures { (x y : CrateInput) → HasCleanInput x → HasCleanInput y
        → (input_eq x y ≡ true) ↔ (x ≡ y) }
{
    crate_graph_values::laws::equality_of_extra_data_is_content();
    crate_graph_values::laws::equality_of_workspace_data_is_content();
    crate_graph_values::laws::equality_of_environments_is_content();
    input_db_files::laws::equality_of_durabilities();
}

/// A graph that was set, and whose crates have each a number of its own, is set again: the database is as it
/// was, its count of writes too.
pub fn setting_again()
    ensures { (cmp : Id → Id → Ordering) (crates : List CrateBuilder) (old mid new : Database)
        (ids again : tree.BTreeMap Id ℕ) (first : IsSetInSteps cmp crates old mid ids)
        → IsSetInSteps cmp crates mid new again
        → HaveOwnNumbers first.set.order first.set.numbers → new ≡ mid }
{}
