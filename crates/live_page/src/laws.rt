//! Laws of entries. Each is a function that changes nothing: its contract is the law.

ghost use Rattle.base_values.specs.Equality.{IsContentEquality};

use crate::crate_entry::{CrateEntry, DependencyEntry};

/// Two dependencies are equal exactly where both of their texts are.
pub fn equality_of_dependencies_is_content()
    ensures { IsContentEquality ⟦<DependencyEntry as PartialEq>⟧.eq }
{
    base_values::laws::equality_is_content();
}

/// Two entries are equal exactly where their roots are, and their dependencies one by one.
pub fn equality_of_entries_is_content()
    ensures { IsContentEquality ⟦<CrateEntry as PartialEq>⟧.eq }
{
    equality_of_dependencies_is_content();
    base_values::laws::equality_is_content();
    base_values::laws::equality_of_holders_is_content::<DependencyEntry>();
}
