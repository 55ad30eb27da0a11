//! Laws for callers' proofs. Each is a function that does nothing: its contract is the law.

ghost use Rattle.base_values.specs.Equality.{IsContentEquality};

use crate::kinds::{EditionData, RunnableKind, TargetKindData};

/// Kinds and editions are equal exactly where they are one.
pub fn equality_of_kinds_is_content()
    ensures runnables { IsContentEquality ⟦<RunnableKind as PartialEq>⟧.eq }
    ensures targets { IsContentEquality ⟦<TargetKindData as PartialEq>⟧.eq }
    ensures editions { IsContentEquality ⟦<EditionData as PartialEq>⟧.eq }
{}
