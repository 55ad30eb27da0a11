//! Laws of names and ids. The function changes nothing: its contract is the law.

ghost use Rattle.std.specs.Prelude.{ℕ, List};
ghost use Rattle.cargo_meta_values.specs.Names.{ComparesAsText};

use crate::names::{FeatureName, PackageId, PackageName};
use std::hash::Hash;

/// Names and ids are equal, ordered and hashed as their texts.
pub fn names_compare_as_texts()
    ensures packages { ComparesAsText {T = List ℕ} (λ x. x) ⟦<PackageName as PartialEq>⟧.eq
        ⟦<PackageName as Ord>⟧.cmp ⟦<PackageName as Hash>⟧.hash_input }
    ensures features { ComparesAsText {T = List ℕ} (λ x. x) ⟦<FeatureName as PartialEq>⟧.eq
        ⟦<FeatureName as Ord>⟧.cmp ⟦<FeatureName as Hash>⟧.hash_input }
    ensures ids { ComparesAsText (λ x. x.repr) ⟦<PackageId as PartialEq>⟧.eq
        ⟦<PackageId as Ord>⟧.cmp ⟦<PackageId as Hash>⟧.hash_input }
{}
