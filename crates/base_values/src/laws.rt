//! Laws for callers' proofs. Each is a function that does nothing: its contract is the law.

ghost use Rattle.std.specs.Prelude.{◌≡◌, List, length};
ghost use Rattle.std.specs.Cmp.{IsTotalOrder};
ghost use Rattle.std.specs.FinMap.{IsAntisymmetric};
ghost use Rattle.std.specs.List.Sorted.{IsPermutation, IsSorted, IsStable};
ghost use Rattle.std.specs.declared.cmp.Ordering.{Ordering};
ghost use Rattle.base_values.specs.Equality.{IsContentEquality};
ghost use Rattle.base_values.specs.Sorted.{sorted};

use crate::boxed::Boxed;
use crate::by_text::ByText;
use crate::items::Items;
use crate::name::Name;
use crate::shared::Shared;
use crate::shared_text::SharedText;
use crate::text::Text;
use crate::version::Version;

/// Texts and versions are equal exactly where their contents are the same.
pub fn equality_is_content()
    ensures texts { IsContentEquality ⟦<Text as PartialEq>⟧.eq }
    ensures shared_texts { IsContentEquality ⟦<SharedText as PartialEq>⟧.eq }
    ensures versions { IsContentEquality ⟦<Version as PartialEq>⟧.eq }
{}

/// Names are equal exactly where their texts are the same.
pub fn equality_of_names_is_content<K>()
    ensures { IsContentEquality ⟦<Name<K> as PartialEq>⟧.eq }
{}

/// Where equality of values is that of their contents, so it is for lists, maps, boxes and shared
/// values.
pub fn equality_of_holders_is_content<T: PartialEq>()
    ensures items { IsContentEquality T.eq → IsContentEquality ⟦<Items<T> as PartialEq>⟧.eq }
    ensures by_text { IsContentEquality T.eq → IsContentEquality ⟦<ByText<T> as PartialEq>⟧.eq }
    ensures boxed { IsContentEquality T.eq → IsContentEquality ⟦<Boxed<T> as PartialEq>⟧.eq }
    ensures shared { IsContentEquality T.eq → IsContentEquality ⟦<Shared<T> as PartialEq>⟧.eq }
{}

/// What a list, sorted by any order `c`, is: its items in order, with ties as they stood.
pub fn sorted_lists_are_stable<T>()
    ensures length { (c : T → T → Ordering) (xs : List T) → length (sorted c xs) ≡ length xs }
    ensures same_items { (c : T → T → Ordering) (xs : List T) → IsPermutation xs (sorted c xs) }
    ensures in_order { (c : T → T → Ordering) → IsTotalOrder c → (xs : List T)
        → IsSorted c (sorted c xs) }
    ensures stable { (c : T → T → Ordering) → IsTotalOrder c → (xs : List T)
        → IsStable c xs (sorted c xs) }
{}

/// Which lists, sorted, are one: only one list is in order with ties as they stood, and where only
/// equal items tie, how the items stood before leaves no trace.
pub fn sorted_lists_are_unique<T>()
    ensures unique { (c : T → T → Ordering) → IsTotalOrder c → (xs ys : List T)
        → IsSorted c ys → IsStable c xs ys → ys ≡ sorted c xs }
    ensures again { (c : T → T → Ordering) → IsTotalOrder c → (xs : List T)
        → IsSorted c xs → sorted c xs ≡ xs }
    ensures any_order { (c : T → T → Ordering) → IsTotalOrder c → IsAntisymmetric c
        → (xs ys : List T) → IsPermutation xs ys → sorted c xs ≡ sorted c ys }
{}
