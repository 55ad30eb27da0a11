//! Laws for callers' proofs. Each is a function that changes nothing: its contract is the law.

ghost use Rattle.std.specs.Prelude.{◌≡◌, ◌↔◌, ◌==◌, ℕ, List, true};
ghost use Rattle.std.specs.Hash as fed;
ghost use Rattle.std.specs.Ordering.{nat_cmp};
ghost use Rattle.base_values.specs.Equality.{IsContentEquality};
ghost use Rattle.base_text_paths.specs.declared.arena.Idx.{Idx};
ghost use Rattle.base_text_paths.specs.Arena.{number_of};
ghost use Rattle.base_text_paths.specs.Paths.{IsClean};

use crate::arena::Idx;
use crate::cfg_diff::CfgDiff;
use crate::cfg_options::CfgOptions;
use crate::edition::Edition;
use crate::file_id::FileId;
use crate::paths::AbsPathBuf;
use base_text_outside::{CfgAtom, Symbol};
use std::hash::Hash;

/// Names, editions, numbers of files and atoms are equal exactly where their contents are the same.
pub fn equality_is_content()
    ensures symbols { IsContentEquality ⟦<Symbol as PartialEq>⟧.eq }
    ensures editions { IsContentEquality ⟦<Edition as PartialEq>⟧.eq }
    ensures file_ids { IsContentEquality ⟦<FileId as PartialEq>⟧.eq }
    ensures atoms { IsContentEquality ⟦<CfgAtom as PartialEq>⟧.eq }
{}

/// Sets of atoms and changes of them are equal exactly where their atoms are the same.
pub fn equality_of_cfgs_is_content()
    ensures options { IsContentEquality ⟦<CfgOptions as PartialEq>⟧.eq }
    ensures diffs { IsContentEquality ⟦<CfgDiff as PartialEq>⟧.eq }
{
    equality_is_content();
}

/// Paths are equal exactly where their texts are the same. Each path's text is clean.
pub fn equality_of_paths_is_content()
    ensures { (x y : List ℕ) → IsClean x → IsClean y
        → (⟦<AbsPathBuf as PartialEq>⟧.eq x y ≡ true) ↔ (x ≡ y) }
{}

/// Numbers are equal, ordered and hashed as what they are, whatever their tag.
pub fn numbers_compare_as_numbers<K>()
    ensures equality { (x y : Idx K)
        → ⟦<Idx<K> as PartialEq>⟧.eq x y ≡ (number_of x == number_of y) }
    ensures order { (x y : Idx K)
        → ⟦<Idx<K> as Ord>⟧.cmp x y ≡ nat_cmp (number_of x) (number_of y) }
    ensures hash { (x : Idx K) → ⟦<Idx<K> as Hash>⟧.hash_input x ≡ fed.u32 (number_of x) }
{}
