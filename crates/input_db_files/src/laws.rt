//! Laws of equality and order that users of source roots rest on. Each is a function that changes nothing
//! and answers nothing: its contract is the law.

ghost use Rattle.std.specs.Prelude.{◌≡◌};
ghost use Rattle.std.specs.Ordering.{nat_cmp};
ghost use Rattle.base_values.specs.Equality.{IsContentEquality};
ghost use Rattle.input_db_files.specs.Durability.{durability_level};
ghost use Rattle.input_db_files.specs.declared.durability.Durability.{Durability};

use crate::durability::Durability;
use crate::inputs::{FileSourceRootInput, FileText, SourceRootInput};
use crate::nonce::Nonce;
use crate::roots::{LibraryRoots, LocalRoots};
use crate::source_root::SourceRoot;
use vfs_core::Change;

/// Two durabilities are equal exactly where they are one.
pub fn equality_of_durabilities()
    ensures { IsContentEquality ⟦<Durability as PartialEq>⟧.eq }
{}

/// `Low` is less than `Medium`, and that less than `High`.
pub fn order_of_durabilities()
    ensures { (x y : Durability) → ⟦<Durability as Ord>⟧.cmp x y
        ≡ nat_cmp (durability_level x) (durability_level y) }
{}

/// Two nonces are equal exactly where their numbers are.
pub fn equality_of_nonces()
    ensures { IsContentEquality ⟦<Nonce as PartialEq>⟧.eq }
{}

/// Two source roots are equal exactly where both or neither is a library, and they have the same files at
/// the same paths, in the same order.
pub fn equality_of_source_roots()
    ensures { IsContentEquality ⟦<SourceRoot as PartialEq>⟧.eq }
{
    vfs_sets::laws::equality_of_sets_is_content();
}

/// What is held of two files, or of two source roots, is equal exactly where all of it is.
pub fn equality_of_held_values()
    ensures texts { IsContentEquality ⟦<FileText as PartialEq>⟧.eq }
    ensures places { IsContentEquality ⟦<FileSourceRootInput as PartialEq>⟧.eq }
    ensures roots { IsContentEquality ⟦<SourceRootInput as PartialEq>⟧.eq }
{
    equality_of_durabilities();
    equality_of_source_roots();
}

/// Two lists of local roots, or of libraries, are equal exactly where they have the same roots.
pub fn equality_of_lists_of_roots()
    ensures local { IsContentEquality ⟦<LocalRoots as PartialEq>⟧.eq }
    ensures library { IsContentEquality ⟦<LibraryRoots as PartialEq>⟧.eq }
{}

/// What became of two files is equal exactly where it is of one kind, with the same contents and hash.
pub fn equality_of_changes()
    ensures { IsContentEquality ⟦<Change as PartialEq>⟧.eq }
{}
