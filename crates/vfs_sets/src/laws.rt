//! Laws that users of sets of files and of placement rest on. Each is a function that changes nothing and
//! answers nothing: its contract is the law.

ghost use Rattle.std.specs.Prelude.{◌≡◌, ◌↔◌, ◌+◌, ◌*◌, ◌<◌, ◌≤◌, ℕ, List, [], IsTrue, length};
ghost use Rattle.std.specs.List.{count_by, sum_by};
ghost use Rattle.base_text_paths.specs.Paths.{is_slash, IsAbsolute, IsClean};
ghost use Rattle.base_values.specs.Equality.{IsContentEquality};
ghost use Rattle.vfs_core.specs.RealPath.{is_text_prefix};
ghost use Rattle.vfs_core.specs.VfsPath.{PathContent};
ghost use Rattle.vfs_sets.specs.Placement.{begins_text, place_of, placed_text, FitsNoRoot, IsPlaceOf};
ghost use Rattle.vfs_sets.specs.Probes.{most_probes};

use crate::file_set::FileSet;

/// Two sets of files are equal exactly where they hold the same files at the same paths, both ways, in the
/// same order.
#[tactic(auto, using(crate::proofs::LawLemmas::sets_are_equal))]
pub fn equality_of_sets_is_content()
    ensures { IsContentEquality ⟦<FileSet as PartialEq>⟧.eq }
{}

/// The set that is computed for a path is the one that takes it: none of its roots that fit is longer, and
/// no lesser set has one as long. It is the number of sets exactly where no root fits.
pub fn placement_is_what_is_computed()
    ensures set { (sets : List (List PathContent)) (path : PathContent) (number : ℕ)
        → IsPlaceOf sets path number
        ↔ ((number < length sets) × (place_of sets path ≡ number)) }
    ensures none { (sets : List (List PathContent)) (path : PathContent)
        → FitsNoRoot sets path ↔ (place_of sets path ≡ length sets) }
{}

/// Of clean texts, as all real paths have, a root's begins another by whole components exactly where its components come first
/// there.
pub fn roots_match_by_components()
    ensures { (root : List ℕ) (text : List ℕ) → IsClean root → IsClean text
        → begins_text root text ≡ is_text_prefix root text }
{}

/// A virtual root of the empty text, which a pop of `/x` leaves, begins every text that a virtual path has: each is empty or
/// begins with a slash.
pub fn the_empty_root_begins_each_text()
    ensures of_none { IsTrue (begins_text [] []) }
    ensures of_absolute { (text : List ℕ) → IsAbsolute text → IsTrue (begins_text [] text) }
{}

/// What is counted at most while files are placed is at most the sum of either bound: one more than each text has bytes, and
/// one more than twice its slashes.
pub fn few_prefixes_are_tried()
    ensures by_bytes { (files : List (ℕ × PathContent)) → most_probes files
        ≤ sum_by (λ file. length (placed_text file.1) + 1) files }
    ensures by_slashes { (files : List (ℕ × PathContent)) → most_probes files
        ≤ sum_by (λ file. 2 * count_by is_slash (placed_text file.1) + 1) files }
{}
