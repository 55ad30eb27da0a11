//! What is known of one file.

ghost use Rattle.std.specs.Prelude.{◌≡◌, Some};
ghost use Rattle.std.specs.Option.{option_map};
ghost use Rattle.vfs_core.specs.FileState.{change_made, state_after, state_left};
ghost use Rattle.vfs_core.specs.declared.file_state.FileState.TheVariants.{Exists};

use crate::changed_file::Change;
use crate::hash::content_hash;
use base_text_paths::Items;

/// The state of a file. Contents are known by their hash alone.
#[derive(Clone, Copy, Debug, PartialEq, Eq)]
pub enum FileState {
    /// The file exists, with contents of this hash.
    Exists(u64),
    /// The file does not exist.
    Deleted,
    /// The file is left out, whatever comes for it.
    Excluded,
}

impl FileState {
    ghost use Rattle.vfs_core.specs.FileState.{change_made, is_existing, visibility, state_after, state_left};

    /// The change that these contents make of the file, or a deletion where there are none.
    pub(crate) fn change(self, contents: Option<Vec<u8>>) -> Option<Change>
        ensures change { result ≡ change_made self (option_map (λ v. v.items) contents) }
        ensures state { state_left self result
            ≡ state_after self (option_map (λ v. v.items) contents) }
    {
        match (self, contents) {
            (FileState::Excluded, _) => None,
            (FileState::Deleted, None) => None,
            (FileState::Deleted, Some(bytes)) => {
                let hash = content_hash(bytes.as_slice());
                Some(Change::Create(Items::new(bytes), hash))
            }
            (FileState::Exists(_), None) => Some(Change::Delete),
            (FileState::Exists(before), Some(bytes)) => modification(before, bytes),
        }
    }

    /// How a look-up shows a file of this state, if at all.
    pub(crate) fn visibility(&self) -> Option<FileExcluded>
        ensures { result ≡ visibility self.now }
    {
        match self {
            FileState::Exists(_) => Some(FileExcluded::No),
            FileState::Deleted => None,
            FileState::Excluded => Some(FileExcluded::Yes),
        }
    }

    pub(crate) fn is_existing(&self) -> bool
        ensures { result ≡ is_existing self.now }
    {
        matches!(self, FileState::Exists(_))
    }
}

/// The change from contents of a hash to others. Contents of equal hash are none.
fn modification(before: u64, bytes: Vec<u8>) -> Option<Change>
    ensures change { result ≡ change_made (Exists before) (Some bytes.items) }
    ensures state { state_left (Exists before) result
        ≡ state_after (Exists before) (Some bytes.items) }
{
    let hash = content_hash(bytes.as_slice());
    if hash == before {
        None
    } else {
        Some(Change::Modify(Items::new(bytes), hash))
    }
}

/// Whether a file that was looked up is left out.
#[derive(Clone, Copy, Debug, PartialEq, Eq)]
pub enum FileExcluded {
    Yes,
    No,
}
