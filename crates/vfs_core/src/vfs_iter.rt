//! The iteration over the files that exist. Contracts see it as the files that are left.

ghost use Rattle.std.specs.Prelude.{◌≡◌, ◌+◌, ◌≤◌, length};
ghost use Rattle.std.specs.Iterator.{at_most};
ghost use Rattle.std.specs.Map.Iter.{TakesFirst};
ghost use Rattle.vfs_core.specs.Files.{existing_files_from, numbered_path};

use crate::file_state::FileState;
use crate::vfs_path::VfsPath;
use base_text_paths::FileId;
use indexmap::map::Iter;
use std::marker::Model;

/// The existing files with their numbers, by number.
#[derive(Drop)]
pub struct VfsIter<'a> {
    entries: Iter<'a, VfsPath, FileState>,
    next: u32,
}

impl<'a> Model for VfsIter<'a> {
    ghost use Rattle.std.specs.Prelude.{◌+◌, ◌≤◌, ℕ, List, length};
    ghost use Rattle.vfs_core.specs.Files.{existing_files_from};
    ghost use Rattle.vfs_core.specs.VfsPath.{PathContent};

    ghost Value = { List (ℕ × PathContent) };

    ghost view = { λ a. existing_files_from a.next a.entries };

    ghost invariant = { λ a. a.next + length a.entries ≤ 0x7fff_ffff };
}

impl<'a> VfsIter<'a> {
    pub(crate) fn new(entries: Iter<'a, VfsPath, FileState>) -> Self
        requires { length entries ≤ 0x7fff_ffff }
        ensures { result ≡ existing_files_from 0 entries.entry }
    {
        VfsIter { entries, next: 0 }
    }
}

impl<'a> Iterator for VfsIter<'a> {
    type Item = (FileId, &'a VfsPath);

    ghost next_gives = { TakesFirst numbered_path };

    ghost remaining = { λ s. at_most (length s) };

    fn next(&mut self) -> Option<(FileId, &'a VfsPath)> {
        while let Some((path, state)) = self.entries.next() {
            let id = FileId::from_raw(self.next);
            self.next += 1;
            if state.is_existing() {
                return Some((id, path));
            }
        }
        None
    }
}
