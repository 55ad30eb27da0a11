//! The iteration over the files of a set. Contracts see it as the numbers that are left.

ghost use Rattle.std.specs.Prelude.{◌≡◌, length};
ghost use Rattle.std.specs.Iterator.{at_most};
ghost use Rattle.std.specs.Map.{keys_of};
ghost use Rattle.std.specs.Map.Iter.{TakesFirst};
ghost use Rattle.vfs_sets.specs.FileSet.{number_shown};

use base_text_paths::FileId;
use indexmap::map;
use std::marker::Model;
use vfs_core::VfsPath;

/// The files of a set, in order of first insertion.
#[derive(Drop)]
pub struct FileSetIter<'a> {
    left: Left<'a>,
}

/// The files that are left, with their paths.
#[derive(Drop)]
enum Left<'a> {
    Rows(&'a [(FileId, VfsPath)]),
    Entries(map::Iter<'a, FileId, VfsPath>),
}

impl<'a> Model for FileSetIter<'a> {
    ghost use Rattle.std.specs.Prelude.{ℕ, List};
    ghost use Rattle.vfs_sets.specs.SetContent.{files_left};

    ghost Value = { List ℕ };

    ghost view = { λ a. files_left a.left };
}

impl<'a> FileSetIter<'a> {
    pub(crate) fn of_rows(rows: &'a [(FileId, VfsPath)]) -> Self
        ensures { result ≡ keys_of rows.now }
    {
        FileSetIter {
            left: Left::Rows(rows),
        }
    }

    pub(crate) fn of_entries(entries: map::Iter<'a, FileId, VfsPath>) -> Self
        ensures { result ≡ keys_of entries.entry }
    {
        FileSetIter {
            left: Left::Entries(entries),
        }
    }
}

impl<'a> Iterator for FileSetIter<'a> {
    type Item = FileId;

    ghost next_gives = { TakesFirst number_shown };

    ghost remaining = { λ s. at_most (length s) };

    fn next(&mut self) -> Option<FileId> {
        match &mut self.left {
            Left::Rows(rows) => {
                let ((file, _), others) = rows.split_first()?;
                *rows = others;
                Some(*file)
            }
            Left::Entries(entries) => {
                let (file, _) = entries.next()?;
                Some(*file)
            }
        }
    }
}
