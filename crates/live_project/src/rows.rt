//! The rows of the table of texts. Each file number has one, with the text of its file where that lives.

ghost use Rattle.std.specs.Prelude.{◌≡◌, ◌++◌, ◌<◌, ◌∷◌, [], IsErrOf, OnErr, OnOk, None, true, vec_len, vec_capacity};
ghost use Rattle.std.proofs.Common.{set};
ghost use Rattle.vfs_core.specs.Files.{IsFullFor, bytes_of_contents, is_change_at, path_number};
ghost use Rattle.std.specs.Option.{option_copied};
ghost use Rattle.live_project.specs.LiveTexts.{TakesContents, TakesExclusion, row_text, with_row_text};

use base_text::{FileId, SharedText, TryClone};
use std::alloc::{AllocError, Global};
use std::marker::Model;
use vfs_core::{Vfs, VfsError, VfsPath};

/// A row for each file number, with the text of a file that lives. A copy shares the texts.
#[derive(Drop)]
pub(crate) struct Rows {
    texts: Vec<Option<SharedText>>,
}

impl Model for Rows {
    ghost use Rattle.std.specs.Prelude.{ℕ, List, Option};

    ghost Value = { List (Option (List ℕ)) };

    ghost view = { λ r. r.texts.items };
}

impl Clone for Rows {
    ghost use Rattle.std.specs.Prelude.{◌≡◌};

    ghost is_clone = { λ rows copy. copy ≡ rows };

    fn clone(&self) -> Result<Self, AllocError> {
        let alloc = *self.texts.allocator();
        let mut texts = Vec::new(alloc);
        for text in &self.texts {
            texts.push(text.try_clone(alloc)?)?;
        }
        Ok(Rows { texts })
    }
}

impl Rows {
    /// No row.
    pub(crate) fn new(alloc: Global) -> Self
        ensures { result ≡ [] }
    {
        Rows {
            texts: Vec::new(alloc),
        }
    }

    /// The text of the file of a number, where the file lives.
    pub(crate) fn text(&self, id: FileId) -> Option<&SharedText>
        ensures { option_copied result ≡ row_text self.now id }
    {
        match self.texts.get(id.index() as usize) {
            None => None,
            Some(text) => text.as_ref(),
        }
    }

    /// Sets the contents of a file, and stores its text where that changed something. Room is made first.
    pub(crate) fn put(
        &mut self,
        files: &mut Vfs,
        path: VfsPath,
        contents: Option<Vec<u8>>,
        text: Option<SharedText>,
    ) -> Result<(), VfsError>
        ensures rows { OnOk result (self.new ≡ with_row_text self.old (path_number files.old path)
            (is_change_at files.old path (bytes_of_contents contents)) text) }
        ensures files { OnOk result
            (TakesContents files.old files.new path (bytes_of_contents contents)) }
        ensures room { OnOk result (¬ (IsFullFor files.old path)) }
        ensures too_many { IsErrOf result VfsError.TooMany → IsFullFor files.old path }
        ensures err { OnErr result ((files.new ≡ files.old) × (self.new ≡ self.old)) }
    {
        put_row(files, &mut self.texts, path, contents, text)
    }

    /// Leaves a file out, and empties its row. Room is made first.
    pub(crate) fn exclude(&mut self, files: &mut Vfs, path: VfsPath) -> Result<(), VfsError>
        ensures rows { OnOk result (self.new ≡ with_row_text self.old
            (path_number files.old path) true None) }
        ensures files { OnOk result (TakesExclusion files.old files.new path) }
        ensures room { OnOk result (¬ (IsFullFor files.old path)) }
        ensures too_many { IsErrOf result VfsError.TooMany → IsFullFor files.old path }
        ensures err { OnErr result ((files.new ≡ files.old) × (self.new ≡ self.old)) }
    {
        exclude_row(files, &mut self.texts, path)
    }
}

// Sets the contents of a file, and stores its text in the rows.
fn put_row(
    files: &mut Vfs,
    rows: &mut Vec<Option<SharedText>>,
    path: VfsPath,
    contents: Option<Vec<u8>>,
    text: Option<SharedText>,
) -> Result<(), VfsError>
    ensures rows { OnOk result (rows.new.items ≡ with_row_text rows.old.items
        (path_number files.old path)
        (is_change_at files.old path (bytes_of_contents contents)) text) }
    ensures files { OnOk result
        (TakesContents files.old files.new path (bytes_of_contents contents)) }
    ensures room { OnOk result (¬ (IsFullFor files.old path)) }
    ensures too_many { IsErrOf result VfsError.TooMany → IsFullFor files.old path }
    ensures err { OnErr result ((files.new ≡ files.old) × (rows.new.items ≡ rows.old.items)) }
{
    rows.reserve(1)?;
    let number = files.number_of(&path);
    let changed = files.set_file_contents(path, contents)?;
    match number {
        Some(id) => {
            if changed {
                store(rows, id.index() as usize, text);
            }
        }
        None => push_row(rows, if changed { text } else { None }),
    }
    Ok(())
}

// Leaves a file out, and empties its row.
fn exclude_row(
    files: &mut Vfs,
    rows: &mut Vec<Option<SharedText>>,
    path: VfsPath,
) -> Result<(), VfsError>
    ensures rows { OnOk result (rows.new.items
        ≡ with_row_text rows.old.items (path_number files.old path) true None) }
    ensures files { OnOk result (TakesExclusion files.old files.new path) }
    ensures room { OnOk result (¬ (IsFullFor files.old path)) }
    ensures too_many { IsErrOf result VfsError.TooMany → IsFullFor files.old path }
    ensures err { OnErr result ((files.new ≡ files.old) × (rows.new.items ≡ rows.old.items)) }
{
    rows.reserve(1)?;
    let number = files.number_of(&path);
    files.insert_excluded_file(path)?;
    match number {
        Some(id) => store(rows, id.index() as usize, None),
        None => push_row(rows, None),
    }
    Ok(())
}

// Stores a text in the row of a number.
fn store(rows: &mut Vec<Option<SharedText>>, number: usize, text: Option<SharedText>)
    ensures { rows.new.items ≡ set rows.old.items number text }
{
    if number < rows.len() {
        rows[number] = text;
    }
}

// One row more, for which there is room.
fn push_row(rows: &mut Vec<Option<SharedText>>, text: Option<SharedText>)
    requires { vec_len rows.old < vec_capacity rows.old }
    ensures { rows.new.items ≡ rows.old.items ++ text ∷ [] }
{
    match rows.push(text) {
        Ok(()) => {}
        Err(_) => unreachable!(),
    }
}
