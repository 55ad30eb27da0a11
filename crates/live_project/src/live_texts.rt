//! The texts of the files that live, kept beside the table of files.

ghost use Rattle.std.specs.Prelude.{◌≡◌, ◌∷◌, ℕ, List, [], IfOk, IsErrOf, OnErr, OnOk, true};
ghost use Rattle.std.specs.Str.{is_utf8};
ghost use Rattle.vfs_core.specs.Files.{IsFullFor, bytes_of_contents, kind_of};
ghost use Rattle.vfs_core.specs.Texts.{contents_pass};
ghost use Rattle.vfs_core.specs.declared.marks.MarkKind.TheVariants.{Out};
ghost use Rattle.std.specs.Option.{option_copied};
ghost use Rattle.live_project.specs.LiveTexts.{AddsMark, row_text};

use crate::rows::Rows;
use base_text::{FileId, SharedText, Text, TryClone};
use std::alloc::{AllocError, Global};
use std::marker::Model;
use std::rc::Rc;
use vfs_core::{Vfs, VfsError, VfsPath};

/// The texts of the files that live, by file number. A copy takes one count and shares the table until one of
/// both is written.
#[derive(Drop)]
pub struct LiveTexts {
    rows: Rc<Rows>,
}

impl Model for LiveTexts {
    ghost use Rattle.std.specs.Prelude.{ℕ, List, Option};

    ghost Value = { List (Option (List ℕ)) };

    ghost view = { λ t. t.rows.value };
}

impl TryClone for LiveTexts {
    fn try_clone(&self, _alloc: Global) -> Result<Self, AllocError> {
        let rows = self.rows.clone()?;
        Ok(LiveTexts { rows })
    }
}

impl LiveTexts {
    /// No text.
    pub(crate) fn new(alloc: Global) -> Result<Self, AllocError>
        ensures { IfOk result (λ texts. texts ≡ []) }
    {
        let rows = Rc::new(alloc, Rows::new(alloc))?;
        Ok(LiveTexts { rows })
    }

    /// The text of the file of a number, where the file lives.
    pub fn text(&self, id: FileId) -> Option<&SharedText>
        ensures { option_copied result ≡ row_text self.now id }
    {
        self.rows.text(id)
    }

    /// Sets the text of a file, or deletes the file where there is none.
    pub(crate) fn put(
        &mut self,
        alloc: Global,
        files: &mut Vfs,
        path: VfsPath,
        text: Option<Text>,
    ) -> Result<(), VfsError>
        ensures ok { OnOk result (AddsMark files.old files.new self.old self.new
            (record { path = path; kind = kind_of text })) }
        ensures room { OnOk result (¬ (IsFullFor files.old path)) }
        ensures too_many { IsErrOf result VfsError.TooMany → IsFullFor files.old path }
        ensures err { OnErr result ((files.new ≡ files.old) × (self.new ≡ self.old)) }
    {
        put_shared(alloc, files, &mut self.rows, path, text)
    }

    /// Leaves a file out, for good.
    pub(crate) fn exclude(&mut self, files: &mut Vfs, path: VfsPath) -> Result<(), VfsError>
        ensures ok { OnOk result (AddsMark files.old files.new self.old self.new
            (record { path = path; kind = Out })) }
        ensures room { OnOk result (¬ (IsFullFor files.old path)) }
        ensures too_many { IsErrOf result VfsError.TooMany → IsFullFor files.old path }
        ensures err { OnErr result ((files.new ≡ files.old) × (self.new ≡ self.old)) }
    {
        exclude_shared(files, &mut self.rows, path)
    }
}

// Sets the text of a file in rows that may be shared.
fn put_shared(
    alloc: Global,
    files: &mut Vfs,
    rows: &mut Rc<Rows>,
    path: VfsPath,
    text: Option<Text>,
) -> Result<(), VfsError>
    ensures ok { OnOk result (AddsMark files.old files.new rows.old.value rows.new.value
        (record { path = path; kind = kind_of text })) }
    ensures room { OnOk result (¬ (IsFullFor files.old path)) }
    ensures too_many { IsErrOf result VfsError.TooMany → IsFullFor files.old path }
    ensures err { OnErr result ((files.new ≡ files.old) × (rows.new.value ≡ rows.old.value)) }
{
    let shared = share(alloc, &text)?;
    let rows = Rc::make_mut(rows)?;
    rows.put(files, path, contents_of(text), shared)
}

// Leaves a file out of rows that may be shared.
fn exclude_shared(files: &mut Vfs, rows: &mut Rc<Rows>, path: VfsPath) -> Result<(), VfsError>
    ensures ok { OnOk result (AddsMark files.old files.new rows.old.value rows.new.value
        (record { path = path; kind = Out })) }
    ensures room { OnOk result (¬ (IsFullFor files.old path)) }
    ensures too_many { IsErrOf result VfsError.TooMany → IsFullFor files.old path }
    ensures err { OnErr result ((files.new ≡ files.old) × (rows.new.value ≡ rows.old.value)) }
{
    let rows = Rc::make_mut(rows)?;
    rows.exclude(files, path)
}

// A copy of a text that is shared from then on.
fn share(alloc: Global, text: &Option<Text>) -> Result<Option<SharedText>, AllocError>
    ensures { IfOk result (λ shared. shared ≡ text.now) }
{
    match text {
        Some(text) => {
            let shared = SharedText::of_str(alloc, text.as_str())?;
            Ok(Some(shared))
        }
        None => Ok(None),
    }
}

// The bytes of a text.
#[tactic(auto, using(crate::proofs::SharedRows::valid_text))]
fn contents_of(text: Option<Text>) -> Option<Vec<u8>>
    ensures same { bytes_of_contents result ≡ text }
    ensures valid { contents_pass is_utf8 (bytes_of_contents result) ≡ true }
{
    match text {
        Some(text) => Some(text.into_inner().into_bytes()),
        None => None,
    }
}
