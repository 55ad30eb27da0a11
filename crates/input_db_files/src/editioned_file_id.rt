//! A file, and the edition that it is read in.

ghost use Rattle.std.specs.Prelude.{◌≡◌};
ghost use Rattle.base_text_paths.specs.declared.edition.Edition.TheVariants.{Edition2024};
ghost use Rattle.input_db_files.specs.EditionedFileId.{edition_of_file, file_of};

use base_text_paths::{Edition, FileId, TryClone};
use std::alloc::{AllocError, Global};

/// A file that is read in an edition of Rust.
#[derive(Clone, Copy, Debug, PartialEq, Eq, PartialOrd, Ord, Hash)]
pub struct EditionedFileId {
    file_id: FileId,
    edition: Edition,
}

impl EditionedFileId {
    pub fn new(file_id: FileId, edition: Edition) -> Self
        ensures file { file_of result ≡ file_id }
        ensures edition { edition_of_file result ≡ edition }
    {
        EditionedFileId { file_id, edition }
    }

    /// A file of which nothing is said: it is read in the current edition.
    pub fn current_edition(file_id: FileId) -> Self
        ensures file { file_of result ≡ file_id }
        ensures edition { edition_of_file result ≡ Edition2024 }
    {
        EditionedFileId {
            file_id,
            edition: Edition::CURRENT,
        }
    }

    pub fn file_id(self) -> FileId
        ensures { result ≡ file_of self }
    {
        self.file_id
    }

    pub fn edition(self) -> Edition
        ensures { result ≡ edition_of_file self }
    {
        self.edition
    }

    /// Both.
    pub fn unpack(self) -> (FileId, Edition)
        ensures { result ≡ (file_of self, edition_of_file self) }
    {
        (self.file_id, self.edition)
    }
}

impl TryClone for EditionedFileId {
    fn try_clone(&self, _alloc: Global) -> Result<Self, AllocError> {
        Ok(*self)
    }
}
