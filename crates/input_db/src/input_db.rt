//! A database of files and crates that holds what it is given.

ghost use Rattle.std.specs.Prelude.{◌≡◌};
ghost use Rattle.std.specs.Option.{option_copied};
ghost use Rattle.input_db.specs.Database.{empty_database, writes_after};

use crate::crate_input::{Crate, CrateInput, UniqueCrateData};
use crate::crates_map::CratesMap;
use crate::source_database::SourceDatabase;
use base_text_paths::{FileId, Items};
use input_db_files::{
    Durability, FileSourceRootInput, FileText, Files, LibraryRoots, LocalRoots, Nonce, SourceRoot,
    SourceRootId, SourceRootInput,
};
use std::alloc::{AllocError, Global};
use std::collections::BTreeSet;
use std::marker::Model;
use vfs_core::AnchoredPath;

/// The inputs of a language server, in memory.
#[derive(Drop)]
pub struct InputDb {
    files: Files,
    local: LocalRoots,
    library: LibraryRoots,
    nonce: Nonce,
    crates: CratesMap,
    listed: Items<Crate>,
    listed_durability: Durability,
    writes: u64,
}

impl Model for InputDb {
    ghost use Rattle.input_db.specs.Database.{Database, ListsOwnCrates, database_code};

    ghost Value = { Database };

    ghost coded = { database_code };

    ghost view = { λ a. record {
      files = a.files;
      local = a.local;
      library = a.library;
      nonce = a.nonce;
      crates = a.crates;
      listed = a.listed;
      listed_durability = a.listed_durability;
      writes = a.writes;
    } };

    ghost invariant = { λ a. ListsOwnCrates a.crates a.listed };
}

impl InputDb {
    /// A database of no files and no crates. Its nonce distinguishes it from others.
    pub fn new(alloc: Global, nonce: Nonce) -> Self
        ensures { result ≡ empty_database nonce }
    {
        InputDb {
            files: Files::new(alloc),
            local: LocalRoots {
                roots: BTreeSet::new(alloc),
            },
            library: LibraryRoots {
                roots: BTreeSet::new(alloc),
            },
            nonce,
            crates: CratesMap::new(alloc),
            listed: Items::empty(alloc),
            listed_durability: Durability::Low,
            writes: 0,
        }
    }

    /// How often a crate was new or was given another input, or the list of crates was stored. It
    /// stays at the greatest u64.
    pub fn writes(&self) -> u64
        ensures { result ≡ self.now.writes }
    {
        self.writes
    }
}

// Each method keeps the trait's contract.
impl SourceDatabase for InputDb {
    ghost seen = { λ db. db };

    fn files(&self) -> &Files {
        &self.files
    }

    fn file_text(&self, id: FileId) -> &FileText {
        self.files.file_text(id)
    }

    fn source_root(&self, id: SourceRootId) -> &SourceRootInput {
        self.files.source_root(id)
    }

    fn file_source_root(&self, id: FileId) -> &FileSourceRootInput {
        self.files.file_source_root(id)
    }

    fn resolve_path(
        &self,
        alloc: Global,
        path: AnchoredPath<'_>,
    ) -> Result<Option<FileId>, AllocError> {
        let (anchor, path) = (path.anchor, path.path);
        let root = self.files.file_source_root(anchor).source_root_id;
        self.files
            .source_root(root)
            .source_root
            .resolve_path(alloc, AnchoredPath { anchor, path })
    }

    fn local_roots(&self) -> &LocalRoots {
        &self.local
    }

    fn library_roots(&self) -> &LibraryRoots {
        &self.library
    }

    fn nonce(&self) -> Nonce {
        self.nonce
    }

    fn set_file_text(&mut self, id: FileId, text: &str) -> Result<(), AllocError> {
        self.files.set_file_text(id, text)
    }

    fn set_file_text_with_durability(
        &mut self,
        id: FileId,
        text: &str,
        durability: Durability,
    ) -> Result<(), AllocError> {
        self.files
            .set_file_text_with_durability(id, text, durability)
    }

    fn set_source_root_with_durability(
        &mut self,
        id: SourceRootId,
        root: SourceRoot,
        durability: Durability,
    ) -> Result<(), AllocError> {
        self.files
            .set_source_root_with_durability(id, root, durability)
    }

    fn set_file_source_root_with_durability(
        &mut self,
        id: FileId,
        root: SourceRootId,
        durability: Durability,
    ) -> Result<(), AllocError> {
        self.files
            .set_file_source_root_with_durability(id, root, durability)
    }

    fn set_root_lists(&mut self, local: LocalRoots, library: LibraryRoots) {
        self.local = local;
        self.library = library;
    }

    fn crates_map(&self) -> &CratesMap {
        &self.crates
    }

    fn has_crate(&self, krate: Crate) -> bool {
        self.crates.has_crate(krate)
    }

    fn crate_input(&self, krate: Crate) -> &CrateInput {
        self.crates.input(krate)
    }

    fn put_crate(
        &mut self,
        unique: UniqueCrateData,
        input: CrateInput,
    ) -> Result<Crate, AllocError> {
        let writes = writes_after(self.writes, self.crates.input_under(&unique), &input);
        let krate = self.crates.put(unique, input)?;
        self.writes = writes;
        Ok(krate)
    }

    fn all_crates_list(&self) -> &[Crate] {
        self.listed.as_slice()
    }

    fn store_all_crates(&mut self, crates: Vec<Crate>, durability: Durability) {
        self.listed = Items::new(crates);
        self.listed_durability = durability;
        self.writes = self.writes.saturating_add(1);
    }
}

// How many writes there are when a crate is given an input.
fn writes_after(writes: u64, old: Option<&CrateInput>, input: &CrateInput) -> u64
    ensures { result ≡ writes_after writes (option_copied old.entry) input.now }
{
    match old {
        Some(old) if *old == *input => writes,
        _ => writes.saturating_add(1),
    }
}
