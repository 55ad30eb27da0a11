//! A database of files and crates, as its users see it.

ghost use Rattle.std.specs.Prelude.{◌≡◌, ◌↔◌, ◌<◌, IfOk, IsSome, IsTrue, OnErr, OnOk, Some, length};
ghost use Rattle.std.specs.List.{All};
ghost use Rattle.input_db.specs.Database.{Database, with_crate_input, with_crate_list, with_files, with_lists};
ghost use Rattle.input_db_files.specs.Files.{SetsFileRoot, SetsRoot, SetsText, kept_durability, stored_place};
ghost use Rattle.input_db_files.specs.Files.{stored_root, stored_text};
ghost use Rattle.input_db_files.specs.Files.{file_root_of, resolved_from, source_root_at, root_of_file, text_of_file};
ghost use Rattle.input_db_files.specs.Files.{with_file_root, with_root, with_same_durability, with_text};
ghost use Rattle.input_db.specs.Identity.{IsTable, PutsCrate, crate_for, input_in, named_in, names_of};

use crate::crate_input::{Crate, CrateInput, UniqueCrateData};
use crate::crates_map::CratesMap;
use base_text_paths::FileId;
use input_db_files::{
    Durability, FileSourceRootInput, FileText, Files, LibraryRoots, LocalRoots, Nonce, SourceRoot,
    SourceRootId, SourceRootInput,
};
use std::alloc::{AllocError, Global};
use vfs_core::AnchoredPath;

/// The inputs of a language server: texts, the source roots that files are in, and crates.
pub trait SourceDatabase {
    // What the database holds.
    ghost seen: { Self → Database };

    fn files(&self) -> &Files
        ensures { result.now ≡ (seen self.now).files };

    /// The text of a file that has one, as `has_text` of `files` reports.
    fn file_text(&self, id: FileId) -> &FileText
        requires { IsSome (text_of_file (seen self.now).files id) }
        ensures { text_of_file (seen self.now).files id ≡ Some result.now };

    /// A source root that is there, as `has_root` of `files` reports.
    fn source_root(&self, id: SourceRootId) -> &SourceRootInput
        requires { IsSome (source_root_at (seen self.now).files id) }
        ensures { source_root_at (seen self.now).files id ≡ Some result.now };

    /// The source root of a file that has one, as `has_file_root` of `files` reports.
    fn file_source_root(&self, id: FileId) -> &FileSourceRootInput
        requires { IsSome (file_root_of (seen self.now).files id) }
        ensures { file_root_of (seen self.now).files id ≡ Some result.now };

    /// The file at a path that is relative to one that has a source root. It is looked for in that root.
    fn resolve_path(
        &self,
        alloc: Global,
        path: AnchoredPath<'_>,
    ) -> Result<Option<FileId>, AllocError>
        requires { IsSome (root_of_file (seen self.now).files path.anchor) }
        ensures { IfOk result (λ file. file
            ≡ resolved_from (seen self.now).files path.entry.anchor path.entry.path.now) };

    fn local_roots(&self) -> &LocalRoots
        ensures { result.now ≡ (seen self.now).local };

    fn library_roots(&self) -> &LibraryRoots
        ensures { result.now ≡ (seen self.now).library };

    fn nonce(&self) -> Nonce
        ensures { result ≡ (seen self.now).nonce };

    /// Sets a text. It is as durable as the one that was there, and `Low` where none was.
    fn set_file_text(&mut self, id: FileId, text: &str) -> Result<(), AllocError>
        ensures ok { OnOk result (seen self.new
            ≡ with_files (seen self.old) (with_same_durability (seen self.old).files id text.now)) }
        ensures alone { OnOk result (SetsText (seen self.old).files (seen self.new).files id
            (stored_text id text.now (kept_durability (text_of_file (seen self.old).files id)))) }
        ensures err { OnErr result (seen self.new ≡ seen self.old) };

    fn set_file_text_with_durability(
        &mut self,
        id: FileId,
        text: &str,
        durability: Durability,
    ) -> Result<(), AllocError>
        ensures ok { OnOk result (seen self.new
            ≡ with_files (seen self.old) (with_text (seen self.old).files id text.now durability)) }
        ensures alone { OnOk result (SetsText (seen self.old).files (seen self.new).files id
            (stored_text id text.now durability)) }
        ensures err { OnErr result (seen self.new ≡ seen self.old) };

    fn set_source_root_with_durability(
        &mut self,
        id: SourceRootId,
        root: SourceRoot,
        durability: Durability,
    ) -> Result<(), AllocError>
        ensures ok { OnOk result (seen self.new
            ≡ with_files (seen self.old) (with_root (seen self.old).files id root durability)) }
        ensures alone { OnOk result (SetsRoot (seen self.old).files (seen self.new).files id
            (stored_root root durability)) }
        ensures err { OnErr result (seen self.new ≡ seen self.old) };

    fn set_file_source_root_with_durability(
        &mut self,
        id: FileId,
        root: SourceRootId,
        durability: Durability,
    ) -> Result<(), AllocError>
        ensures ok { OnOk result (seen self.new
            ≡ with_files (seen self.old)
            (with_file_root (seen self.old).files id root durability)) }
        ensures alone { OnOk result (SetsFileRoot (seen self.old).files (seen self.new).files id
            (stored_place root durability)) }
        ensures err { OnErr result (seen self.new ≡ seen self.old) };

    /// Says which roots are local, and which are libraries.
    fn set_root_lists(&mut self, local: LocalRoots, library: LibraryRoots)
        ensures { seen self.new ≡ with_lists (seen self.old) local library };

    /// All crates that the database was ever given, by their identities.
    fn crates_map(&self) -> &CratesMap
        ensures { result.now ≡ (seen self.now).crates };

    /// Whether the database was ever given a crate.
    fn has_crate(&self, krate: Crate) -> bool
        ensures { IsTrue result ↔ (krate < length (seen self.now).crates) };

    /// What is held of a crate that is there, as `has_crate` reports.
    fn crate_input(&self, krate: Crate) -> &CrateInput
        requires { krate < length (seen self.now).crates }
        ensures { input_in (seen self.now).crates krate ≡ Some result.now };

    /// Gives the crate of an identity an input, in place of the one that it had. An identity that has no
    /// crate is given one, greater than all before. Each crate that the identity or the input names is
    /// there already, as `has_crate` reports.
    fn put_crate(&mut self, unique: UniqueCrateData, input: CrateInput) -> Result<Crate, AllocError>
        requires identity { All (λ named. named < length (seen self.old).crates) (names_of unique) }
        requires input { All (λ named. named < length (seen self.old).crates)
            (named_in input.crate_data) }
        ensures answer { IfOk result (λ krate. krate ≡ crate_for (seen self.old).crates unique) }
        ensures ok { OnOk result (seen self.new ≡ with_crate_input (seen self.old) unique input) }
        ensures alone { IfOk result (PutsCrate (seen self.old).crates (seen self.new).crates
            unique input) }
        ensures err { OnErr result (seen self.new ≡ seen self.old) };

    /// The crates that there are now, in the order in which they were stored. `set_in_db` stores each after
    /// those that it depends on. They are of the table of all crates.
    fn all_crates_list(&self) -> &[Crate]
        ensures list { result.now ≡ (seen self.now).listed }
        ensures known { All (λ krate. krate < length (seen self.now).crates)
            (seen self.now).listed }
        ensures table { IsTable (seen self.now).crates };

    /// Says which crates there are now. Each of them is there already, as `has_crate` reports.
    fn store_all_crates(&mut self, crates: Vec<Crate>, durability: Durability)
        requires { All (λ krate. krate < length (seen self.old).crates) crates.items }
        ensures { seen self.new ≡ with_crate_list (seen self.old) crates.items durability };
}
