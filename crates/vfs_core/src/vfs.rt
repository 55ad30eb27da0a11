//! The file system: each path has a number for good, and a state. The limit bounds how many paths may come.

ghost use Rattle.std.specs.Prelude.{◌≡◌, ◌≤◌, ◌<◌, ◌↔◌, ℕ, List, Option, [], Some, length};
ghost use Rattle.std.specs.Prelude.{IfErr, IfOk, IfSome, IsTrue, OnErr, OnOk};
ghost use Rattle.std.specs.Map.Iter.{ShowsInOrder};
ghost use Rattle.std.specs.Result.{IsErrOf};
ghost use Rattle.indexmap.specs.IndexMap.{spare};
ghost use Rattle.vfs_core.specs.Batch.{with_change};
ghost use Rattle.vfs_core.specs.Files.{bytes_of_contents, existence_at, existing_files, is_change_at, lookup_result, no_files};
ghost use Rattle.vfs_core.specs.Files.{number_for, path_number, numbered_path, path_at, paths_of, state_at, with_contents, with_state};
ghost use Rattle.vfs_core.specs.Calls.{LeavesOut, SetsContents, TakesBatch};
ghost use Rattle.vfs_core.specs.Files.{Follows, Gathers, GivesBatch, HasRoomFor, IsFullFor, KeepsCalls, KeepsMarks};
ghost use Rattle.vfs_core.specs.Files.{KeepsNumbers, ListsLive};
ghost use Rattle.vfs_core.specs.Texts.{BringsTo, KeepsBringing};
ghost use Rattle.vfs_core.specs.declared.file_state.FileState.TheVariants.{Excluded};

use crate::changed_file::{Change, ChangedFile};
use crate::file_state::{FileExcluded, FileState};
use crate::vfs_iter::VfsIter;
use crate::vfs_path::VfsPath;
use base_text_paths::FileId;
use indexmap::IndexMap;
use std::alloc::{AllocError, AllocFailed, Global};
use std::error::Error;
use std::marker::Model;
use std::{fmt, mem};

/// Why a path was not taken.
#[derive(Clone, Copy, Debug, PartialEq, Eq)]
pub enum VfsError {
    /// The path is new, and the limit is reached.
    TooMany,
    OutOfMemory,
}

impl From<AllocError> for VfsError {
    ghost use Rattle.std.specs.Prelude.{◌≡◌};
    ghost use Rattle.vfs_core.specs.declared.vfs.VfsError.TheVariants.{OutOfMemory};

    ghost from_gives = { λ _ e. e ≡ OutOfMemory };

    fn from(_error: AllocError) -> Self {
        VfsError::OutOfMemory
    }
}

impl<T: Drop> From<AllocFailed<T>> for VfsError {
    ghost use Rattle.std.specs.Prelude.{◌≡◌};
    ghost use Rattle.vfs_core.specs.declared.vfs.VfsError.TheVariants.{OutOfMemory};

    ghost from_gives = { λ _ e. e ≡ OutOfMemory };

    fn from(_error: AllocFailed<T>) -> Self {
        VfsError::OutOfMemory
    }
}

impl fmt::Display for VfsError {
    ghost use Rattle.std.specs.Prelude.{Some};
    ghost use Rattle.vfs_core.specs.VfsError.{vfs_error_text};

    ghost output = { λ error. Some (vfs_error_text error) };

    fn fmt<W: fmt::Write>(&self, f: &mut fmt::Formatter<W>) -> fmt::Result {
        f.write_str(match self {
            VfsError::TooMany => "TooMany",
            VfsError::OutOfMemory => "OutOfMemory",
        })
    }
}

impl Error for VfsError {}

/// The paths that were mentioned, in order, each with its state, and what has changed since that was last taken.
#[derive(Drop)]
pub struct Vfs {
    alloc: Global,
    limit: u32,
    entries: IndexMap<VfsPath, FileState>,
    batch: IndexMap<FileId, ChangedFile>,
}

impl Model for Vfs {
    ghost use Rattle.vfs_core.specs.Files.{Files, IsWellMade};

    ghost Value = { Files };

    ghost view = { λ a. record {
      limit = a.limit;
      entries = a.entries.entries;
      batch = a.batch.entries;
    } };

    ghost invariant = { λ a. IsWellMade a.limit a.entries.entries };
}

impl Vfs {
    #[tactic(auto, using(crate::proofs::MarkLemmas::kept_text_none, crate::proofs::BatchLemmas::batch_of_none, crate::proofs::TextLemmas::BringsTo_none))]
    /// A file system that knows no path.
    pub fn new(alloc: Global, limit: u32) -> Self
        requires { limit ≤ 0x7fff_ffff }
        ensures empty { result ≡ no_files limit }
        ensures follows { Follows result [] }
        ensures gathers { Gathers result [] }
        ensures brings { (known : ℕ → Option (List ℕ)) → BringsTo result known [] }
    {
        Vfs {
            alloc,
            limit,
            entries: IndexMap::new(alloc),
            batch: IndexMap::new(alloc),
        }
    }

    /// A lower limit than there are paths keeps them, and takes no more.
    pub fn set_limit(&mut self, limit: u32)
        requires { limit ≤ 0x7fff_ffff }
        ensures limit { self.new ≡ record self.old { limit = limit } }
        ensures follows { KeepsMarks self.old self.new }
        ensures gathers { KeepsCalls self.old self.new }
        ensures brings { KeepsBringing self.old self.new }
    {
        self.limit = limit;
    }

    #[tactic(auto, using(crate::proofs::FileLemmas::keys_insert_entry, crate::proofs::FileLemmas::KeepsNumbers_with))]
    /// Sets a file's contents, or deletes it where there are none. Returns whether that is a change.
    pub fn set_file_contents(
        &mut self,
        path: VfsPath,
        contents: Option<Vec<u8>>,
    ) -> Result<bool, VfsError>
        ensures changed { IfOk result (λ answer. answer
            ≡ is_change_at self.old path (bytes_of_contents contents)) }
        ensures files { OnOk result
            (self.new ≡ with_contents self.old path (bytes_of_contents contents)) }
        ensures effects { OnOk result
            (SetsContents self.old self.new path (bytes_of_contents contents)) }
        ensures stable { KeepsNumbers self.old self.new }
        ensures too_many { IsErrOf result VfsError.TooMany ↔ IsFullFor self.old path }
        ensures err { OnErr result (self.new ≡ self.old) }
    {
        let (id, old) = self.file_for(&path)?;
        match old.change(contents) {
            None => {
                self.entries.insert(path, old)?;
                Ok(false)
            }
            Some(change) => {
                self.batch.reserve(1)?;
                self.entries.insert(path, change.state())?;
                add_change(&mut self.batch, id, change);
                Ok(true)
            }
        }
    }

    #[tactic(auto, using(crate::proofs::FileLemmas::keys_insert_entry))]
    /// Leaves a file out for good. A change of it that was not taken yet stays.
    pub fn insert_excluded_file(&mut self, path: VfsPath) -> Result<(), VfsError>
        ensures files { OnOk result (self.new ≡ with_state self.old path Excluded) }
        ensures effects { OnOk result (LeavesOut self.old self.new path) }
        ensures stable { KeepsNumbers self.old self.new }
        ensures gathers { KeepsCalls self.old self.new }
        ensures too_many { IsErrOf result VfsError.TooMany ↔ IsFullFor self.old path }
        ensures err { OnErr result (self.new ≡ self.old) }
    {
        self.file_for(&path)?;
        self.entries.insert(path, FileState::Excluded)?;
        Ok(())
    }

    /// The number that a path has, or takes, and the state of its file.
    fn file_for(&self, path: &VfsPath) -> Result<(FileId, FileState), VfsError>
        ensures file { IfOk result (λ file. file
            ≡ (number_for self.now path.now, state_at self.now path.now)) }
        ensures room { OnOk result (¬ (IsFullFor self.now path.now)) }
        ensures fits { OnOk result (HasRoomFor self.now path.now) }
        ensures full { IfErr result (λ e. e ≡ VfsError.TooMany) }
        ensures full_only { OnErr result (IsFullFor self.now path.now) }
    {
        match self.entries.get_full(path) {
            Some((index, _, state)) => Ok((FileId::from_raw(index as u32), *state)),
            None if self.entries.len() >= self.limit as usize => Err(VfsError::TooMany),
            None => {
                let next = self.entries.len() as u32;
                Ok((FileId::from_raw(next), FileState::Deleted))
            }
        }
    }

    /// The changes since they were last taken: one for each changed file, in order of first change.
    pub fn take_changes(&mut self) -> IndexMap<FileId, ChangedFile>
        ensures taken { result.entries ≡ self.old.batch }
        ensures emptied { self.new ≡ record self.old { batch = [] } }
        ensures batch { GivesBatch self.old result.entries }
        ensures effects { TakesBatch self.old self.new }
    {
        mem::replace(&mut self.batch, IndexMap::new(self.alloc))
    }

    /// The number of a path that was mentioned, also of one that is deleted or left out now.
    pub fn number_of(&self, path: &VfsPath) -> Option<FileId>
        ensures { result ≡ path_number self.now path.now }
    {
        let (index, _, _) = self.entries.get_full(path)?;
        Some(FileId::from_raw(index as u32))
    }

    #[tactic(auto, using(crate::proofs::NumberLemmas::path_of_number))]
    /// The number of a path that exists, or that is left out. A deleted file has none to show.
    pub fn file_id(&self, path: &VfsPath) -> Option<(FileId, FileExcluded)>
        ensures found { result ≡ lookup_result self.now path.now }
        ensures path { IfSome result (λ file. path_at self.now file.0 ≡ Some path.now) }
    {
        let (index, _, state) = self.entries.get_full(path)?;
        let excluded = state.visibility()?;
        Some((FileId::from_raw(index as u32), excluded))
    }

    /// Whether a path has this number.
    pub fn has(&self, id: FileId) -> bool
        ensures { IsTrue result ↔ (id < length (paths_of self.now)) }
    {
        (id.index() as usize) < self.entries.len()
    }

    #[tactic(auto, using(crate::proofs::NumberLemmas::number_of_path))]
    /// The path of a number, for good.
    pub fn file_path(&self, id: FileId) -> &VfsPath
        requires { id < length (paths_of self.now) }
        ensures path { path_at self.now id ≡ Some result.now }
        ensures number { path_number self.now result.now ≡ Some id }
    {
        let (path, _) = self.entries.get_index(id.index() as usize).unwrap();
        path
    }

    /// Whether the file of a number exists now.
    pub fn exists(&self, id: FileId) -> bool
        requires { id < length (paths_of self.now) }
        ensures { existence_at self.now id ≡ Some result }
    {
        let (_, state) = self.entries.get_index(id.index() as usize).unwrap();
        state.is_existing()
    }

    /// The existing files, by number.
    pub fn iter(&self) -> VfsIter<'_>
        ensures rest { result ≡ existing_files self.now }
        ensures live { ListsLive self.now result }
        ensures runs { ShowsInOrder numbered_path }
    {
        VfsIter::new(self.entries.iter())
    }
}

/// Puts a change into a batch that has room, merged with an earlier change of the file.
fn add_change(batch: &mut IndexMap<FileId, ChangedFile>, id: FileId, change: Change)
    requires { 0 < spare batch.old }
    ensures { batch.new.entries ≡ with_change batch.old.entries id change }
{
    let earlier = match batch.get(&id) {
        None => None,
        Some(changed) => Some(changed.kind()),
    };
    let changed = ChangedFile {
        file_id: id,
        change: change.merge(earlier),
    };
    match batch.insert(id, changed) {
        Ok(_) => {}
        Err(_) => unreachable!(),
    }
}
