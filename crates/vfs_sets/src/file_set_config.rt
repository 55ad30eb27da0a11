//! The roots of each set, by which files are placed. Files that fit no root fall into one last set.

ghost use Rattle.std.specs.Prelude.{◌≡◌, ◌<◌, ◌≤◌, ◌∷◌, ◌++◌, [], IfNone, IfOk, IfSome, OnErr, OnOk, length};
ghost use Rattle.vfs_core.specs.Files.{existing_files};
ghost use Rattle.vfs_sets.specs.Partition.{AreEmpty, HasPut, IsPartition};
ghost use Rattle.vfs_sets.specs.Placement.{class_of, place_of, FitsNoRoot, IsPlaceOf};
ghost use Rattle.vfs_sets.specs.Probes.{CountsFront, CountsPlacing, CountsProbes, RaisesAtMost, most_probes};
ghost use Rattle.vfs_sets.specs.RootMaps.{MapsRoots};
ghost use Rattle.vfs_sets.specs.Roots.{AreRoots};

use crate::file_set::FileSet;
use crate::place::placed_text;
use crate::root_map::{longest_root, map_roots, number_of_longest_prefix};
use crate::roots::roots;
use base_text_paths::{Counter, FileId, Items, Ledger, Steps, TryClone, copy_items};
use std::alloc::{AllocError, Global};
use std::collections::HashMap;
use std::marker::Model;
use vfs_core::{Vfs, VfsPath};

/// Gathers the roots of sets, which are numbered in the order in which they come.
#[derive(Drop)]
pub struct FileSetConfigBuilder {
    alloc: Global,
    sets: Vec<Items<VfsPath>>,
}

impl Model for FileSetConfigBuilder {
    ghost use Rattle.std.specs.Prelude.{List};
    ghost use Rattle.vfs_core.specs.VfsPath.{PathContent};

    ghost Value = { List (List PathContent) };

    ghost view = { λ a. a.sets.items };
}

impl FileSetConfigBuilder {
    pub fn new(alloc: Global) -> Self
        ensures { result ≡ [] }
    {
        FileSetConfigBuilder {
            alloc,
            sets: Vec::new(alloc),
        }
    }

    /// How many sets there are.
    pub fn len(&self) -> usize
        ensures { result ≡ length self.now }
    {
        self.sets.len()
    }

    /// One more set with these roots.
    pub fn add_file_set(&mut self, roots: Vec<VfsPath>) -> Result<(), AllocError>
        ensures ok { OnOk result (self.new ≡ self.old ++ roots.items ∷ []) }
        ensures err { OnErr result (self.new ≡ self.old) }
    {
        self.sets.push(Items::new(roots))?;
        Ok(())
    }

    /// The sets, by whose roots files can be placed.
    pub fn build(self) -> Result<FileSetConfig, AllocError>
        ensures { IfOk result (λ config. config ≡ self) }
    {
        FileSetConfig::of_sets(self.alloc, self.sets)
    }
}

impl TryClone for FileSetConfigBuilder {
    fn try_clone(&self, alloc: Global) -> Result<Self, AllocError> {
        let sets = copy_items(alloc, self.sets.as_slice())?;
        Ok(FileSetConfigBuilder { alloc, sets })
    }
}

/// The roots of each set. Contracts see them. A map for each kind of root has the least set of each, and the length of the
/// longest says which texts need not be looked up there.
#[derive(Drop)]
pub struct FileSetConfig {
    sets: Vec<Items<VfsPath>>,
    longest: usize,
    real_roots: HashMap<Vec<u8>, u64>,
    virtual_roots: HashMap<Vec<u8>, u64>,
}

impl Model for FileSetConfig {
    ghost use Rattle.std.specs.Prelude.{◌≡◌, List};
    ghost use Rattle.vfs_core.specs.VfsPath.{PathContent};
    ghost use Rattle.vfs_sets.specs.RootMaps.{HasRootMaps, longest_text_of_all};

    ghost Value = { List (List PathContent) };

    ghost view = { λ a. a.sets.items };

    ghost invariant = { λ a. HasRootMaps a.sets.items a.real_roots.entries a.virtual_roots.entries
        × (a.longest ≡ longest_text_of_all a.sets.items) };
}

impl FileSetConfig {
    pub fn builder(alloc: Global) -> FileSetConfigBuilder
        ensures { result ≡ [] }
    {
        FileSetConfigBuilder::new(alloc)
    }

    /// No sets but the last, which takes every file.
    pub fn new(alloc: Global) -> Result<FileSetConfig, AllocError>
        ensures { IfOk result (λ config. config ≡ []) }
    {
        FileSetConfig::builder(alloc).build()
    }

    fn of_sets(alloc: Global, sets: Vec<Items<VfsPath>>) -> Result<FileSetConfig, AllocError>
        ensures { IfOk result (λ config. config ≡ sets.items) }
    {
        let real_roots = map_roots(alloc, sets.as_slice(), false)?;
        let virtual_roots = map_roots(alloc, sets.as_slice(), true)?;
        let longest = longest_root(sets.as_slice());
        Ok(FileSetConfig {
            sets,
            longest,
            real_roots,
            virtual_roots,
        })
    }

    /// The map of the roots of a kind.
    fn roots_of_kind(&self, is_virtual: bool) -> &HashMap<Vec<u8>, u64>
        ensures { MapsRoots is_virtual self.now result.now.entries }
    {
        if is_virtual {
            &self.virtual_roots
        } else {
            &self.real_roots
        }
    }

    /// The set that takes a path, or the number of sets for the last one. It tries the prefixes of the text by which the
    /// path is placed, the longest first, and each is a step.
    pub fn classify_counted<L: Ledger>(&self, path: &VfsPath, steps: &mut Steps<L>) -> usize
        ensures place { result ≡ place_of self.now path.now }
        ensures within { result ≤ length self.now }
        ensures counts { CountsProbes self.now path.now
            (L.count steps.old.ledger) (L.count steps.new.ledger) }
    {
        let roots = self.roots_of_kind(path.is_virtual());
        let text = placed_text(path).as_bytes();
        match number_of_longest_prefix(roots, self.longest, text, steps) {
            Some(number) => number as usize,
            None => self.sets.len(),
        }
    }

    /// The set that takes a path, where one of its roots fits.
    pub fn classify_path(&self, path: &VfsPath) -> Option<usize>
        ensures class { result ≡ class_of self.now path.now }
        ensures found { IfSome result (IsPlaceOf self.now path.now) }
        ensures none { IfNone result (FitsNoRoot self.now path.now) }
    {
        let mut steps = Steps {
            ledger: Counter::new(),
        };
        let place = self.classify_counted(path, &mut steps);
        if place == self.sets.len() {
            None
        } else {
            Some(place)
        }
    }

    /// The existing files, each in its set. The last set has those that fit no root.
    pub fn partition(&self, alloc: Global, vfs: &Vfs) -> Result<Vec<FileSet>, AllocError>
        ensures { IfOk result (λ sets. IsPartition self.now (existing_files vfs.now) sets.items) }
    {
        let mut steps = Steps {
            ledger: Counter::new(),
        };
        self.partition_counted(alloc, vfs, &mut steps)
    }

    /// The same, with each prefix that is tried as a step. Out of memory, the first files were placed.
    pub fn partition_counted<L: Ledger>(
        &self,
        alloc: Global,
        vfs: &Vfs,
        steps: &mut Steps<L>,
    ) -> Result<Vec<FileSet>, AllocError>
        ensures sets { IfOk result (λ sets. IsPartition self.now
            (existing_files vfs.now) sets.items) }
        ensures counts { OnOk result (CountsPlacing self.now (existing_files vfs.now)
            (L.count steps.old.ledger) (L.count steps.new.ledger)) }
        ensures err { OnErr result (CountsFront self.now (existing_files vfs.now)
            (L.count steps.old.ledger) (L.count steps.new.ledger)) }
        ensures most { RaisesAtMost (most_probes (existing_files vfs.now))
            (L.count steps.old.ledger) (L.count steps.new.ledger) }
    {
        let mut sets = empty_sets(alloc, self.sets.len() + 1)?;
        for (id, path) in vfs.iter() {
            let place = self.classify_counted(path, steps);
            let path = path.try_clone(alloc)?;
            put(&mut sets, place, id, path)?;
        }
        Ok(sets)
    }

    /// The encodings of the roots in byte order, each once, with the least set that has a root of it. An encoding is
    /// a byte, 0 for a real path and 1 for a virtual one, and then the bytes of its text.
    pub fn roots(&self, alloc: Global) -> Result<Vec<(Items<u8>, u64)>, AllocError>
        ensures { IfOk result (λ pairs. AreRoots self.now pairs.items) }
    {
        roots(alloc, self.sets.as_slice())
    }
}

impl TryClone for FileSetConfig {
    fn try_clone(&self, alloc: Global) -> Result<Self, AllocError> {
        let sets = copy_items(alloc, self.sets.as_slice())?;
        FileSetConfig::of_sets(alloc, sets)
    }
}

/// So many sets without files.
fn empty_sets(alloc: Global, count: usize) -> Result<Vec<FileSet>, AllocError>
    ensures { IfOk result (λ sets. AreEmpty sets.items count) }
{
    let mut sets = Vec::with_capacity(alloc, count)?;
    for number in 0..count {
        prove!(number < count);
        sets.push(FileSet::new(alloc))?;
    }
    Ok(sets)
}

/// Puts a file into one of the sets.
fn put(sets: &mut Vec<FileSet>, place: usize, id: FileId, path: VfsPath) -> Result<(), AllocError>
    requires { place < length sets.old.items }
    ensures { OnOk result (HasPut sets.old.items sets.new.items place id path) }
{
    sets[place].insert(id, path)
}
