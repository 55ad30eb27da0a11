//! The table of all crates that a database was ever given: each identity has one crate, for good.

ghost use Rattle.std.specs.Prelude.{◌≡◌, ◌↔◌, ◌<◌, ◌^◌, [], IfOk, IsTrue, OnErr, OnOk, Some, length, map, slice_get};
ghost use Rattle.std.specs.List.{All, IsDistinct};
ghost use Rattle.std.specs.Map.Iter.{deref_pair};
ghost use Rattle.std.specs.Option.{option_copied, option_map};
ghost use Rattle.graph_base.specs.Edges.{row};
ghost use Rattle.input_db.specs.Identity.{IsTable, PutsCrate, crate_edges, crate_for, crate_in, input_in, input_under};
ghost use Rattle.input_db.specs.Identity.{named_in, names_of, unique_eq, uniques_in, with_entry};

use crate::crate_input::{BuiltDependency, Crate, CrateInput, UniqueCrateData};
use base_text_paths::{TryClone, copy_entries};
use graph_base::Graph;
use indexmap::IndexMap;
use std::alloc::{AllocError, Global};
use std::marker::Model;

// A crate is numbered within 32 bits.
const GREATEST_LENGTH: usize = 0xffff_ffff;

/// Each identity with its crate, and what is held of that. A crate is the place of its entry.
#[derive(Drop)]
pub struct CratesMap {
    entries: IndexMap<UniqueCrateData, CrateInput>,
}

impl Model for CratesMap {
    ghost use Rattle.input_db.specs.Identity.{IsTable, PutsCrate, Table};

    ghost Value = { Table };

    ghost view = { λ a. a.entries.entries };

    ghost invariant = { λ a. IsTable a.entries.entries };
}

impl CratesMap {
    /// A table of no crates.
    pub fn new(alloc: Global) -> Self
        ensures { result ≡ [] }
    {
        CratesMap {
            entries: IndexMap::new(alloc),
        }
    }

    /// How many crates there are. No two have equal identities, and an identity names older crates
    /// alone. By the laws of `laws`, the paths in identities and inputs are clean, so that equal ones
    /// hold the same.
    pub fn len(&self) -> usize
        ensures length { result ≡ length self.now }
        ensures distinct { IsDistinct unique_eq (uniques_in self.now) }
        ensures table { IsTable self.now }
    {
        self.entries.len()
    }

    /// The crate of an identity.
    pub fn get(&self, unique: &UniqueCrateData) -> Option<Crate>
        ensures { result ≡ crate_in self.now unique.now }
    {
        match self.entries.get_index_of(unique) {
            None => None,
            Some(place) => Some(Crate::at(place)),
        }
    }

    pub(crate) fn has_crate(&self, krate: Crate) -> bool
        ensures { IsTrue result ↔ (krate < length self.now) }
    {
        krate.place() < self.entries.len()
    }

    // The number of a crate that is there. It fits, since the table has no more crates than that.
    pub(crate) fn number(&self, krate: Crate) -> u32
        requires { krate < length self.now }
        ensures { result ≡ krate }
    {
        prove!(krate.place() < self.entries.len());
        krate.place() as u32
    }

    /// What is held of a crate that is there.
    pub(crate) fn input(&self, krate: Crate) -> &CrateInput
        requires { krate < length self.now }
        ensures { input_in self.now krate ≡ Some result.now }
    {
        &self.entries[krate.place()]
    }

    /// The identity of a crate, and what is held of it.
    pub(crate) fn entry(&self, krate: Crate) -> Option<(&UniqueCrateData, &CrateInput)>
        ensures { option_map deref_pair result ≡ slice_get self.now krate }
    {
        self.entries.get_index(krate.place())
    }

    /// What is held of an identity's crate.
    pub(crate) fn input_under(&self, unique: &UniqueCrateData) -> Option<&CrateInput>
        ensures { option_copied result ≡ input_under self.now unique.now }
    {
        self.entries.get(unique)
    }

    /// Gives the crate of an identity an input, and where there is none a new crate.
    pub(crate) fn put(
        &mut self,
        unique: UniqueCrateData,
        input: CrateInput,
    ) -> Result<Crate, AllocError>
        requires identity { All (λ named. named < length self.old) (names_of unique) }
        requires input { All (λ named. named < length self.old) (named_in input.crate_data) }
        ensures answer { IfOk result (λ krate. krate ≡ crate_for self.old unique) }
        ensures ok { OnOk result (self.new ≡ with_entry self.old unique input) }
        ensures alone { IfOk result (PutsCrate self.old self.new unique input) }
        ensures table { OnOk result (IsTable self.new) }
        ensures err { OnErr result (self.new ≡ self.old) }
    {
        if self.entries.len() >= GREATEST_LENGTH && self.get(&unique).is_none() {
            return Err(AllocError);
        }
        let (place, old) = self.entries.insert_full(unique, input)?;
        drop(old);
        Ok(Crate::at(place))
    }
}

impl CratesMap {
    // The dependencies of a crate that is there. Each is numbered within 32 bits.
    fn dependencies(&self, krate: u32) -> &[BuiltDependency]
        requires { krate < length self.now }
        ensures edges { map (λ dep. dep.crate_id) result.now ≡ row (crate_edges self.now) krate }
        ensures fit { All (λ dep. dep.crate_id < 2 ^ 32) result.now }
    {
        self.entries[krate as usize]
            .crate_data
            .dependencies
            .as_slice()
    }
}

impl TryClone for CratesMap {
    fn try_clone(&self, alloc: Global) -> Result<Self, AllocError> {
        let entries = copy_entries(alloc, &self.entries)?;
        Ok(CratesMap { entries })
    }
}

// A search goes over crates by their numbers.
impl Graph for CratesMap {
    ghost rows = { λ table. crate_edges table };

    fn count(&self) -> u32 {
        self.entries.len() as u32
    }

    fn degree(&self, node: u32) -> usize {
        self.dependencies(node).len()
    }

    fn target(&self, node: u32, place: usize) -> u32 {
        self.dependencies(node)[place].crate_id.place() as u32
    }
}
