//! A list of crates into which those of another graph are taken.

ghost use Rattle.std.specs.Prelude.{◌≡◌, ◌≤◌, ◌<◌, [], ◌∷◌, ◌++◌, length, map, position, IfOk, IsErrOf, OnOk};
ghost use Rattle.std.specs.List.{All};
ghost use Rattle.graph_base.specs.Edges.{IsInRange};
ghost use Rattle.crate_graph.specs.Extend.{before_merge, merge_of, take_in, with_first_equal, with_crate_at};
ghost use Rattle.crate_graph.specs.Graph.{edges};
ghost use Rattle.crate_graph.specs.Places.{ArePlacesOf, crate_hash};

use crate::graph::GraphError;
use crate::graph::extend::places::{Places, hash_of};
use crate::graph::renaming::{copies_in_order, renamed_copy};
use crate_graph_values::{CrateBuilder, CrateDataBuilder};
use std::alloc::{AllocError, Global};
use std::hash::Hash;
use std::marker::Model;

/// The crates of a graph, and the number in it of each crate of the other graph.
#[derive(Drop)]
pub(super) struct Merge {
    crates: Vec<CrateBuilder>,
    new_numbers: Vec<u32>,
}

impl Model for Merge {
    ghost use Rattle.crate_graph.specs.Extend as seen;

    ghost Value = { seen.Merge };

    ghost view = { λ a. record { crates = a.crates.items; new_numbers = a.new_numbers.items } };
}

// The places of crates by their hashes.
fn places_of(alloc: Global, crates: &[CrateBuilder]) -> Result<Places, AllocError>
    ensures { IfOk result (λ places. places
        ≡ map (crate_hash ⟦<CrateDataBuilder as Hash>⟧.hash_input) crates.now) }
{
    let mut hashes = Vec::with_capacity(alloc, crates.len())?;
    for krate in crates {
        hashes.push(hash_of(&krate.basic))?;
    }
    Places::new(alloc, hashes)
}

// The place of the first of some crates that is equal to another.
fn place_of(places: &Places, crates: &[CrateBuilder], krate: &CrateBuilder) -> Option<usize>
    requires { places.now ≡ map (crate_hash ⟦<CrateDataBuilder as Hash>⟧.hash_input) crates.now }
    ensures { result
        ≡ position (λ old. ⟦<CrateBuilder as PartialEq>⟧.eq old krate.now) crates.now }
{
    let mut place = places.first(hash_of(&krate.basic));
    while let Some(number) = place {
        if crates[number] == *krate {
            return Some(number);
        }
        place = places.next(number);
    }
    None
}

// Puts a crate behind the others.
fn push(crates: &mut Vec<CrateBuilder>, krate: CrateBuilder) -> Result<(), AllocError>
    ensures { OnOk result (crates.new.items ≡ crates.old.items ++ krate ∷ []) }
{
    crates.push(krate)?;
    Ok(())
}

impl Merge {
    // Copies of the old crates, their dependencies sorted, and no number yet for any other.
    fn new(
        alloc: Global,
        olds: &[CrateBuilder],
        others: &[CrateBuilder],
    ) -> Result<Self, AllocError>
        ensures { IfOk result (λ new. new ≡ before_merge olds.now others.now) }
    {
        let crates = copies_in_order(alloc, olds)?;
        let new_numbers = vec![in alloc; 0; others.len()]?;
        Ok(Merge {
            crates,
            new_numbers,
        })
    }

    pub(super) fn new_numbers(&self) -> &[u32]
        ensures { result.now ≡ self.now.new_numbers }
    {
        &self.new_numbers
    }

    pub(super) fn len(&self) -> usize
        ensures { result ≡ length self.now.crates }
    {
        self.crates.len()
    }

    pub(super) fn into_crates(self) -> Vec<CrateBuilder>
        ensures { result.items ≡ self.crates }
    {
        self.crates
    }

    // Puts a crate of the other graph at the end.
    fn append(&mut self, limit: u32, other: u32, krate: CrateBuilder) -> Result<(), GraphError>
        requires { other < length self.old.new_numbers }
        ensures ok { OnOk result (self.new ≡ with_crate_at self.old other krate None) }
        ensures room { OnOk result (length self.new.crates ≤ limit) }
        ensures too_many { IsErrOf result GraphError.TooMany → limit ≤ length self.old.crates }
    {
        if self.crates.len() >= limit as usize {
            return Err(GraphError::TooMany);
        }
        let number = self.crates.len() as u32;
        push(&mut self.crates, krate)?;
        self.new_numbers[other as usize] = number;
        Ok(())
    }

    // Lets a crate of the other graph become the first equal one of the old crates, or appends it.
    fn find_or_append(
        &mut self,
        limit: u32,
        olds: &Places,
        other: u32,
        krate: CrateBuilder,
    ) -> Result<(), GraphError>
        requires other { other < length self.old.new_numbers }
        requires olds { ArePlacesOf ⟦<CrateDataBuilder as Hash>⟧.hash_input olds.now self.old.crates }
        requires room { length self.old.crates ≤ limit }
        ensures ok { OnOk result (self.new
            ≡ with_first_equal ⟦<CrateBuilder as PartialEq>⟧.eq
            (length olds.now) self.old other krate) }
        ensures room { OnOk result (length self.new.crates ≤ limit) }
        ensures too_many { IsErrOf result GraphError.TooMany
            → limit < length (with_first_equal ⟦<CrateBuilder as PartialEq>⟧.eq
            (length olds.now) self.old other krate).crates }
    {
        match place_of(olds, &self.crates[..olds.len()], &krate) {
            Some(place) => {
                self.new_numbers[other as usize] = place as u32;
                Ok(())
            }
            None => self.append(limit, other, krate),
        }
    }

    // Takes the crate of a number in.
    fn take_in(
        &mut self,
        alloc: Global,
        limit: u32,
        olds: &Places,
        others: &[CrateBuilder],
        other: u32,
    ) -> Result<(), GraphError>
        requires other { other < length others.now }
        requires in_range { IsInRange (edges others.now) }
        requires new_numbers { length self.old.new_numbers ≡ length others.now }
        requires olds { ArePlacesOf ⟦<CrateDataBuilder as Hash>⟧.hash_input olds.now self.old.crates }
        requires room { length self.old.crates ≤ limit }
        ensures ok { OnOk result (self.new ≡ take_in ⟦<CrateBuilder as PartialEq>⟧.eq
            (length olds.now) others.now self.old other) }
        ensures room { OnOk result (length self.new.crates ≤ limit) }
        ensures too_many { IsErrOf result GraphError.TooMany
            → limit < length (take_in ⟦<CrateBuilder as PartialEq>⟧.eq
            (length olds.now) others.now self.old other).crates }
    {
        let krate = renamed_copy(alloc, &self.new_numbers, &others[other as usize])?;
        self.find_or_append(limit, olds, other, krate)
    }
}

/// Takes crates into copies of old ones, in the order of a list.
pub(super) fn join(
    alloc: Global,
    limit: u32,
    olds: &[CrateBuilder],
    others: &[CrateBuilder],
    order: &[u32],
) -> Result<Merge, GraphError>
    requires room { length olds.now ≤ limit }
    requires in_range { IsInRange (edges others.now) }
    requires order { All (λ other. other < length others.now) order.now }
    ensures ok { IfOk result (λ all. all
        ≡ merge_of ⟦<CrateBuilder as PartialEq>⟧.eq olds.now others.now order.now) }
    ensures room { IfOk result (λ all. length all.crates ≤ limit) }
    ensures too_many { IsErrOf result GraphError.TooMany → limit
        < length (merge_of ⟦<CrateBuilder as PartialEq>⟧.eq olds.now others.now order.now).crates }
{
    let mut merge = Merge::new(alloc, olds, others)?;
    let places = places_of(alloc, &merge.crates)?;
    for other in order {
        merge.take_in(alloc, limit, &places, others, *other)?;
    }
    Ok(merge)
}
