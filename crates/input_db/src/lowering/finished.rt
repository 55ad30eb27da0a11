//! The crates of a graph that are finished.

ghost use Rattle.std.specs.Prelude.{◌≡◌, ◌<◌, IfOk, OnOk, length};
ghost use Rattle.input_db.specs.FinishSteps.{is_first_of_root, none_finished, with_finished_crate};

use crate::crate_input::Crate;
use base_text_paths::FileId;
use indexmap::IndexSet;
use std::alloc::{AllocError, Global};
use std::marker::Model;

/// The crates of a graph that are finished, with their numbers in the database.
#[derive(Drop)]
pub(super) struct FinishedCrates {
    numbers: Vec<Crate>,
    roots: IndexSet<FileId>,
    given: IndexSet<Crate>,
}

impl Model for FinishedCrates {
    ghost use Rattle.input_db.specs.FinishSteps as seen;

    ghost Value = { seen.FinishedCrates };

    ghost view = { λ a. record {
      numbers = a.numbers.items;
      roots = a.roots.keys;
      given = a.given.keys;
    } };
}

impl FinishedCrates {
    // None of so many crates is finished.
    pub(super) fn new(alloc: Global, count: usize) -> Result<Self, AllocError>
        ensures { IfOk result (λ finished. finished ≡ none_finished count) }
    {
        let numbers = vec![in alloc; Crate::at(0); count]?;
        Ok(FinishedCrates {
            numbers,
            roots: IndexSet::new(alloc),
            given: IndexSet::new(alloc),
        })
    }

    // Of each crate, its number in the database.
    pub(super) fn numbers(&self) -> &[Crate]
        ensures { result.now ≡ self.now.numbers }
    {
        &self.numbers
    }

    // The same, to keep.
    pub(super) fn into_numbers(self) -> Vec<Crate>
        ensures { result.items ≡ self.numbers }
    {
        self.numbers
    }

    // Whether no crate of the root file is finished.
    pub(super) fn is_first_of_root(&self, file: FileId) -> bool
        ensures { result ≡ is_first_of_root self.now.roots file }
    {
        !self.roots.contains(&file)
    }

    // A crate is finished.
    pub(super) fn note(&mut self, number: u32, file: FileId, given: Crate) -> Result<(), AllocError>
        requires { number < length self.old.numbers }
        ensures { OnOk result (self.new ≡ with_finished_crate self.old number file given) }
    {
        self.numbers[number as usize] = given;
        self.roots.insert(file)?;
        self.given.insert(given)?;
        Ok(())
    }

    // The numbers in the database, in the order in which they were first given.
    pub(super) fn given_crates(&self, alloc: Global) -> Result<Vec<Crate>, AllocError>
        ensures { IfOk result (λ given. given.items ≡ self.now.given) }
    {
        let mut given = Vec::with_capacity(alloc, self.given.len())?;
        for krate in self.given.iter() {
            given.push(*krate)?;
        }
        Ok(given)
    }
}
