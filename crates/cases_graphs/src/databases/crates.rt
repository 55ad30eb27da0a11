//! What a database has of its crates. The number of a crate is how many less than it were given so far.

ghost use Rattle.std.specs.Prelude.{◌<◌, length};

use crate::databases::questions::identity_with_data;
use crate::making::graph_of;
use base_text::{Edition, FileId};
use cases::{Case, Fault, List, Object, atoms_answer};
use input_db::{
    Crate, Durability, InputDb, SourceDatabase, UniqueCrateData, all_crates, set_in_db,
};
use serde_json::Value;
use std::alloc::Global;

/// Sets a graph, and gives what the database has then: what is held of each crate of the graph, the list of the database, the
/// crates of files, and how many identities and writes there are.
pub fn set_graph(
    alloc: Global,
    db: &mut InputDb,
    given: &mut Vec<Crate>,
    graph: Case<'_>,
) -> Result<Value, Fault> {
    let crates = set(alloc, db, given, graph)?;
    Object::new(alloc)
        .member(
            "crates",
            crates_answer(alloc, db, given.as_slice(), crates.as_slice()),
        )
        .member("list", numbers(alloc, given.as_slice(), all_crates(db)))
        .member("of_files", of_files(alloc, db, given.as_slice()))
        .number("identities", db.crates_map().len() as u64)
        .number("writes", db.writes())
        .answer()
}

// Sets a graph, and returns its crates in order. Those that are new come to the given ones.
fn set(
    alloc: Global,
    db: &mut InputDb,
    given: &mut Vec<Crate>,
    graph: Case<'_>,
) -> Result<Vec<Crate>, Fault> {
    let graph = graph_of(alloc, graph)?;
    let ids = set_in_db(alloc, Box::into_inner(graph), db)?;
    let mut crates = Vec::new(alloc);
    for krate in ids.values() {
        crates.push(*krate)?;
        if !given.contains(krate) {
            given.push(*krate)?;
        }
    }
    Ok(crates)
}

fn number_of(given: &[Crate], krate: Crate) -> u64 {
    given.iter().filter(|other| **other < krate).count() as u64
}

// The numbers of crates.
fn numbers(alloc: Global, given: &[Crate], crates: &[Crate]) -> Result<Value, Fault> {
    let mut numbers = List::new(alloc);
    for krate in crates {
        numbers = numbers.number(number_of(given, *krate));
    }
    numbers.answer()
}

fn crates_answer(
    alloc: Global,
    db: &InputDb,
    given: &[Crate],
    crates: &[Crate],
) -> Result<Value, Fault> {
    let mut all = List::new(alloc);
    for krate in crates {
        if db.has_crate(*krate) {
            all = all.item(crate_answer(alloc, db, given, *krate));
        }
    }
    all.answer()
}

// The number of a crate, what is held of it, what it reaches, and the crate of its root file with its data.
fn crate_answer(alloc: Global, db: &InputDb, given: &[Crate], krate: Crate) -> Result<Value, Fault>
    requires { krate < length db.now.crates }
{
    let identity = identity_with_data(alloc, db.crate_input(krate))?;
    let reached = krate.transitive_deps(alloc, db)?;
    let answer = Object::new(alloc)
        .number("crate", number_of(given, krate))
        .member("values", values(alloc, db, krate))
        .member("reached", numbers(alloc, given, reached.as_slice()));
    match db.crates_map().get(&identity) {
        Some(other) => answer.number("with_data", number_of(given, other)).answer(),
        None => answer.answer(),
    }
}

// A crate's root file, how many dependencies it has, its atoms and its variable; and whether it is of medium durability and
// edition 2021, with no version and no toolchain.
fn values(alloc: Global, db: &InputDb, krate: Crate) -> Result<Value, Fault>
    requires { krate < length db.now.crates }
{
    let is_plain = krate.extra_data(db).version.is_none()
        && krate.workspace_data(db).toolchain.is_none()
        && krate.root_file_id(db).edition() == Edition::Edition2021;
    List::new(alloc)
        .number(krate.root_file_id(db).file_id().index() as u64)
        .number(krate.data(db).dependencies.len() as u64)
        .item(atoms_answer(alloc, krate.cfg_options(db).as_slice()))
        .optional(krate.env(db).get("K"))
        .flag(is_plain && db.crate_input(krate).durability == Durability::Medium)
        .answer()
}

// The crates of the first four files alone.
fn of_files(alloc: Global, db: &InputDb, given: &[Crate]) -> Result<Value, Fault> {
    let mut crates = List::new(alloc);
    for file in 0..4u32 {
        let identity = UniqueCrateData {
            root_file_id: FileId::from_raw(file),
            disambiguator: None,
        };
        crates = match db.crates_map().get(&identity) {
            Some(krate) => crates.number(number_of(given, krate)),
            None => crates.optional(None),
        };
    }
    crates.answer()
}
