//! What is asked of the crates of a database: which are in a source root, which reach one, the channel of a toolchain, and how
//! identities and inputs compare.

use crate::databases::changes::make_given;
use base_text::{Boxed, FileId, TryClone};
use cases::{Case, Fault, List, Object, copied_answer, optional_answer, texts_of_pair};
use crate_graph::ReleaseChannel;
use input_db::{
    Crate, CrateInput, Durability, InputDb, SourceDatabase, SourceRootId, UniqueCrateData,
    crates_have_source_roots, relevant_crates, set_all_crates_with_durability, source_root_crates,
    toolchain_channel,
};
use serde_json::Value;
use std::alloc::{AllocError, Global};

/// What a call gives of a database that a change was made to. Crates are named by their places in the graph. Where the case says
/// so, the database lists one of them alone.
pub fn answer(alloc: Global, case: Case<'_>, db: &mut InputDb) -> Result<Value, Fault> {
    let crates = make_given(alloc, db, case)?;
    if case.find("list").is_some() {
        let Some(krate) = crate_at(crates.as_slice(), case.of("list").as_u32()) else {
            return Err(Fault::Condition);
        };
        list_one(alloc, db, krate)?;
    }
    ask(alloc, db, crates.as_slice(), case)
}

fn crate_at(crates: &[Crate], place: u32) -> Option<Crate> {
    crates.get(place as usize).copied()
}

fn list_one(alloc: Global, db: &mut InputDb, krate: Crate) -> Result<(), Fault> {
    let mut crates = Vec::new(alloc);
    if !db.has_crate(krate) {
        return Err(Fault::Condition);
    }
    crates.push(krate)?;
    set_all_crates_with_durability(db, crates, Durability::High);
    Ok(())
}

fn ask(alloc: Global, db: &InputDb, crates: &[Crate], case: Case<'_>) -> Result<Value, Fault> {
    match case.text("call") {
        "crates_have_source_roots" => Ok(Value::from(crates_have_source_roots(db))),
        "source_root_crates" => in_root(alloc, db, crates, case),
        "relevant_crates" => beside(alloc, db, crates, case),
        call => {
            let Some(krate) = crate_at(crates, case.of("of").as_u32()) else {
                return Err(Fault::Condition);
            };
            if !db.has_crate(krate) {
                return Err(Fault::Condition);
            }
            match call {
                "transitive_rev_deps" => {
                    let answer = krate.transitive_rev_deps(alloc, db)?;
                    reached_answer(alloc, crates, answer.as_slice())
                }
                "toolchain_channel" => {
                    let channel = toolchain_channel(db, krate);
                    optional_answer(alloc, channel.map(ReleaseChannel::as_str))
                }
                "UniqueCrateData::cmp" => identities(alloc, db.crate_input(krate)),
                "CrateInput::eq" => inputs(alloc, db.crate_input(krate), case),
                _ => Err(Fault::Call),
            }
        }
    }
}

// The crates of a source root.
fn in_root(alloc: Global, db: &InputDb, crates: &[Crate], case: Case<'_>) -> Result<Value, Fault> {
    if !crates_have_source_roots(db) {
        return Err(Fault::Condition);
    }
    let answer = source_root_crates(alloc, db, SourceRootId(case.of("root").as_u32()))?;
    places(alloc, crates, answer.as_slice())
}

// The crates of the source root of a file.
fn beside(alloc: Global, db: &InputDb, crates: &[Crate], case: Case<'_>) -> Result<Value, Fault> {
    let file = FileId::from_raw(case.of("file").as_file_number());
    if !crates_have_source_roots(db) || !db.files().has_file_root(file) {
        return Err(Fault::Condition);
    }
    let answer = relevant_crates(alloc, db, file)?;
    places(alloc, crates, answer.as_slice())
}

// The places of crates in the graph.
fn places(alloc: Global, crates: &[Crate], answer: &[Crate]) -> Result<Value, Fault> {
    let mut places = List::new(alloc);
    for krate in answer {
        if let Some(place) = crates.iter().position(|other| other == krate) {
            places = places.number(place as u64);
        }
    }
    places.answer()
}

// The crate that comes first, how many there are, and all in the order of the graph.
fn reached_answer(alloc: Global, crates: &[Crate], answer: &[Crate]) -> Result<Value, Fault> {
    let mut all = List::new(alloc);
    for (place, krate) in crates.iter().enumerate() {
        if answer.contains(krate) {
            all = all.number(place as u64);
        }
    }
    Object::new(alloc)
        .member(
            "first",
            places(alloc, crates, answer.get(..1).unwrap_or(&[])),
        )
        .number("count", answer.len() as u64)
        .member("all", all.answer())
        .answer()
}

// Whether the identity of a root file alone comes before that with the data of the crate, and whether a copy of the
// latter equals it.
fn identities(alloc: Global, input: &CrateInput) -> Result<Value, Fault> {
    let of_file = UniqueCrateData {
        root_file_id: input.crate_data.root_file_id,
        disambiguator: None,
    };
    let with_data = identity_with_data(alloc, input)?;
    List::new(alloc)
        .flag(of_file < with_data)
        .item(copied_answer(alloc, &with_data))
        .answer()
}

/// The identity of a crate's root file with its data and its atoms.
pub fn identity_with_data(
    alloc: Global,
    input: &CrateInput,
) -> Result<UniqueCrateData, AllocError> {
    let cfgs = input.cfg_options.try_clone(alloc)?;
    let data = input.crate_data.try_clone(alloc)?;
    Ok(UniqueCrateData {
        root_file_id: input.crate_data.root_file_id,
        disambiguator: Some(Boxed::new(alloc, (data, cfgs))?),
    })
}

// Whether a copy of what is held of a crate equals it, before and after a variable is set in the copy.
fn inputs(alloc: Global, input: &CrateInput, case: Case<'_>) -> Result<Value, Fault> {
    let mut copy = Box::new(alloc, input.try_clone(alloc)?)?;
    let is_equal = *copy == *input;
    let (name, value) = texts_of_pair(alloc, case.of("set"))?;
    copy.env.set(name, value)?;
    List::new(alloc)
        .flag(is_equal)
        .flag(*copy == *input)
        .answer()
}
