//! Atoms of conditional compilation, sets of them and changes of sets.

use base_text::{CfgAtom, CfgDiff, CfgError, CfgOptions, TryClone, parse_cfg, write_cfg};
use cases::{Case, Fault, Object, atoms_answer, error_answer, is_least};
use serde_json::Value;
use std::alloc::Global;

/// What a call of atoms gives.
pub fn answer(alloc: Global, case: Case<'_>) -> Result<Value, Fault> {
    match case.text("call") {
        "parse_cfg" => parse(alloc, case.text("text")),
        "CfgOptions" => options(alloc, case),
        "CfgDiff::new" => diff(alloc, case),
        _ => Err(Fault::Call),
    }
}

fn parse(alloc: Global, text: &str) -> Result<Value, Fault> {
    match parse_cfg(alloc, text) {
        Ok(atom) => atom_answer(alloc, &atom),
        Err(CfgError::BadCfg) => error_answer(alloc, "BadCfg"),
        Err(CfgError::OutOfMemory) => Err(Fault::OutOfMemory),
    }
}

// The parts of an atom, and its text.
fn atom_answer(alloc: Global, atom: &CfgAtom) -> Result<Value, Fault> {
    let answer = Object::new(alloc).member("text", Ok(Value::String(write_cfg(alloc, atom)?)));
    let answer = match atom {
        CfgAtom::Flag(flag) => answer.text("flag", flag.as_str()),
        CfgAtom::KeyValue { key, value } => answer
            .text("key", key.as_str())
            .text("value", value.as_str()),
    };
    answer.answer()
}

fn atoms(alloc: Global, case: Case<'_>, key: &'static str) -> Result<Vec<CfgAtom>, Fault> {
    let mut atoms = Vec::new(alloc);
    for text in case.list(key) {
        match parse_cfg(alloc, case.with(text).as_text()) {
            Ok(atom) => atoms.push(atom)?,
            Err(_) => return Err(Fault::Member(key)),
        }
    }
    Ok(atoms)
}

// The atoms that are put in one by one.
fn options_of(alloc: Global, case: Case<'_>) -> Result<CfgOptions, Fault> {
    let mut options = CfgOptions::new(alloc);
    for atom in atoms(alloc, case, "atoms")? {
        match atom {
            CfgAtom::KeyValue { key, value } => options.insert_key_value(key, value)?,
            flag => options.insert_atom(flag)?,
        }
    }
    Ok(options)
}

// A set that is extended by more atoms, then what a change makes of it: the atoms of both, whether the first one has an atom, and
// whether it is at most its copy and the second one.
fn options(alloc: Global, case: Case<'_>) -> Result<Value, Fault> {
    let mut options = options_of(alloc, case)?;
    options.extend(atoms(alloc, case, "more")?)?;
    let mut changed = options.try_clone(alloc)?;
    changed.apply_diff(&diff_of(alloc, case)?)?;
    options_answer(alloc, case, &options, changed)
}

fn options_answer(
    alloc: Global,
    case: Case<'_>,
    options: &CfgOptions,
    changed: CfgOptions,
) -> Result<Value, Fault> {
    let asked = atoms(alloc, case, "has")?;
    let copy = options.try_clone(alloc)?;
    Object::new(alloc)
        .member("atoms", atoms_answer(alloc, options.as_slice()))
        .member("changed", atoms_answer(alloc, changed.as_slice()))
        .flag("has", asked.iter().all(|atom| options.contains(atom)))
        .flag("is_least", is_least(options, &[copy, changed]))
        .answer()
}

fn diff_of(alloc: Global, case: Case<'_>) -> Result<CfgDiff, Fault> {
    let enable = atoms(alloc, case, "enable")?;
    Ok(CfgDiff::new(enable, atoms(alloc, case, "disable")?))
}

fn diff(alloc: Global, case: Case<'_>) -> Result<Value, Fault> {
    let diff = diff_of(alloc, case)?;
    Object::new(alloc)
        .member("enabled", atoms_answer(alloc, diff.enabled_atoms()))
        .member("disabled", atoms_answer(alloc, diff.disabled_atoms()))
        .number("len", diff.len() as u64)
        .answer()
}
