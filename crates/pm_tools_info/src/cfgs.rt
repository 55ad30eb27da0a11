//! The atoms of conditional compilation that hold for a platform.

ghost use Rattle.std.specs.Prelude.{◌≡◌, ◌∷◌, [], ◌++◌, IfOk, OnOk, option_map};
ghost use Rattle.std.specs.Str.Lines.{lines};
ghost use Rattle.base_text_outside.specs.declared.cfg.CfgAtom.TheVariants.{Flag};
ghost use Rattle.pm_tools_info.specs.Cfgs.{atoms_in, atoms_of, constant_atoms, for_widths};

use base_text::{CfgAtom, CfgError, Items, Symbol, parse_cfg};
use std::alloc::{AllocError, Global};

/// The widths of atomic values, as atoms name them.
const WIDTHS: [&str; 6] = ["8", "16", "32", "64", "128", "ptr"];

/// The atoms that the answer of `rustc --print cfg` names, and behind them those that the sources of the
/// standard library ask for and no compiler prints. There are none at all where a line names no atom.
#[tactic(auto, unfolding(crate::specs::Cfgs::atoms_of))]
pub fn atoms_of(alloc: Global, text: &str) -> Result<Items<CfgAtom>, AllocError>
    ensures { IfOk result (λ atoms. atoms ≡ atoms_of text.now) }
{
    let Some(mut atoms) = line_atoms(alloc, text)? else {
        return Ok(Items::empty(alloc));
    };
    push_constant_atoms(alloc, &mut atoms)?;
    Ok(Items::new(atoms))
}

// The atoms that the lines name, where each names one.
fn line_atoms(alloc: Global, text: &str) -> Result<Option<Vec<CfgAtom>>, AllocError>
    ensures { IfOk result (λ atoms. option_map (λ a. a.items) atoms ≡ atoms_in (lines text.now)) }
{
    let mut atoms = Vec::new(alloc);
    for line in text.lines() {
        match parse_cfg(alloc, line) {
            Ok(atom) => atoms.push(atom)?,
            Err(CfgError::BadCfg) => return Ok(None),
            Err(CfgError::OutOfMemory) => return Err(AllocError),
        }
    }
    Ok(Some(atoms))
}

// Puts the atoms that no compiler prints behind the others.
#[tactic(auto, unfolding(crate::specs::Cfgs::constant_atoms))]
fn push_constant_atoms(alloc: Global, atoms: &mut Vec<CfgAtom>) -> Result<(), AllocError>
    ensures { OnOk result (atoms.new.items ≡ atoms.old.items ++ constant_atoms) }
{
    push_for_widths(alloc, atoms, "target_has_atomic_equal_alignment")?;
    push_flag(alloc, atoms, "target_has_atomic_load_store")?;
    push_for_widths(alloc, atoms, "target_has_atomic_load_store")?;
    push_flag(alloc, atoms, "target_thread_local")?;
    push_flag(alloc, atoms, "target_has_atomic")
}

// Puts the key with each width behind the others.
fn push_for_widths(alloc: Global, atoms: &mut Vec<CfgAtom>, key: &str) -> Result<(), AllocError>
    ensures { OnOk result (atoms.new.items ≡ atoms.old.items ++ for_widths key.now) }
{
    for width in WIDTHS {
        let key = Symbol::of_str(alloc, key)?;
        let value = Symbol::of_str(alloc, width)?;
        atoms.push(CfgAtom::KeyValue { key, value })?;
    }
    Ok(())
}

// Puts the flag behind the others.
fn push_flag(alloc: Global, atoms: &mut Vec<CfgAtom>, name: &str) -> Result<(), AllocError>
    ensures { OnOk result (atoms.new.items ≡ atoms.old.items ++ Flag name.now ∷ []) }
{
    let name = Symbol::of_str(alloc, name)?;
    atoms.push(CfgAtom::Flag(name))?;
    Ok(())
}
