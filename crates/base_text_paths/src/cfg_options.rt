//! The conditional compilation that a crate is built with: an ordered set of atoms.

ghost use Rattle.std.specs.Prelude.{◌≡◌, ◌↔◌, [], OnOk, OnErr, IsTrue, Contains, ◌⊎◌};
ghost use Rattle.std.specs.Prelude.{◌<◌, remove, vec_len, not};
ghost use Rattle.std.specs.List.{list_any};
ghost use Rattle.std.specs.Ordering.{eq_by_cmp};
ghost use Rattle.std.specs.Slice.Iter.{iter_rest};
ghost use Rattle.std.specs.List.Sorted.{IsStrictlySortedBy};
ghost use Rattle.base_text_outside.specs.declared.cfg.CfgAtom.{CfgAtom};
ghost use Rattle.base_text_outside.specs.declared.cfg.CfgAtom.TheVariants.{KeyValue};
ghost use Rattle.base_text_paths.specs.CfgOrder.{atom_cmp, atoms_after_change, with_atom, with_atoms, without_atoms};

use crate::cfg_diff::CfgDiff;
use base_text_outside::{CfgAtom, Symbol};
use base_values::{TryClone, copy_items};
use std::alloc::{AllocError, Global};
use std::cmp::Ordering;
use std::hash::{Hash, Hasher};
use std::marker::Model;
use std::slice;

/// An ordered set of atoms.
#[derive(Debug, Drop)]
pub struct CfgOptions {
    // In order, each once.
    atoms: Vec<CfgAtom>,
}

impl Model for CfgOptions {
    ghost use Rattle.std.specs.Prelude.{List};
    ghost use Rattle.std.specs.List.Sorted.{IsStrictlySortedBy};
    ghost use Rattle.base_text_outside.specs.declared.cfg.CfgAtom.{CfgAtom};
    ghost use Rattle.base_text_paths.specs.CfgOrder.{atom_cmp};

    ghost Value = { List CfgAtom };

    ghost view = { λ a. a.atoms.items };

    ghost invariant = { λ a. IsStrictlySortedBy atom_cmp a.atoms.items };
}

// Puts an atom in its place, unless it is there.
fn put(atoms: &mut Vec<CfgAtom>, atom: CfgAtom) -> Result<(), AllocError>
    requires { IsStrictlySortedBy atom_cmp atoms.old.items }
    ensures sorted { IsStrictlySortedBy atom_cmp atoms.new.items }
    ensures ok { OnOk result (atoms.new.items ≡ with_atom atoms.old.items atom) }
    ensures unchanged { OnErr result (atoms.new.items ≡ atoms.old.items) }
{
    match atoms.binary_search(&atom) {
        Ok(_) => Ok(()),
        Err(place) => {
            atoms.insert(place, atom)?;
            Ok(())
        }
    }
}

// Brings atoms into order, each once.
fn settle(atoms: &mut Vec<CfgAtom>)
    ensures sorted { IsStrictlySortedBy atom_cmp atoms.new.items }
    ensures same { atoms.new.items ≡ with_atoms [] atoms.old.items }
{
    atoms.sort_unstable();
    atoms.dedup();
}

// Puts each of the added atoms in its place.
fn join(atoms: &mut Vec<CfgAtom>, mut added: Vec<CfgAtom>) -> Result<(), AllocError>
    requires { IsStrictlySortedBy atom_cmp atoms.old.items }
    ensures sorted { IsStrictlySortedBy atom_cmp atoms.new.items }
    ensures ok { OnOk result (atoms.new.items ≡ with_atoms atoms.old.items added.items) }
    ensures unchanged { OnErr result (atoms.new.items ≡ atoms.old.items) }
{
    atoms.append(&mut added)?;
    settle(atoms);
    Ok(())
}

fn drop_at(atoms: &mut Vec<CfgAtom>, place: usize)
    requires { place < vec_len atoms.old }
    ensures { atoms.new.items ≡ remove atoms.old.items place }
{
    atoms.remove(place);
}

// Takes the atoms of both lists out of both.
fn part(left: &mut Vec<CfgAtom>, right: &mut Vec<CfgAtom>)
    requires left_sorted { IsStrictlySortedBy atom_cmp left.old.items }
    requires right_sorted { IsStrictlySortedBy atom_cmp right.old.items }
    ensures left_in_order { IsStrictlySortedBy atom_cmp left.new.items }
    ensures right_in_order { IsStrictlySortedBy atom_cmp right.new.items }
    ensures left_kept { left.new.items ≡ without_atoms left.old.items right.old.items }
    ensures right_kept { right.new.items ≡ without_atoms right.old.items left.old.items }
{
    let mut place = 0;
    while place < left.len() {
        match right.binary_search(&left[place]) {
            Ok(other) => {
                drop_at(left, place);
                drop_at(right, other);
            }
            Err(_) => place += 1,
        }
    }
}

// Whether an atom is not among others.
fn is_other(atom: &CfgAtom, others: &[CfgAtom]) -> bool
    ensures { result ≡ not (list_any (eq_by_cmp atom_cmp atom.now) others.now) }
{
    !others.contains(atom)
}

// Puts some atoms in and takes others out.
fn apply(
    atoms: &mut Vec<CfgAtom>,
    enabled: &[CfgAtom],
    disabled: &[CfgAtom],
) -> Result<(), AllocError>
    requires { IsStrictlySortedBy atom_cmp atoms.old.items }
    ensures sorted { IsStrictlySortedBy atom_cmp atoms.new.items }
    ensures ok { OnOk result (atoms.new.items
        ≡ atoms_after_change atoms.old.items enabled.now disabled.now) }
    ensures unchanged { OnErr result (atoms.new.items ≡ atoms.old.items) }
{
    let added = copy_items(*atoms.allocator(), enabled)?;
    join(atoms, added)?;
    atoms.retain(|atom| is_other(atom, disabled));
    Ok(())
}

impl CfgOptions {
    pub fn new(alloc: Global) -> Self
        ensures { result ≡ [] }
    {
        CfgOptions {
            atoms: Vec::new(alloc),
        }
    }

    /// The set of the atoms of a list, which takes no memory.
    pub fn of_atoms(mut atoms: Vec<CfgAtom>) -> Self
        ensures { result ≡ with_atoms [] atoms.items }
    {
        settle(&mut atoms);
        CfgOptions { atoms }
    }

    pub fn contains(&self, atom: &CfgAtom) -> bool
        ensures { IsTrue result ↔ Contains self.now atom.now }
    {
        self.atoms.binary_search(atom).is_ok()
    }

    /// Goes over the atoms in order.
    pub fn iter(&self) -> slice::Iter<'_, CfgAtom>
        ensures { iter_rest result ≡ self.now }
    {
        self.atoms.iter()
    }

    /// The atoms in order.
    pub fn as_slice(&self) -> &[CfgAtom]
        ensures same { result.now ≡ self.now }
        ensures ordered { IsStrictlySortedBy atom_cmp result.now }
    {
        self.atoms.as_slice()
    }

    pub fn insert_atom(&mut self, atom: CfgAtom) -> Result<(), AllocError>
        ensures ok { OnOk result (self.new ≡ with_atom self.old atom) }
        ensures members { OnOk result ((x : CfgAtom)
            → Contains self.new x ↔ ((x ≡ atom) ⊎ Contains self.old x)) }
        ensures unchanged { OnErr result (self.new ≡ self.old) }
    {
        put(&mut self.atoms, atom)?;
        Ok(())
    }

    pub fn insert_key_value(&mut self, key: Symbol, value: Symbol) -> Result<(), AllocError>
        ensures ok { OnOk result (self.new ≡ with_atom self.old (KeyValue key value)) }
        ensures unchanged { OnErr result (self.new ≡ self.old) }
    {
        self.insert_atom(CfgAtom::KeyValue { key, value })
    }

    pub fn extend(&mut self, atoms: Vec<CfgAtom>) -> Result<(), AllocError>
        ensures ok { OnOk result (self.new ≡ with_atoms self.old atoms.items) }
        ensures unchanged { OnErr result (self.new ≡ self.old) }
    {
        join(&mut self.atoms, atoms)?;
        Ok(())
    }

    /// Takes the atoms that both sets have out of both.
    pub(crate) fn part_from(&mut self, other: &mut CfgOptions)
        ensures left { self.new ≡ without_atoms self.old other.old }
        ensures right { other.new ≡ without_atoms other.old self.old }
    {
        part(&mut self.atoms, &mut other.atoms);
    }

    /// Puts the enabled atoms in and takes the disabled ones out.
    pub fn apply_diff(&mut self, diff: &CfgDiff) -> Result<(), AllocError>
        ensures ok { OnOk result (self.new
            ≡ atoms_after_change self.old diff.now.enabled diff.now.disabled) }
        ensures unchanged { OnErr result (self.new ≡ self.old) }
    {
        apply(&mut self.atoms, diff.enabled_atoms(), diff.disabled_atoms())?;
        Ok(())
    }
}

impl TryClone for CfgOptions {
    fn try_clone(&self, alloc: Global) -> Result<Self, AllocError> {
        let atoms = copy_items(alloc, &self.atoms)?;
        Ok(CfgOptions { atoms })
    }
}

impl PartialEq for CfgOptions {
    ghost use Rattle.std.specs.Cmp.Lexicographic.{pointwise, lists_per};
    ghost use Rattle.base_text_outside.specs.contracts.cfg.CfgAtomPartialEq.TheImpl.Laws as atom;

    ghost eq = { pointwise ⟦<CfgAtom as PartialEq>⟧.eq };

    ghost laws = { lists_per atom.laws-law };

    fn eq(&self, other: &Self) -> bool {
        self.atoms.as_slice() == other.atoms.as_slice()
    }
}

impl Eq for CfgOptions {
    ghost use Rattle.std.specs.Cmp.Lexicographic.{lists_equiv};
    ghost use Rattle.base_text_outside.specs.contracts.cfg.CfgAtomEq.TheImpl.Laws as atom;

    ghost laws = { lists_equiv atom.laws-law };
}

impl PartialOrd for CfgOptions {
    ghost use Rattle.std.specs.Cmp.Lexicographic.{slice_partial_cmp, lists_po};
    ghost use Rattle.base_text_outside.specs.contracts.cfg.CfgAtomPartialOrd.TheImpl.Laws as atom;

    ghost partial_cmp = { slice_partial_cmp ⟦<CfgAtom as PartialOrd>⟧.partial_cmp };

    ghost laws = { lists_po atom.laws-law };

    fn partial_cmp(&self, other: &Self) -> Option<Ordering> {
        self.atoms.as_slice().partial_cmp(other.atoms.as_slice())
    }
}

impl Ord for CfgOptions {
    ghost use Rattle.std.specs.Cmp.Lexicographic.{slice_cmp, lists_total, lists_ties, lists_agrees};
    ghost use Rattle.base_text_outside.specs.contracts.cfg.CfgAtomOrd.TheImpl.Laws as atom;
    ghost use Rattle.base_text_paths.specs.CfgOrder.{atom_cmp};

    ghost cmp = { slice_cmp atom_cmp };

    ghost total = { lists_total atom.total-law };

    ghost matches_partial_cmp = { lists_agrees atom.matches_partial_cmp-law };

    ghost matches_eq = { lists_ties atom_cmp atom.matches_eq-law };

    fn cmp(&self, other: &Self) -> Ordering {
        self.atoms.as_slice().cmp(other.atoms.as_slice())
    }
}

impl Hash for CfgOptions {
    ghost use Rattle.std.specs.Hash as fed;
    ghost use Rattle.base_text_outside.specs.contracts.cfg.CfgAtomHash.TheImpl.Laws as atom;

    ghost hash_input = { fed.slice ⟦<CfgAtom as Hash>⟧.hash_input };

    ghost respects_eq = { (fed.items_Alike (record { fed = atom.respects_eq-law })).fed };

    fn hash<H: Hasher>(&self, state: &mut H) {
        self.atoms.as_slice().hash(state);
    }
}
