//! A change of the conditional compilation: atoms that go in and atoms that go out.

ghost use Rattle.std.specs.Prelude.{◌≡◌, ◌+◌, ◌↔◌, IsTrue, length};
ghost use Rattle.std.specs.List.Sorted.{IsStrictlySortedBy};
ghost use Rattle.base_text_paths.specs.CfgOrder.{atoms_only_in, atom_cmp};

use crate::cfg_options::CfgOptions;
use base_text_outside::CfgAtom;
use base_values::TryClone;
use std::alloc::{AllocError, Global};
use std::marker::Model;

/// Atoms to enable and atoms to disable, none of them both.
#[derive(Debug, PartialEq, Eq, Drop)]
pub struct CfgDiff {
    enable: CfgOptions,
    disable: CfgOptions,
}

impl Model for CfgDiff {
    ghost use Rattle.base_text_paths.specs.CfgChange.{CfgChange};

    ghost Value = { CfgChange };

    ghost view = { λ a. record { enabled = a.enable; disabled = a.disable } };

    ghost inverse = { λ v. record { enable = v.enabled; disable = v.disabled } };
}

impl CfgDiff {
    /// The change that enables and disables the atoms of two lists, but for those of both.
    pub fn new(enable: Vec<CfgAtom>, disable: Vec<CfgAtom>) -> Self
        ensures enabled { result.enabled ≡ atoms_only_in enable.items disable.items }
        ensures disabled { result.disabled ≡ atoms_only_in disable.items enable.items }
    {
        let mut enable = CfgOptions::of_atoms(enable);
        let mut disable = CfgOptions::of_atoms(disable);
        enable.part_from(&mut disable);
        CfgDiff { enable, disable }
    }

    /// The atoms that go in, in order.
    pub fn enabled_atoms(&self) -> &[CfgAtom]
        ensures same { result.now ≡ self.now.enabled }
        ensures ordered { IsStrictlySortedBy atom_cmp result.now }
    {
        self.enable.as_slice()
    }

    /// The atoms that go out, in order.
    pub fn disabled_atoms(&self) -> &[CfgAtom]
        ensures same { result.now ≡ self.now.disabled }
        ensures ordered { IsStrictlySortedBy atom_cmp result.now }
    {
        self.disable.as_slice()
    }

    pub fn is_empty(&self) -> bool
        ensures { IsTrue result ↔ (length self.now.enabled + length self.now.disabled ≡ 0) }
    {
        self.enable.as_slice().is_empty() && self.disable.as_slice().is_empty()
    }

    pub fn len(&self) -> usize
        ensures { result ≡ length self.now.enabled + length self.now.disabled }
    {
        self.enable.as_slice().len() + self.disable.as_slice().len()
    }
}

impl TryClone for CfgDiff {
    fn try_clone(&self, alloc: Global) -> Result<Self, AllocError> {
        let enable = self.enable.try_clone(alloc)?;
        let disable = self.disable.try_clone(alloc)?;
        Ok(CfgDiff { enable, disable })
    }
}
