//! A map from text that contracts see as its entries in ascending order of their keys.

ghost use Rattle.std.specs.Prelude.{◌≡◌, ◌↔◌, [], ◌∷◌, ◌++◌, IfOk, IsTrue, OnErr, OnOk, length, option_copied, string_bytes};
ghost use Rattle.base_values.specs.ByText.{HasAscendingKeys, IsAboveKeys, text_entries, value_at, with_value};

use crate::try_clone::TryClone;
use std::alloc::{AllocError, AllocFailed, Global};
use std::collections::BTreeMap;
use std::marker::Model;

/// A map from text. It is made from a `BTreeMap` and gives it back, with no memory taken.
#[derive(Debug, Drop)]
pub struct ByText<V> {
    inner: BTreeMap<String, V>,
}

impl<V> Model for ByText<V> {
    ghost use Rattle.std.specs.Prelude.{List, ℕ};

    ghost Value = { List (List ℕ × V) };

    ghost use Rattle.base_values.specs.ByText.{text_entries};

    ghost view = { λ a. text_entries a.inner.entries };
}

impl<V> ByText<V> {
    pub fn new(inner: BTreeMap<String, V>) -> Self
        ensures { result ≡ text_entries inner.entries }
    {
        ByText { inner }
    }

    /// The map with no entries, which holds no memory.
    pub fn empty(alloc: Global) -> Self
        ensures { result ≡ [] }
    {
        ByText {
            inner: BTreeMap::new(alloc),
        }
    }

    pub fn len(&self) -> usize
        ensures len { result ≡ length self.now }
        ensures ascending { HasAscendingKeys self.now }
    {
        self.inner.len()
    }

    pub fn is_empty(&self) -> bool
        ensures { IsTrue result ↔ (self.now ≡ []) }
    {
        self.inner.is_empty()
    }

    pub fn get(&self, key: &str) -> Option<&V>
        ensures { option_copied result ≡ value_at key.now self.now }
    {
        self.inner.get(key)
    }

    /// Puts the value at the key, and gives the value that was there.
    pub fn insert(&mut self, key: String, value: V) -> Result<Option<V>, AllocFailed<(String, V)>>
        ensures ok { OnOk result (self.new ≡ with_value (string_bytes key) value self.old) }
        ensures before { IfOk result (λ before. before ≡ value_at (string_bytes key) self.old) }
        ensures last { IsAboveKeys (string_bytes key) self.old
            → OnOk result (self.new ≡ self.old ++ (string_bytes key, value) ∷ []) }
        ensures err { OnErr result (self.new ≡ self.old) }
    {
        self.inner.insert(key, value)
    }

    pub fn as_map(&self) -> &BTreeMap<String, V>
        ensures { text_entries result.now.entries ≡ self.now }
    {
        &self.inner
    }

    pub fn into_inner(self) -> BTreeMap<String, V>
        ensures { text_entries result.entries ≡ self }
    {
        self.inner
    }
}

impl<V: TryClone + Drop> TryClone for ByText<V> {
    fn try_clone(&self, alloc: Global) -> Result<Self, AllocError> {
        let mut copy = ByText::empty(alloc);
        for (key, value) in self.inner.iter() {
            insert_copy(alloc, &mut copy, key, value)?;
        }
        Ok(copy)
    }
}

// Puts a copy of an entry into a map, behind the others where its key is above theirs.
fn insert_copy<V: TryClone + Drop>(
    alloc: Global,
    entries: &mut ByText<V>,
    key: &String,
    value: &V,
) -> Result<(), AllocError>
    ensures { IsAboveKeys (string_bytes key.now) entries.old
        → OnOk result (entries.new ≡ entries.old ++ (string_bytes key.now, value.now) ∷ []) }
{
    let key = key.clone()?;
    drop(entries.insert(key, value.try_clone(alloc)?)?);
    Ok(())
}

impl<V: PartialEq> PartialEq for ByText<V> {
    ghost use Rattle.std.specs.Prelude.{nat_eq, ◌&&◌};
    ghost use Rattle.std.specs.Cmp.{and_per, on_per, partial_equiv_from_equiv};
    ghost use Rattle.std.specs.Cmp.Lexicographic.{pointwise, lists_per, nat_list_eq_equiv};

    ghost eq = { pointwise (λ p q. pointwise nat_eq p.0 q.0 && V.eq p.1 q.1) };

    ghost laws = { lists_per (and_per (on_per (λ p. p.0) (partial_equiv_from_equiv nat_list_eq_equiv)) (on_per (λ p. p.1) V.laws)) };

    fn eq(&self, other: &Self) -> bool {
        self.inner == other.inner
    }
}

impl<V: Eq> Eq for ByText<V> {
    ghost use Rattle.std.specs.Cmp.{and_equiv, on_equiv};
    ghost use Rattle.std.specs.Cmp.Lexicographic.{lists_equiv, nat_list_eq_equiv};

    ghost laws = { lists_equiv (and_equiv (on_equiv (λ p. p.0) nat_list_eq_equiv) (on_equiv (λ p. p.1) V.Eq.laws)) };
}
