//! Values under numbers, in the order in which they came. A number is typed by a tag and not by
//! the values' own type, so that a type may hold numbers of its own kind.

ghost use Rattle.std.specs.Prelude.{◌≡◌, ◌+◌, ◌-◌, ◌^◌, ◌<◌, ◌∷◌, [], ◌++◌, length, Some};
ghost use Rattle.std.specs.Prelude.{IfOk, OnOk, OnErr, slice_get};
ghost use Rattle.std.specs.Option.{option_copied, option_copied_mut};
ghost use Rattle.std.specs.Iterator.{YieldsFirstBy, item_count};
ghost use Rattle.std.specs.Borrow.{sem};
ghost use Rattle.base_text_paths.specs.Arena.{number_of, with_numbers};

use base_values::TryClone;
use std::alloc::{AllocError, Global};
use std::hash::Hash;
use std::marker::{Model, PhantomData};
use std::ops::Index;

/// The number of a value in an arena whose tag is `K`.
#[derive_where(Clone, Copy, Debug, PartialEq, Eq, PartialOrd, Ord, Hash)]
pub struct Idx<K> {
    raw: u32,
    tag: PhantomData<K>,
}

impl<K> Idx<K> {
    pub fn from_raw(raw: u32) -> Self
        ensures { number_of result ≡ raw }
    {
        Idx {
            raw,
            tag: PhantomData,
        }
    }

    pub fn into_raw(self) -> u32
        ensures { result ≡ number_of self }
    {
        self.raw
    }
}

impl<K> TryClone for Idx<K> {
    fn try_clone(&self, _alloc: Global) -> Result<Self, AllocError> {
        Ok(*self)
    }
}

/// Values in order, each under its number. None is ever removed.
#[derive(Drop)]
#[derive_where(Debug; T)]
pub struct Arena<K, T> {
    items: Vec<T>,
    tag: PhantomData<K>,
}

impl<K, T> Model for Arena<K, T> {
    ghost use Rattle.std.specs.Prelude.{List, length, ◌<◌, ◌^◌};

    ghost Value = { List T };

    ghost view = { λ a. a.items.items };

    ghost invariant = { λ a. length a.items.items < 2 ^ 32 };
}

impl<K, T> Arena<K, T> {
    ghost use Rattle.base_text_paths.specs.ArenaLends.{lends_item};

    pub fn new(alloc: Global) -> Self
        ensures { result ≡ [] }
    {
        Arena {
            items: Vec::new(alloc),
            tag: PhantomData,
        }
    }

    pub fn len(&self) -> usize
        ensures { result ≡ length self.now }
    {
        self.items.len()
    }

    pub fn get(&self, id: Idx<K>) -> Option<&T>
        ensures { option_copied result ≡ slice_get self.now (number_of id) }
    {
        self.items.get(id.raw as usize)
    }

    pub fn get_mut(&mut self, id: Idx<K>) -> Option<&mut T>
        ensures* writes_back { sem 𝓛 (lends_item K.row T.row self.entry (number_of id) result) }
        ensures value { option_copied_mut result ≡ slice_get self.old (number_of id) }
    {
        self.items.get_mut(id.raw as usize)
    }

    /// The numbers and values, from the first on.
    pub fn iter(&self) -> Iter<'_, K, T>
        ensures { result ≡ with_numbers self.now }
    {
        Iter {
            left: self.items.as_slice(),
            next: 0,
            tag: PhantomData,
        }
    }
}

impl<K, T: Drop> Arena<K, T> {
    /// Puts a value at the end, under the next number.
    pub fn alloc(&mut self, value: T) -> Result<Idx<K>, AllocError>
        requires { length self.old < 2 ^ 32 - 1 }
        ensures next { IfOk result (λ id. number_of id ≡ length self.old) }
        ensures added { OnOk result (self.new ≡ self.old ++ value ∷ []) }
        ensures unchanged { OnErr result (self.new ≡ self.old) }
    {
        let raw = self.items.len() as u32;
        self.items.push(value)?;
        Ok(Idx::from_raw(raw))
    }
}

impl<K, T> Index<Idx<K>> for Arena<K, T> {
    type Output = T;

    ghost can_index = { λ values id. number_of id < length values };

    ghost index_gives = { λ values id value. slice_get values (number_of id) ≡ Some value };

    fn index(&self, id: Idx<K>) -> &T {
        &self.items[id.raw as usize]
    }
}

impl<K, T: PartialEq> PartialEq for Arena<K, T> {
    ghost use Rattle.std.specs.Cmp.Lexicographic.{pointwise, lists_per};

    ghost eq = { pointwise T.eq };

    ghost laws = { lists_per T.laws };

    fn eq(&self, other: &Self) -> bool {
        self.items.as_slice() == other.items.as_slice()
    }
}

impl<K, T: Eq> Eq for Arena<K, T> {
    ghost use Rattle.std.specs.Cmp.Lexicographic.{lists_equiv};

    ghost laws = { lists_equiv T.Eq.laws };
}

/// The numbers and values of an arena that are left, from the first on.
#[derive(Drop)]
pub struct Iter<'a, K, T> {
    left: &'a [T],
    // The number of the first of `left`.
    next: u32,
    tag: PhantomData<K>,
}

impl<'a, K, T> Model for Iter<'a, K, T> {
    ghost use Rattle.std.specs.Prelude.{ℕ, List, length, ◌+◌, ◌<◌, ◌^◌};
    ghost use Rattle.std.specs.List.{enumerate_from};

    ghost Value = { List (ℕ × T) };

    ghost view = { λ it. enumerate_from it.next it.left.now };

    ghost invariant = { λ it. it.next + length it.left.now < 2 ^ 32 };
}

impl<'a, K, T> Iterator for Iter<'a, K, T> {
    type Item = (Idx<K>, &'a T);

    ghost next_gives = { YieldsFirstBy (λ item. (number_of item.0, item.1.now)) (λ left. left) };

    ghost remaining = { item_count (λ left. left) };

    fn next(&mut self) -> Option<(Idx<K>, &'a T)> {
        let (first, others) = self.left.split_first()?;
        let id = Idx::from_raw(self.next);
        self.left = others;
        self.next += 1;
        Some((id, first))
    }
}
