//! Values beside those of an arena: a map from the arena's numbers.

ghost use Rattle.std.specs.Prelude.{◌≡◌, IfOk, OnOk, OnErr};
ghost use Rattle.std.specs.Option.{option_copied, option_copied_mut};
ghost use Rattle.std.specs.FinMap as map;
ghost use Rattle.std.specs.Borrow.{sem};
ghost use Rattle.base_text_paths.specs.Arena.{number_of};

use crate::arena::Idx;
use base_values::{ByNumber, TryClone};
use std::alloc::{AllocError, Global};
use std::marker::{Model, PhantomData};

/// A map from the numbers of an arena whose tag is `K`.
#[derive(Drop)]
#[derive_where(Debug, PartialEq, Eq; V)]
pub struct ArenaMap<K, V> {
    values: ByNumber<V>,
    tag: PhantomData<K>,
}

impl<K, V> Model for ArenaMap<K, V> {
    ghost use Rattle.std.specs.Ordering.{nat_cmp};
    ghost use Rattle.std.specs.FinMap.{FinMap, code};
    ghost use Rattle.std.specs.Coded.{coded_ℕ};

    ghost Value = { FinMap nat_cmp V };

    ghost coded = { code coded_ℕ V.code };

    ghost view = { λ a. a.values };

    ghost inverse = { λ values. record { values = values; tag = record {} } };
}

impl<K, V> ArenaMap<K, V> {
    ghost use Rattle.base_text_paths.specs.ArenaMapLends.{lends_entry};

    pub fn new(alloc: Global) -> Self
        ensures { result ≡ map.empty }
    {
        ArenaMap {
            values: ByNumber::new(alloc),
            tag: PhantomData,
        }
    }

    pub fn get(&self, id: Idx<K>) -> Option<&V>
        ensures { option_copied result ≡ map.get self.now (number_of id) }
    {
        self.values.get(id.into_raw())
    }

    pub fn get_mut(&mut self, id: Idx<K>) -> Option<&mut V>
        ensures* writes_back { sem 𝓛 (lends_entry K.row V.row self.entry (number_of id) result) }
        ensures value { option_copied_mut result ≡ map.get self.old (number_of id) }
    {
        self.values.get_mut(id.into_raw())
    }
}

impl<K, V: Drop> ArenaMap<K, V> {
    /// Puts a value at a number, and gives the one that was there.
    pub fn insert(&mut self, id: Idx<K>, value: V) -> Result<Option<V>, AllocError>
        ensures old { IfOk result (λ old. old ≡ map.get self.old (number_of id)) }
        ensures put { OnOk result (self.new ≡ map.insert self.old (number_of id) value) }
        ensures unchanged { OnErr result (self.new ≡ self.old) }
    {
        Ok(self.values.insert(id.into_raw(), value)?)
    }
}

impl<K, V: TryClone + Drop> TryClone for ArenaMap<K, V> {
    fn try_clone(&self, alloc: Global) -> Result<Self, AllocError> {
        let values = self.values.try_clone(alloc)?;
        Ok(ArenaMap {
            values,
            tag: PhantomData,
        })
    }
}
