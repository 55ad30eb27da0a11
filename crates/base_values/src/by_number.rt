//! A map from numbers that contracts see as a finite map.

ghost use Rattle.std.specs.Prelude.{◌≡◌, IfOk, OnErr, OnOk};
ghost use Rattle.std.specs.Borrow.{sem};
ghost use Rattle.std.specs.FinMap as map;
ghost use Rattle.std.specs.Option.{option_copied, option_copied_mut};

use crate::try_clone::TryClone;
use std::alloc::{AllocError, Global};
use std::collections::BTreeMap;
use std::marker::Model;

/// A map from numbers.
#[derive(Debug, Drop)]
pub struct ByNumber<V> {
    values: BTreeMap<u32, V>,
}

impl<V> Model for ByNumber<V> {
    ghost use Rattle.std.specs.Ordering.{nat_cmp};
    ghost use Rattle.std.specs.FinMap.{FinMap, code, from_entries};
    ghost use Rattle.std.specs.Coded.{coded_ℕ};

    ghost Value = { FinMap nat_cmp V };

    ghost coded = { code coded_ℕ V.code };

    ghost view = { λ a. from_entries a.values.entries };
}

impl<V> ByNumber<V> {
    ghost use Rattle.base_values.specs.ByNumberLends.{lends_value};

    pub fn new(alloc: Global) -> Self
        ensures { result ≡ map.empty }
    {
        ByNumber {
            values: BTreeMap::new(alloc),
        }
    }

    pub fn get(&self, number: u32) -> Option<&V>
        ensures { option_copied result ≡ map.get self.now number }
    {
        self.values.get(&number)
    }

    pub fn get_mut(&mut self, number: u32) -> Option<&mut V>
        ensures* writes_back { sem 𝓛 (lends_value V.row self.entry number result) }
        ensures value { option_copied_mut result ≡ map.get self.old number }
    {
        self.values.get_mut(&number)
    }
}

impl<V: Drop> ByNumber<V> {
    /// Puts a value at a number, and gives the one that was there.
    pub fn insert(&mut self, number: u32, value: V) -> Result<Option<V>, AllocError>
        ensures before { IfOk result (λ before. before ≡ map.get self.old number) }
        ensures ok { OnOk result (self.new ≡ map.insert self.old number value) }
        ensures err { OnErr result (self.new ≡ self.old) }
    {
        Ok(self.values.insert(number, value)?)
    }
}

impl<V: TryClone + Drop> TryClone for ByNumber<V> {
    fn try_clone(&self, alloc: Global) -> Result<Self, AllocError> {
        let mut copy = ByNumber::new(alloc);
        for (number, value) in self.values.iter() {
            drop(copy.insert(*number, value.try_clone(alloc)?)?);
        }
        Ok(copy)
    }
}

impl<V: PartialEq> PartialEq for ByNumber<V> {
    ghost use Rattle.base_values.specs.ByNumberEq.{same_map, same_map_per};

    ghost eq = { same_map V.eq };

    ghost laws = { same_map_per V.laws };

    fn eq(&self, other: &Self) -> bool {
        self.values.len() == other.values.len() && self.values == other.values
    }
}

impl<V: Eq> Eq for ByNumber<V> {
    ghost use Rattle.base_values.specs.ByNumberEq.{same_map_equiv};

    ghost laws = { same_map_equiv V.Eq.laws };
}
