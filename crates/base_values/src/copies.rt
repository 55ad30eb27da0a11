//! Copies of slices and of maps, item by item and in their order.

ghost use Rattle.std.specs.Prelude.{◌≡◌, IfOk, OnOk};
ghost use Rattle.indexmap.specs.IndexMap.{insert_entry};

use crate::try_clone::TryClone;
use indexmap::IndexMap;
use std::alloc::{AllocError, Global};
use std::hash::Hash;

/// Copies of the items of a slice.
pub fn copy_items<T: TryClone + Drop>(alloc: Global, items: &[T]) -> Result<Vec<T>, AllocError>
    ensures { IfOk result (λ copies. copies.items ≡ items.now) }
{
    let mut copies = Vec::new(alloc);
    for item in items {
        copies.push(item.try_clone(alloc)?)?;
    }
    Ok(copies)
}

/// A map with copies of the keys and values of another.
pub fn copy_entries<K: TryClone + Eq + Hash + Drop, V: TryClone + Drop>(
    alloc: Global,
    entries: &IndexMap<K, V>,
) -> Result<IndexMap<K, V>, AllocError>
    ensures { IfOk result (λ copy. copy.entries ≡ entries.now.entries) }
{
    let mut copy = IndexMap::new(alloc);
    for (key, value) in entries.iter() {
        insert_copy(alloc, &mut copy, key, value)?;
    }
    Ok(copy)
}

// Puts a copy of an entry into a map.
fn insert_copy<K: TryClone + Eq + Hash + Drop, V: TryClone + Drop>(
    alloc: Global,
    entries: &mut IndexMap<K, V>,
    key: &K,
    value: &V,
) -> Result<(), AllocError>
    ensures { OnOk result (entries.new.entries
        ≡ insert_entry K.eq entries.old.entries key.now value.now) }
{
    let key = key.try_clone(alloc)?;
    drop(entries.insert(key, value.try_clone(alloc)?)?);
    Ok(())
}
