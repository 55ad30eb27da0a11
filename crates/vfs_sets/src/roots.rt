//! The encodings of all roots in byte order, each with the least set that has a root of it.

ghost use Rattle.std.specs.Prelude.{◌≡◌, IfOk, OnOk};
ghost use Rattle.vfs_sets.specs.Placement.{encoding};
ghost use Rattle.vfs_sets.specs.Roots.{AreRoots, PutsRoots};

use base_text_paths::Items;
use std::alloc::{AllocError, Global};
use std::collections::BTreeMap;
use vfs_core::VfsPath;

/// The encoding of a path: a byte for its kind, then its text.
fn encoding(alloc: Global, path: &VfsPath) -> Result<Items<u8>, AllocError>
    ensures { IfOk result (λ bytes. bytes ≡ encoding path.now) }
{
    let mut bytes = Vec::new(alloc);
    bytes.push(if path.is_virtual() { 1 } else { 0 })?;
    bytes.extend_from_slice(path.as_str().as_bytes())?;
    Ok(Items::new(bytes))
}

/// Puts a set's number beside the encoding of each of its roots, over what stood there.
fn put_roots(
    alloc: Global,
    numbers: &mut BTreeMap<Items<u8>, u64>,
    roots: &[VfsPath],
    number: u64,
) -> Result<(), AllocError>
    ensures { OnOk result (PutsRoots numbers.old.entries numbers.new.entries roots.now number) }
{
    for root in roots {
        let bytes = encoding(alloc, root)?;
        numbers.insert(bytes, number)?;
    }
    Ok(())
}

/// The encodings, each with the least set, since the sets come from the last to the first.
pub(crate) fn roots(
    alloc: Global,
    sets: &[Items<VfsPath>],
) -> Result<Vec<(Items<u8>, u64)>, AllocError>
    ensures { IfOk result (λ pairs. AreRoots sets.now pairs.items) }
{
    let mut numbers = BTreeMap::new(alloc);
    let mut number = sets.len();
    while number > 0 {
        number -= 1;
        put_roots(alloc, &mut numbers, sets[number].as_slice(), number as u64)?;
    }
    numbers.into_iter().collect(alloc)
}
