//! The roots of sets by their texts, one map for each kind, and the search for the longest that begins a text.

ghost use Rattle.std.specs.Prelude.{◌≡◌, ◌≤◌, IfOk, MatchOption, OnOk, length, take};
ghost use Rattle.vfs_sets.specs.Placement.{begins_text};
ghost use Rattle.vfs_sets.specs.RootMaps.{HasNoPrefix, HasTextsUpTo, IsOfLongestPrefix, MapsRoots, PutsRoot, PutsRootsOf, longest_text, longest_text_of_all};

use base_text_paths::{Items, Ledger, Steps};
use std::alloc::{AllocError, Global};
use std::collections::HashMap;
use vfs_core::VfsPath;

/// The roots of a kind, each with the least set that has it. The sets come from the last to the first.
pub(crate) fn map_roots(
    alloc: Global,
    sets: &[Items<VfsPath>],
    is_virtual: bool,
) -> Result<HashMap<Vec<u8>, u64>, AllocError>
    ensures { IfOk result (λ map. MapsRoots is_virtual sets.now map.entries) }
{
    let mut map = HashMap::new(alloc);
    let mut number = sets.len();
    while number > 0 {
        number -= 1;
        put_roots_of(
            alloc,
            &mut map,
            sets[number].as_slice(),
            is_virtual,
            number as u64,
        )?;
    }
    Ok(map)
}

/// Puts a set's number beside each of its roots of a kind, over what stood there.
fn put_roots_of(
    alloc: Global,
    map: &mut HashMap<Vec<u8>, u64>,
    roots: &[VfsPath],
    is_virtual: bool,
    number: u64,
) -> Result<(), AllocError>
    ensures { OnOk result
        (PutsRootsOf is_virtual roots.now number map.old.entries map.new.entries) }
{
    for root in roots {
        put_root(alloc, map, root, is_virtual, number)?;
    }
    Ok(())
}

/// Puts a set's number beside a root, if that is of a kind.
fn put_root(
    alloc: Global,
    map: &mut HashMap<Vec<u8>, u64>,
    root: &VfsPath,
    is_virtual: bool,
    number: u64,
) -> Result<(), AllocError>
    ensures { OnOk result (PutsRoot is_virtual root.now number map.old.entries map.new.entries) }
{
    if root.is_virtual() == is_virtual {
        let text = root.as_str().as_bytes().to_vec(alloc)?;
        map.insert(text, number)?;
    }
    Ok(())
}

/// The length of the longest text of all roots of sets, or 0 where there is none.
pub(crate) fn longest_root(sets: &[Items<VfsPath>]) -> usize
    ensures { result ≡ longest_text_of_all sets.now }
{
    let mut longest = 0;
    for roots in sets {
        longest = longest.max(longest_root_of(roots.as_slice()));
    }
    longest
}

/// The same of the roots of a set.
fn longest_root_of(roots: &[VfsPath]) -> usize
    ensures { result ≡ longest_text roots.now }
{
    let mut longest = 0;
    for root in roots {
        longest = longest.max(root.as_str().len());
    }
    longest
}

/// The number beside the longest prefix of a text that has one, of the prefixes that begin it by whole components. The text
/// itself comes first, and each prefix is a step. One that is longer than every text of the map is not looked up.
pub(crate) fn number_of_longest_prefix<L: Ledger>(
    map: &HashMap<Vec<u8>, u64>,
    longest: usize,
    text: &[u8],
    steps: &mut Steps<L>,
) -> Option<u64>
    requires { HasTextsUpTo longest map.now.entries }
    ensures { MatchOption result
        (HasNoPrefix map.now.entries text.now
        (L.count steps.old.ledger) (L.count steps.new.ledger))
        (λ number. IsOfLongestPrefix map.now.entries text.now number
        (L.count steps.old.ledger) (L.count steps.new.ledger)) }
{
    let mut untried = text.len() + 1;
    while untried > 0 {
        untried -= 1;
        if !ends_component(text, untried) {
            continue;
        }
        steps.ledger.tick();
        if untried <= longest {
            if let Some(number) = map.get(&text[..untried]) {
                return Some(*number);
            }
        }
    }
    None
}

/// Whether a component of a text ends after so many of its bytes: the text ends there, or a slash is next to that place.
fn ends_component(text: &[u8], size: usize) -> bool
    requires { size ≤ length text.now }
    ensures { result ≡ begins_text (take size text.now) text.now }
{
    size == text.len() || text[size] == b'/' || size > 0 && text[size - 1] == b'/'
}
