//! Where each hash stands in a list of them: its first place, and from each place the next one.

ghost use Rattle.std.specs.Prelude.{◌≡◌, ◌+◌, ◌<◌, true, length, slice_index, IfOk};
ghost use Rattle.crate_graph.specs.Places.{IsFirst, value_hash};

use std::alloc::{AllocError, Global};
use std::collections::BTreeMap;
use std::hash::{DefaultHasher, Hash, Hasher};
use std::marker::Model;

/// A list of hashes, in which the places of a hash are found one after another.
#[derive(Drop)]
pub(super) struct Places {
    hashes: Vec<u64>,
    first: BTreeMap<u64, usize>,
    next: Vec<Option<usize>>,
}

impl Model for Places {
    ghost use Rattle.std.specs.Prelude.{ℕ, List, None};
    ghost use Rattle.std.specs.BTreeMap as tree;
    ghost use Rattle.std.specs.Ordering.{nat_cmp};
    ghost use Rattle.crate_graph.specs.Places as seen;

    ghost Value = { List ℕ };

    ghost view = { λ a. a.hashes.items };

    ghost invariant = { λ a. seen.ArePlaces a.hashes.items 0 (tree.get nat_cmp a.first)
        a.next.items };
}

impl Places {
    pub(super) fn new(alloc: Global, hashes: Vec<u64>) -> Result<Self, AllocError>
        ensures { IfOk result (λ places. places ≡ hashes.items) }
    {
        let mut first = BTreeMap::new(alloc);
        let mut next = vec![in alloc; None; hashes.len()]?;
        for done in 0..hashes.len() {
            let place = hashes.len() - 1 - done;
            next[place] = first.insert(hashes[place], place)?;
        }
        Ok(Places {
            hashes,
            first,
            next,
        })
    }

    pub(super) fn len(&self) -> usize
        ensures { result ≡ length self.now }
    {
        self.hashes.len()
    }

    /// The first place of a hash.
    pub(super) fn first(&self, hash: u64) -> Option<usize>
        ensures { IsFirst self.now hash 0 result }
    {
        self.first.get(&hash).copied()
    }

    /// The next place of the hash that stands at a place.
    pub(super) fn next(&self, place: usize) -> Option<usize>
        requires { place < length self.now }
        ensures { IsFirst self.now (slice_index self.now place) (place + 1) result }
    {
        self.next[place]
    }
}

/// The hash of a value. Equal values have one hash.
pub(super) fn hash_of<T: Hash>(value: &T) -> u64
    ensures hash { result ≡ value_hash T.hash_input value.now }
    ensures alike { (x : T) → T.eq x value.now ≡ true → value_hash T.hash_input x ≡ result }
{
    let mut state = DefaultHasher::new();
    value.hash(&mut state);
    state.finish()
}
