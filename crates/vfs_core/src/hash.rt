//! The hash by which contents are compared. Contents themselves are not kept here.

ghost use Rattle.std.specs.Prelude.{◌≡◌};
ghost use Rattle.vfs_core.specs.Hash.{content_hash};

const BASIS: u64 = 14695981039346656037;

const PRIME: u64 = 1099511628211;

/// The FNV-1a hash of 64 bits.
#[tactic(auto, unfolding(crate::specs::Hash::content_hash))]
pub fn content_hash(bytes: &[u8]) -> u64
    ensures { result ≡ content_hash bytes.now }
{
    let mut hash = BASIS;
    for byte in bytes {
        hash = (hash ^ *byte as u64).wrapping_mul(PRIME);
    }
    hash
}
