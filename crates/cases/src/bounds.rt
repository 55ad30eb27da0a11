//! Values that are compared, hashed and copied at their bounds.

use crate::answer::List;
use crate::case::Fault;
use base_text::TryClone;
use serde_json::Value;
use std::alloc::{AllocError, Global};
use std::hash::{DefaultHasher, Hash, Hasher};

/// Whether a value is at most each of the others.
pub fn is_least<T: Ord>(value: &T, others: &[T]) -> bool {
    others.iter().all(|other| value <= other)
}

/// The hash of a value.
pub fn hash_of<T: Hash>(value: &T) -> u64 {
    let mut hasher = DefaultHasher::new();
    value.hash(&mut hasher);
    hasher.finish()
}

/// Whether two values are hashed alike, compare as equal, and are equal.
pub fn agreement_answer<T: Ord + Hash>(alloc: Global, left: &T, right: &T) -> Result<Value, Fault> {
    List::new(alloc)
        .flag(hash_of(left) == hash_of(right))
        .flag(left.cmp(right).is_eq())
        .flag(left == right)
        .answer()
}

/// An answer that is whether a value equals its copy.
pub fn copied_answer<T: TryClone + PartialEq + Drop>(
    alloc: Global,
    value: &T,
) -> Result<Value, Fault> {
    Ok(Value::from(is_copied(alloc, value)?))
}

/// Whether a value equals its copy.
pub fn is_copied<T: TryClone + PartialEq + Drop>(
    alloc: Global,
    value: &T,
) -> Result<bool, AllocError> {
    Ok(value.try_clone(alloc)? == *value)
}
