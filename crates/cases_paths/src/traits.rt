//! Sources and sinks of bytes, and counts, at the bounds of their traits.

mod broken;
pub mod counts;
pub mod sinks;
pub mod sources;

use cases::Case;
use std::alloc::{AllocError, Global};

/// The numbers of a list.
pub fn numbers(alloc: Global, case: Case<'_>, key: &'static str) -> Result<Vec<u64>, AllocError> {
    let mut numbers = Vec::new(alloc);
    for value in case.list(key) {
        numbers.push(case.with(value).as_number())?;
    }
    Ok(numbers)
}
