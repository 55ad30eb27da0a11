//! Copies that may find no memory. A copy equals its original, which a `Clone` need not say.

ghost use Rattle.std.specs.Prelude.{◌≡◌, IfOk};

use std::alloc::{AllocError, Global};

/// A value that can be copied where memory allows.
pub trait TryClone: Sized {
    /// A copy that equals the original.
    fn try_clone(&self, alloc: Global) -> Result<Self, AllocError>
        ensures { IfOk result (λ copy. copy ≡ self.now) };
}

impl TryClone for bool {
    fn try_clone(&self, _alloc: Global) -> Result<Self, AllocError> {
        Ok(*self)
    }
}

impl TryClone for u64 {
    fn try_clone(&self, _alloc: Global) -> Result<Self, AllocError> {
        Ok(*self)
    }
}

impl<T: TryClone> TryClone for Option<T> {
    fn try_clone(&self, alloc: Global) -> Result<Self, AllocError> {
        match self {
            None => Ok(None),
            Some(value) => {
                let copy = value.try_clone(alloc)?;
                Ok(Some(copy))
            }
        }
    }
}

impl<A: TryClone + Drop, B: TryClone> TryClone for (A, B) {
    fn try_clone(&self, alloc: Global) -> Result<Self, AllocError> {
        let first = self.0.try_clone(alloc)?;
        let second = self.1.try_clone(alloc)?;
        Ok((first, second))
    }
}
