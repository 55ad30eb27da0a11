//! A value that several holders share, which contracts see as itself.

ghost use Rattle.std.specs.Prelude.{◌≡◌};

use crate::try_clone::TryClone;
use std::alloc::{AllocError, Global};
use std::marker::Model;
use std::rc::Rc;

/// A shared value. A copy shares it too.
#[derive(Debug, Drop)]
pub struct Shared<T> {
    inner: Rc<T>,
}

impl<T> Model for Shared<T> {
    ghost Value = { T };

    ghost view = { λ a. a.inner.value };
}

impl<T> Shared<T> {
    pub fn new(inner: Rc<T>) -> Self
        ensures { result ≡ inner.value }
    {
        Shared { inner }
    }

    pub fn get(&self) -> &T
        ensures { result.now ≡ self.now }
    {
        &self.inner
    }

    pub fn into_inner(self) -> Rc<T>
        ensures { result.value ≡ self }
    {
        self.inner
    }
}

impl<T: Drop> TryClone for Shared<T> {
    fn try_clone(&self, _alloc: Global) -> Result<Self, AllocError> {
        let inner = self.inner.clone()?;
        Ok(Shared { inner })
    }
}

impl<T: PartialEq> PartialEq for Shared<T> {
    ghost eq = { T.eq };

    ghost laws = { T.laws };

    fn eq(&self, other: &Self) -> bool {
        *self.get() == *other.get()
    }
}

impl<T: Eq> Eq for Shared<T> {
    ghost laws = { T.Eq.laws };
}
