//! Names, typed by a tag that says what they name.

ghost use Rattle.std.specs.Prelude.{◌≡◌, bytes_eq};

use crate::text::Text;
use crate::try_clone::TryClone;
use std::alloc::{AllocError, Global};
use std::fmt;
use std::hash::Hash;
use std::marker::{Model, PhantomData};

/// A name of what the tag `K` stands for, seen as its text. Names of different tags are different
/// types; within one they are equal, ordered, hashed and printed as their texts.
#[derive(Drop)]
#[derive_where(Debug, PartialEq, Eq, PartialOrd, Ord, Hash)]
pub struct Name<K> {
    name: Text,
    tag: PhantomData<K>,
}

impl<K> Model for Name<K> {
    ghost use Rattle.std.specs.Prelude.{ℕ, List};

    ghost Value = { List ℕ };

    ghost view = { λ a. a.name };

    ghost inverse = { λ text. record { name = text; tag = record {} } };
}

impl<K> Name<K> {
    pub fn new(name: Text) -> Self
        ensures { result ≡ name }
    {
        Name {
            name,
            tag: PhantomData,
        }
    }

    pub fn into_inner(self) -> Text
        ensures { result ≡ self }
    {
        self.name
    }

    pub fn as_str(&self) -> &str
        ensures { result.now ≡ self.now }
    {
        self.name.as_str()
    }

    /// Whether the name is that text.
    pub fn eq_str(&self, other: &str) -> bool
        ensures { result ≡ bytes_eq self.now other.now }
    {
        self.name.as_str() == other
    }
}

impl<K> TryClone for Name<K> {
    fn try_clone(&self, alloc: Global) -> Result<Self, AllocError> {
        let name = self.name.try_clone(alloc)?;
        Ok(Name::new(name))
    }
}

impl<K> fmt::Display for Name<K> {
    ghost use Rattle.std.specs.Prelude.{Some};

    ghost output = { Some };

    fn fmt<W: fmt::Write>(&self, f: &mut fmt::Formatter<W>) -> fmt::Result {
        f.pad(self.name.as_str())
    }
}
