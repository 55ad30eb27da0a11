//! A name in a program, as that of a crate or of a cfg: a text that is only compared and printed.

ghost use Rattle.std.specs.Prelude.{◌≡◌, IfOk, string_bytes};

use base_values::{Text, TryClone};
use std::alloc::{AllocError, Global};
use std::cmp::Ordering;
use std::fmt;
use std::hash::{Hash, Hasher};
use std::marker::Model;

/// A name, which contracts see as its bytes. Names are ordered by their bytes.
#[derive(Debug, PartialEq, Eq, PartialOrd, Ord, Hash, Drop)]
pub struct Symbol {
    text: Text,
}

impl Model for Symbol {
    ghost use Rattle.std.specs.Prelude.{ℕ, List};

    ghost Value = { List ℕ };

    ghost view = { λ a. a.text };

    ghost inverse = { λ bytes. record { text = bytes } };
}

impl Symbol {
    pub fn new(text: String) -> Self
        ensures { result ≡ string_bytes text }
    {
        Symbol {
            text: Text::new(text),
        }
    }

    /// A copy of a text, as a name.
    pub fn of_str(alloc: Global, text: &str) -> Result<Self, AllocError>
        ensures { IfOk result (λ copy. copy ≡ text.now) }
    {
        let text = Text::of_str(alloc, text)?;
        Ok(Symbol { text })
    }

    pub fn as_str(&self) -> &str
        ensures { result.now ≡ self.now }
    {
        self.text.as_str()
    }
}

impl TryClone for Symbol {
    fn try_clone(&self, alloc: Global) -> Result<Self, AllocError> {
        let text = self.text.try_clone(alloc)?;
        Ok(Symbol { text })
    }
}

impl fmt::Display for Symbol {
    ghost use Rattle.std.specs.Prelude.{Some};

    ghost output = { λ a. Some a };

    fn fmt<W: fmt::Write>(&self, f: &mut fmt::Formatter<W>) -> fmt::Result {
        f.pad(self.text.as_str())
    }
}
