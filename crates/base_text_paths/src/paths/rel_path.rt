//! A path below some directory.

use std::fmt;

/// A path below some directory, which borrows its text. It is equal and printed as its text, which
/// is kept as it was given: `new` cleans nothing.
#[derive(Clone, Copy, Debug)]
pub struct RelPath<'a> {
    text: &'a str,
}

impl<'a> RelPath<'a> {
    ghost use Rattle.std.specs.Prelude.{◌≡◌};
    ghost use Rattle.base_text_paths.specs.AbsPath.{rel_text};

    pub fn new(text: &'a str) -> Self
        ensures { rel_text result ≡ text.now }
    {
        RelPath { text }
    }

    pub fn as_str(self) -> &'a str
        ensures { result.now ≡ rel_text self.entry }
    {
        self.text
    }
}

impl<'a> PartialEq for RelPath<'a> {
    ghost use Rattle.std.specs.Prelude.{bytes_eq};
    ghost use Rattle.std.specs.Cmp.{on_equiv, partial_equiv_from_equiv};
    ghost use Rattle.std.specs.Cmp.Lexicographic.{nat_list_eq_equiv};
    ghost use Rattle.std.specs.Ordering.{on};
    ghost use Rattle.base_text_paths.specs.AbsPath.{rel_text};

    ghost eq = { on rel_text bytes_eq };

    ghost laws = { partial_equiv_from_equiv (on_equiv rel_text nat_list_eq_equiv) };

    fn eq(&self, other: &Self) -> bool {
        self.text == other.text
    }
}

impl<'a> Eq for RelPath<'a> {
    ghost use Rattle.std.specs.Cmp.{on_equiv};
    ghost use Rattle.std.specs.Cmp.Lexicographic.{nat_list_eq_equiv};
    ghost use Rattle.base_text_paths.specs.AbsPath.{rel_text};

    ghost laws = { on_equiv rel_text nat_list_eq_equiv };
}

impl<'a> fmt::Display for RelPath<'a> {
    ghost use Rattle.std.specs.Prelude.{Some};
    ghost use Rattle.base_text_paths.specs.AbsPath.{rel_text};

    ghost output = { λ path. Some (rel_text path) };

    fn fmt<W: fmt::Write>(&self, f: &mut fmt::Formatter<W>) -> fmt::Result {
        f.pad(self.text)
    }
}
