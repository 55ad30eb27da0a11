//! The environment that a crate is built in.

ghost use Rattle.std.specs.Prelude.{◌≡◌, ◌↔◌, [], map, is_some, string_bytes};
ghost use Rattle.std.specs.Prelude.{IfOk, IsTrue, OnOk, OnErr};
ghost use Rattle.std.specs.Option.{option_copied, option_map};
ghost use Rattle.std.specs.Iterator.{YieldsFirstBy, item_count};
ghost use Rattle.base_values.specs.ByText.{HasAscendingKeys, value_at};
ghost use Rattle.crate_graph_values.specs.Env.{TakesSome, pair_text, with_pair, with_pairs};

use base_text_paths::{ByText, Text, TryClone};
use std::alloc::{AllocError, Global};
use std::collections::btree_map;
use std::fmt;
use std::marker::Model;

/// An ordered map of variables to their values.
#[derive(PartialEq, Eq, Drop)]
pub struct Env {
    entries: ByText<Text>,
}

impl Model for Env {
    ghost use Rattle.std.specs.Prelude.{ℕ, List};

    ghost Value = { List (List ℕ × List ℕ) };

    ghost view = { λ a. a.entries };

    ghost inverse = { λ entries. record { entries = entries } };
}

impl Env {
    pub fn new(alloc: Global) -> Self
        ensures { result ≡ [] }
    {
        Env {
            entries: ByText::empty(alloc),
        }
    }

    pub fn set(&mut self, env: String, value: String) -> Result<(), AllocError>
        ensures ok { OnOk result (self.new ≡ with_pair self.old (env, value)) }
        ensures unchanged { OnErr result (self.new ≡ self.old) }
    {
        self.entries.insert(env, Text::new(value))?;
        Ok(())
    }

    /// Sets a variable, and gives the value that it had.
    pub fn insert(&mut self, k: String, v: String) -> Result<Option<String>, AllocError>
        ensures ok { OnOk result (self.new ≡ with_pair self.old (k, v)) }
        ensures had { IfOk result
            (λ had. option_map string_bytes had ≡ value_at (string_bytes k) self.old) }
        ensures unchanged { OnErr result (self.new ≡ self.old) }
    {
        let had = self.entries.insert(k, Text::new(v))?;
        Ok(had.map(Text::into_inner))
    }

    pub fn get(&self, env: &str) -> Option<&str>
        ensures { option_copied result ≡ value_at env.now self.now }
    {
        match self.entries.get(env) {
            Some(value) => Some(value.as_str()),
            None => None,
        }
    }

    pub fn contains_key(&self, arg: &str) -> bool
        ensures { result ≡ is_some (value_at arg.now self.now) }
    {
        self.entries.get(arg).is_some()
    }

    pub fn is_empty(&self) -> bool
        ensures { IsTrue result ↔ (self.now ≡ []) }
    {
        self.entries.is_empty()
    }

    /// Sets each variable of a list in turn. Where memory runs out, the first of them are set.
    pub fn extend(&mut self, pairs: Vec<(String, String)>) -> Result<(), AllocError>
        ensures ok { OnOk result (self.new ≡ with_pairs self.old (map pair_text pairs.items)) }
        ensures err { OnErr result (TakesSome self.old (map pair_text pairs.items) self.new) }
    {
        for (name, value) in pairs {
            self.set(name, value)?;
        }
        Ok(())
    }

    /// Sets each variable of another environment. Where memory runs out, the first of them are set.
    pub fn extend_from_other(&mut self, other: &Env) -> Result<(), AllocError>
        ensures ok { OnOk result (self.new ≡ with_pairs self.old other.now) }
        ensures err { OnErr result (TakesSome self.old other.now self.new) }
    {
        for (name, value) in other.entries.as_map() {
            self.set(
                name.clone()?,
                value.try_clone(*name.allocator())?.into_inner(),
            )?;
        }
        Ok(())
    }

    /// The variables and their values, by the bytes of the variables' names.
    pub fn into_vec(self, alloc: Global) -> Result<Vec<(String, String)>, AllocError>
        ensures same { IfOk result (λ pairs. map pair_text pairs.items ≡ self) }
        ensures ascending { IfOk result (λ pairs. HasAscendingKeys (map pair_text pairs.items)) }
    {
        let mut pairs = Vec::with_capacity(alloc, self.entries.len())?;
        for (name, value) in self.entries.into_inner() {
            pairs.push((name, value.into_inner()))?;
        }
        Ok(pairs)
    }

    /// The variables and their values, by the bytes of the variables' names.
    pub fn iter(&self) -> EnvIter<'_>
        ensures { result ≡ self.now }
    {
        EnvIter {
            left: self.entries.as_map().iter(),
        }
    }
}

impl TryClone for Env {
    fn try_clone(&self, alloc: Global) -> Result<Self, AllocError> {
        let entries = self.entries.try_clone(alloc)?;
        Ok(Env { entries })
    }
}

impl fmt::Debug for Env {
    fn fmt<W: fmt::Write>(&self, f: &mut fmt::Formatter<W>) -> fmt::Result {
        self.entries.as_map().fmt(f)
    }
}

/// The variables and values of an environment that are left.
#[derive(Drop)]
pub struct EnvIter<'a> {
    left: btree_map::Iter<'a, String, Text>,
}

impl<'a> Model for EnvIter<'a> {
    ghost use Rattle.std.specs.Prelude.{ℕ, List};
    ghost use Rattle.base_values.specs.ByText.{text_entries};

    ghost Value = { List (List ℕ × List ℕ) };

    ghost view = { λ it. text_entries it.left };
}

impl<'a> Iterator for EnvIter<'a> {
    type Item = (&'a str, &'a str);

    ghost next_gives = { YieldsFirstBy (λ item. (item.0.now, item.1.now)) (λ left. left) };

    ghost remaining = { item_count (λ left. left) };

    fn next(&mut self) -> Option<(&'a str, &'a str)> {
        let (name, value) = self.left.next()?;
        Some((name.as_str(), value.as_str()))
    }
}
