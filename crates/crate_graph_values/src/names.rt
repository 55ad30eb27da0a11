//! The names of crates: one under which code knows a crate, and one that is shown.

ghost use Rattle.std.specs.Prelude.{◌≡◌, false, IfOk, IfErr, Some, is_err, string_bytes};
ghost use Rattle.crate_graph_values.specs.Names.{has_dash, shown_as, with_underscores};

use base_text_paths::{Symbol, TryClone};
use std::alloc::{AllocError, Global};
use std::fmt;
use std::marker::Model;

/// The name under which code knows a crate. It holds no dash.
#[derive(Debug, PartialEq, Eq, PartialOrd, Ord, Hash, Drop)]
pub struct CrateName {
    name: Symbol,
}

impl Model for CrateName {
    ghost use Rattle.std.specs.Prelude.{◌≡◌, ℕ, List, false};
    ghost use Rattle.crate_graph_values.specs.Names.{has_dash};

    ghost Value = { List ℕ };

    ghost view = { λ a. a.name };

    ghost invariant = { λ a. has_dash a.name ≡ false };

    ghost inverse = { λ bytes. record { name = bytes } };
}

impl CrateName {
    /// The name, or the text again where it holds a dash.
    pub fn new(name: String) -> Result<Self, String>
        ensures ok { IfOk result (λ made. made ≡ string_bytes name) }
        ensures err { IfErr result (λ text. text ≡ name) }
        ensures exact { is_err result ≡ has_dash (string_bytes name) }
    {
        if holds_dash(name.as_str()) {
            return Err(name);
        }
        Ok(CrateName {
            name: Symbol::new(name),
        })
    }

    /// The name of a text, with an underscore for each dash.
    pub fn normalize_dashes(alloc: Global, name: &str) -> Result<Self, AllocError>
        ensures { IfOk result (λ made. made ≡ with_underscores name.now) }
    {
        let text = underscore(alloc, name)?;
        Ok(CrateName {
            name: Symbol::new(text),
        })
    }

    pub fn symbol(&self) -> &Symbol
        ensures same { result.now ≡ self.now }
        ensures no_dash { has_dash result.now ≡ false }
    {
        &self.name
    }
}

fn holds_dash(text: &str) -> bool
    ensures { result ≡ has_dash text.now }
{
    text.contains('-')
}

// The text with an underscore for each dash.
fn underscore(alloc: Global, name: &str) -> Result<String, AllocError>
    ensures value { IfOk result (λ text. string_bytes text ≡ with_underscores name.now) }
    ensures no_dash { IfOk result (λ text. has_dash (string_bytes text) ≡ false) }
{
    let mut text = String::new(alloc);
    let mut rest = name;
    while let Some((before, after)) = rest.split_once('-') {
        text.push_str(before)?;
        text.push_str("_")?;
        rest = after;
    }
    text.push_str(rest)?;
    Ok(text)
}

impl TryClone for CrateName {
    fn try_clone(&self, alloc: Global) -> Result<Self, AllocError> {
        let name = self.name.try_clone(alloc)?;
        Ok(CrateName { name })
    }
}

impl fmt::Display for CrateName {
    ghost output = { λ a. Some a };

    fn fmt<W: fmt::Write>(&self, f: &mut fmt::Formatter<W>) -> fmt::Result {
        f.write_str(self.name.as_str())
    }
}

/// The names under which a crate is shown.
#[derive(Debug, PartialEq, Eq, Hash, Drop)]
pub struct CrateDisplayName {
    crate_name: CrateName,
    // As the crate calls itself, maybe with dashes.
    canonical_name: Symbol,
}

impl Model for CrateDisplayName {
    ghost use Rattle.crate_graph_values.specs.Names.{DisplayName};

    ghost Value = { DisplayName };

    ghost view = { λ a. record {
      crate_name = a.crate_name;
      canonical_name = a.canonical_name;
    } };

    ghost inverse = { λ v. record {
      crate_name = v.crate_name;
      canonical_name = v.canonical_name;
    } };
}

impl CrateDisplayName {
    /// The names of a crate that calls itself so.
    pub fn from_canonical_name(alloc: Global, name: &str) -> Result<Self, AllocError>
        ensures { IfOk result (λ made. made ≡ shown_as name.now) }
    {
        let crate_name = CrateName::normalize_dashes(alloc, name)?;
        let canonical_name = Symbol::of_str(alloc, name)?;
        Ok(CrateDisplayName {
            crate_name,
            canonical_name,
        })
    }

    /// The names of a crate of which no other is known.
    pub fn from_name(alloc: Global, name: CrateName) -> Result<Self, AllocError>
        ensures { IfOk result (λ made. made ≡ record { crate_name = name; canonical_name = name }) }
    {
        let canonical_name = name.symbol().try_clone(alloc)?;
        Ok(CrateDisplayName {
            crate_name: name,
            canonical_name,
        })
    }

    pub fn canonical_name(&self) -> &Symbol
        ensures { result.now ≡ self.now.canonical_name }
    {
        &self.canonical_name
    }

    pub fn crate_name(&self) -> &CrateName
        ensures { result.now ≡ self.now.crate_name }
    {
        &self.crate_name
    }
}

impl TryClone for CrateDisplayName {
    fn try_clone(&self, alloc: Global) -> Result<Self, AllocError> {
        let crate_name = self.crate_name.try_clone(alloc)?;
        let canonical_name = self.canonical_name.try_clone(alloc)?;
        Ok(CrateDisplayName {
            crate_name,
            canonical_name,
        })
    }
}

impl fmt::Display for CrateDisplayName {
    ghost output = { λ a. Some a.crate_name };

    fn fmt<W: fmt::Write>(&self, f: &mut fmt::Formatter<W>) -> fmt::Result {
        f.write_str(self.crate_name.symbol().as_str())
    }
}
