//! Atoms of conditional compilation, as `unix` and `feature="std"`, and how they are written.

ghost use Rattle.std.specs.Prelude.{◌≡◌, ◌↔◌, ◌∷◌, [], ◌++◌, Some, None, string_bytes};
ghost use Rattle.std.specs.Prelude.{IfSome, IfOk, IsErrOf};
ghost use Rattle.std.specs.Option.{option_copied};
ghost use Rattle.base_text_outside.specs.declared.cfg.CfgError.TheVariants.{OutOfMemory};
ghost use Rattle.base_text_outside.specs.Cfg.{atom_of, atom_text, unquote};

use crate::symbol::Symbol;
use base_values::TryClone;
use std::alloc::{AllocError, Global};
use std::error::Error;
use std::fmt;

/// What a `cfg` asks for. Flags come before keys, and then the order is that of the names.
#[derive(Debug, PartialEq, Eq, PartialOrd, Ord, Hash, Drop)]
pub enum CfgAtom {
    Flag(Symbol),
    KeyValue { key: Symbol, value: Symbol },
}

impl TryClone for CfgAtom {
    fn try_clone(&self, alloc: Global) -> Result<Self, AllocError> {
        match self {
            CfgAtom::Flag(name) => {
                let name = name.try_clone(alloc)?;
                Ok(CfgAtom::Flag(name))
            }
            CfgAtom::KeyValue { key, value } => {
                let key = key.try_clone(alloc)?;
                let value = value.try_clone(alloc)?;
                Ok(CfgAtom::KeyValue { key, value })
            }
        }
    }
}

/// Why a text is no atom.
#[derive(Clone, Copy, Debug, PartialEq, Eq)]
pub enum CfgError {
    /// What follows the first `=` stands in no quotes.
    BadCfg,
    OutOfMemory,
}

impl fmt::Display for CfgError {
    ghost use Rattle.std.specs.Prelude.{Some};
    ghost use Rattle.base_text_outside.specs.Cfg.{cfg_error_text};

    ghost output = { λ e. Some (cfg_error_text e) };

    fn fmt<W: fmt::Write>(&self, f: &mut fmt::Formatter<W>) -> fmt::Result {
        match self {
            CfgError::BadCfg => write!(f, "BadCfg"),
            CfgError::OutOfMemory => write!(f, "OutOfMemory"),
        }
    }
}

impl Error for CfgError {}

impl From<AllocError> for CfgError {
    ghost from_gives = { λ _ e. e ≡ OutOfMemory };

    fn from(_error: AllocError) -> Self {
        CfgError::OutOfMemory
    }
}

// What stands between the quotes of a text.
fn unquote(text: &str) -> Option<&str>
    ensures value { option_copied result ≡ unquote text.now }
    ensures between { IfSome result (λ value. text.now ≡ 34 ∷ (value.now ++ 34 ∷ [])) }
{
    let after = text.strip_prefix('"')?;
    after.strip_suffix('"')
}

/// The atom that a line of `rustc --print cfg` names. The text is cut at its first `=`, and the
/// value stands between a `"` at each end, with nothing escaped.
pub fn parse_cfg(alloc: Global, text: &str) -> Result<CfgAtom, CfgError>
    ensures ok { IfOk result (λ atom. atom_of text.now ≡ Some atom) }
    ensures bad { IsErrOf result CfgError.BadCfg ↔ (atom_of text.now ≡ None) }
    ensures again { IfOk result (λ atom. atom_of (atom_text atom) ≡ Some atom) }
{
    match text.split_once('=') {
        None => {
            let name = Symbol::of_str(alloc, text)?;
            Ok(CfgAtom::Flag(name))
        }
        Some((key, quoted)) => match unquote(quoted) {
            None => Err(CfgError::BadCfg),
            Some(value) => {
                let key = Symbol::of_str(alloc, key)?;
                let value = Symbol::of_str(alloc, value)?;
                Ok(CfgAtom::KeyValue { key, value })
            }
        },
    }
}

/// The text that names an atom.
#[tactic(auto, unfolding(crate::specs::Cfg::atom_text))]
pub fn write_cfg(alloc: Global, atom: &CfgAtom) -> Result<String, AllocError>
    ensures { IfOk result (λ text. string_bytes text ≡ atom_text atom.now) }
{
    match atom {
        CfgAtom::Flag(name) => String::from_str(alloc, name.as_str()),
        CfgAtom::KeyValue { key, value } => {
            let mut text = String::from_str(alloc, key.as_str())?;
            text.push_str("=\"")?;
            text.push_str(value.as_str())?;
            text.push_str("\"")?;
            Ok(text)
        }
    }
}
