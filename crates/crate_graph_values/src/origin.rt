//! Where a crate comes from: the project, a library, the language or the compiler.

ghost use Rattle.std.specs.Prelude.{◌≡◌, Some};
ghost use Rattle.crate_graph_values.specs.Origin.{is_lang, is_library_origin, is_local, lang_origin_of, lang_text};

use base_text_paths::{Symbol, Text, TryClone};
use std::alloc::{AllocError, Global};
use std::fmt;

/// Where a crate comes from.
#[derive(Debug, PartialEq, Eq, PartialOrd, Ord, Hash, Drop)]
pub enum CrateOrigin {
    /// A crate of the compiler's own workspace.
    Rustc {
        name: Symbol,
    },
    /// A member of the project's workspace.
    Local {
        repo: Option<Text>,
        name: Option<Symbol>,
    },
    /// A library that is no member.
    Library {
        repo: Option<Text>,
        name: Symbol,
    },
    /// A crate that comes with the language.
    Lang(LangCrateOrigin),
}

impl CrateOrigin {
    pub fn is_local(&self) -> bool
        ensures { result ≡ is_local self.now }
    {
        matches!(self, CrateOrigin::Local { .. })
    }

    pub fn is_lib(&self) -> bool
        ensures { result ≡ is_library_origin self.now }
    {
        matches!(self, CrateOrigin::Library { .. })
    }

    pub fn is_lang(&self) -> bool
        ensures { result ≡ is_lang self.now }
    {
        matches!(self, CrateOrigin::Lang(_))
    }
}

impl TryClone for CrateOrigin {
    fn try_clone(&self, alloc: Global) -> Result<Self, AllocError> {
        match self {
            CrateOrigin::Rustc { name } => {
                let name = name.try_clone(alloc)?;
                Ok(CrateOrigin::Rustc { name })
            }
            CrateOrigin::Local { repo, name } => {
                let repo = repo.try_clone(alloc)?;
                let name = name.try_clone(alloc)?;
                Ok(CrateOrigin::Local { repo, name })
            }
            CrateOrigin::Library { repo, name } => {
                let repo = repo.try_clone(alloc)?;
                let name = name.try_clone(alloc)?;
                Ok(CrateOrigin::Library { repo, name })
            }
            CrateOrigin::Lang(lang) => Ok(CrateOrigin::Lang(*lang)),
        }
    }
}

/// Which crate of the language a crate is.
#[derive(Clone, Copy, Debug, PartialEq, Eq, PartialOrd, Ord, Hash)]
pub enum LangCrateOrigin {
    Alloc,
    Core,
    ProcMacro,
    Std,
    Test,
    /// A library that the language's own crates use.
    Dependency,
    Other,
}

impl LangCrateOrigin {
    /// The crate of the language that has a name.
    pub fn from_text(text: &str) -> Self
        ensures { result ≡ lang_origin_of text.now }
    {
        match text {
            "alloc" => LangCrateOrigin::Alloc,
            "core" => LangCrateOrigin::Core,
            "proc-macro" | "proc_macro" => LangCrateOrigin::ProcMacro,
            "std" => LangCrateOrigin::Std,
            "test" => LangCrateOrigin::Test,
            _ => LangCrateOrigin::Other,
        }
    }

    pub fn as_str(self) -> &'static str
        ensures { result.now ≡ lang_text self }
    {
        match self {
            LangCrateOrigin::Alloc => "alloc",
            LangCrateOrigin::Core => "core",
            LangCrateOrigin::ProcMacro => "proc_macro",
            LangCrateOrigin::Std => "std",
            LangCrateOrigin::Test => "test",
            LangCrateOrigin::Dependency | LangCrateOrigin::Other => "other",
        }
    }
}

impl TryClone for LangCrateOrigin {
    fn try_clone(&self, _alloc: Global) -> Result<Self, AllocError> {
        Ok(*self)
    }
}

impl fmt::Display for LangCrateOrigin {
    ghost output = { λ a. Some (lang_text a) };

    fn fmt<W: fmt::Write>(&self, f: &mut fmt::Formatter<W>) -> fmt::Result {
        f.write_str(self.as_str())
    }
}
