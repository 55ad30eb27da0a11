//! The kinds of targets, crates and dependencies, and the editions, each with its text.

ghost use Rattle.std.specs.Prelude.{◌≡◌, IfOk, Ok};
ghost use Rattle.cargo_meta_values.specs.Kinds.{crate_type_of, crate_type_text, dependency_kind_at, dependency_kind_data, dependency_kind_of, dependency_kind_text, edition_of, edition_text, target_kind_of, target_kind_text};
ghost use Rattle.cargo_meta_values.specs.laws.Kinds.{crate_type-again, dependency_kind-round_trips, edition-again, target_kind-again};

use base_values::{Text, TryClone};
use json_fields::{Json, ReadError, ReadJson, TextJson, miss};
use serde_json::Value;
use std::alloc::{AllocError, Global};

/// What a target is built as.
#[derive(Debug, PartialEq, Eq, PartialOrd, Ord, Hash, Drop)]
pub enum TargetKind {
    Bench,
    Bin,
    CustomBuild,
    CDyLib,
    DyLib,
    Example,
    Lib,
    ProcMacro,
    RLib,
    StaticLib,
    Test,
    /// A kind that this program does not know.
    Unknown(Text),
}

/// What a crate is linked as.
#[derive(Debug, PartialEq, Eq, PartialOrd, Ord, Hash, Drop)]
pub enum CrateType {
    Bin,
    CDyLib,
    DyLib,
    Lib,
    ProcMacro,
    RLib,
    StaticLib,
    /// A type that this program does not know.
    Unknown(Text),
}

/// When a dependency is needed.
#[derive(Clone, Copy, Debug, PartialEq, Eq, Hash)]
pub enum DependencyKind {
    Normal,
    Development,
    Build,
    /// A kind that this program does not know.
    Unknown,
}

/// The edition of a crate's language; the last two are not out yet.
#[derive(Clone, Copy, Debug, PartialEq, Eq, PartialOrd, Ord, Hash)]
pub enum Edition {
    E2015,
    E2018,
    E2021,
    E2024,
    _E2027,
    _E2030,
}

impl TargetKind {
    /// The kind that a text names. Another text is kept as it is.
    #[tactic(auto, unfolding(crate::specs::Kinds::target_kind_of))]
    pub fn from_text(alloc: Global, text: &str) -> Result<TargetKind, AllocError>
        ensures exact { IfOk result (λ kind. kind ≡ target_kind_of text.now) }
        ensures same_text { IfOk result (λ kind. target_kind_text kind ≡ text.now) }
        ensures again { IfOk result (λ kind. target_kind_of (target_kind_text kind) ≡ kind) }
    {
        let kind = match text {
            "bench" => TargetKind::Bench,
            "bin" => TargetKind::Bin,
            "custom-build" => TargetKind::CustomBuild,
            "cdylib" => TargetKind::CDyLib,
            "dylib" => TargetKind::DyLib,
            "example" => TargetKind::Example,
            "lib" => TargetKind::Lib,
            "proc-macro" => TargetKind::ProcMacro,
            "rlib" => TargetKind::RLib,
            "staticlib" => TargetKind::StaticLib,
            "test" => TargetKind::Test,
            _ => TargetKind::Unknown(Text::of_str(alloc, text)?),
        };
        Ok(kind)
    }

    pub fn as_str(&self) -> &str
        ensures { result.now ≡ target_kind_text self.now }
    {
        match self {
            TargetKind::Bench => "bench",
            TargetKind::Bin => "bin",
            TargetKind::CustomBuild => "custom-build",
            TargetKind::CDyLib => "cdylib",
            TargetKind::DyLib => "dylib",
            TargetKind::Example => "example",
            TargetKind::Lib => "lib",
            TargetKind::ProcMacro => "proc-macro",
            TargetKind::RLib => "rlib",
            TargetKind::StaticLib => "staticlib",
            TargetKind::Test => "test",
            TargetKind::Unknown(text) => text.as_str(),
        }
    }
}

impl TryClone for TargetKind {
    fn try_clone(&self, alloc: Global) -> Result<Self, AllocError> {
        match self {
            TargetKind::Bench => Ok(TargetKind::Bench),
            TargetKind::Bin => Ok(TargetKind::Bin),
            TargetKind::CustomBuild => Ok(TargetKind::CustomBuild),
            TargetKind::CDyLib => Ok(TargetKind::CDyLib),
            TargetKind::DyLib => Ok(TargetKind::DyLib),
            TargetKind::Example => Ok(TargetKind::Example),
            TargetKind::Lib => Ok(TargetKind::Lib),
            TargetKind::ProcMacro => Ok(TargetKind::ProcMacro),
            TargetKind::RLib => Ok(TargetKind::RLib),
            TargetKind::StaticLib => Ok(TargetKind::StaticLib),
            TargetKind::Test => Ok(TargetKind::Test),
            TargetKind::Unknown(text) => Ok(TargetKind::Unknown(text.try_clone(alloc)?)),
        }
    }
}

impl TextJson for TargetKind {
    ghost of_text = { λ text. Ok (target_kind_of text) };

    ghost text_of = { target_kind_text };

    fn read_text(alloc: Global, text: &str) -> Result<TargetKind, ReadError> {
        Ok(TargetKind::from_text(alloc, text)?)
    }

    fn write_text(&self, alloc: Global) -> Result<String, AllocError> {
        String::from_str(alloc, self.as_str())
    }

    ghost again = { target_kind-again };
}

impl CrateType {
    /// The type that a text names. Another text is kept as it is.
    #[tactic(auto, unfolding(crate::specs::Kinds::crate_type_of))]
    pub fn from_text(alloc: Global, text: &str) -> Result<CrateType, AllocError>
        ensures exact { IfOk result (λ kind. kind ≡ crate_type_of text.now) }
        ensures same_text { IfOk result (λ kind. crate_type_text kind ≡ text.now) }
        ensures again { IfOk result (λ kind. crate_type_of (crate_type_text kind) ≡ kind) }
    {
        let kind = match text {
            "bin" => CrateType::Bin,
            "cdylib" => CrateType::CDyLib,
            "dylib" => CrateType::DyLib,
            "lib" => CrateType::Lib,
            "proc-macro" => CrateType::ProcMacro,
            "rlib" => CrateType::RLib,
            "staticlib" => CrateType::StaticLib,
            _ => CrateType::Unknown(Text::of_str(alloc, text)?),
        };
        Ok(kind)
    }

    pub fn as_str(&self) -> &str
        ensures { result.now ≡ crate_type_text self.now }
    {
        match self {
            CrateType::Bin => "bin",
            CrateType::CDyLib => "cdylib",
            CrateType::DyLib => "dylib",
            CrateType::Lib => "lib",
            CrateType::ProcMacro => "proc-macro",
            CrateType::RLib => "rlib",
            CrateType::StaticLib => "staticlib",
            CrateType::Unknown(text) => text.as_str(),
        }
    }
}

impl TryClone for CrateType {
    fn try_clone(&self, alloc: Global) -> Result<Self, AllocError> {
        match self {
            CrateType::Bin => Ok(CrateType::Bin),
            CrateType::CDyLib => Ok(CrateType::CDyLib),
            CrateType::DyLib => Ok(CrateType::DyLib),
            CrateType::Lib => Ok(CrateType::Lib),
            CrateType::ProcMacro => Ok(CrateType::ProcMacro),
            CrateType::RLib => Ok(CrateType::RLib),
            CrateType::StaticLib => Ok(CrateType::StaticLib),
            CrateType::Unknown(text) => Ok(CrateType::Unknown(text.try_clone(alloc)?)),
        }
    }
}

impl TextJson for CrateType {
    ghost of_text = { λ text. Ok (crate_type_of text) };

    ghost text_of = { crate_type_text };

    fn read_text(alloc: Global, text: &str) -> Result<CrateType, ReadError> {
        Ok(CrateType::from_text(alloc, text)?)
    }

    fn write_text(&self, alloc: Global) -> Result<String, AllocError> {
        String::from_str(alloc, self.as_str())
    }

    ghost again = { crate_type-again };
}

impl DependencyKind {
    #[tactic(auto, unfolding(crate::specs::Kinds::dependency_kind_of))]
    fn from_text(text: &str) -> DependencyKind
        ensures exact { result ≡ dependency_kind_of text.now }
        ensures again { dependency_kind_of (dependency_kind_text result) ≡ result }
    {
        match text {
            "normal" => DependencyKind::Normal,
            "dev" => DependencyKind::Development,
            "build" => DependencyKind::Build,
            _ => DependencyKind::Unknown,
        }
    }

    pub fn as_str(&self) -> &str
        ensures { result.now ≡ dependency_kind_text self.now }
    {
        match self {
            DependencyKind::Normal => "normal",
            DependencyKind::Development => "dev",
            DependencyKind::Build => "build",
            DependencyKind::Unknown => "Unknown",
        }
    }
}

impl Default for DependencyKind {
    ghost use Rattle.cargo_meta_values.specs.declared.kinds.DependencyKind.TheVariants.{Normal};
    ghost use Rattle.std.specs.Prelude.{◌≡◌};

    ghost is_default = { λ kind. kind ≡ Normal };

    fn default() -> DependencyKind {
        DependencyKind::Normal
    }
}

impl TryClone for DependencyKind {
    fn try_clone(&self, _alloc: Global) -> Result<Self, AllocError> {
        Ok(*self)
    }
}

#[tactic(auto, unfolding(crate::specs::Kinds::dependency_kind_of))]
impl ReadJson for DependencyKind {
    ghost reads = { dependency_kind_at };

    fn read(alloc: Global, value: &Value) -> Result<DependencyKind, ReadError> {
        match value {
            Value::Null => Ok(DependencyKind::Normal),
            Value::String(text) => Ok(DependencyKind::from_text(text.as_str())),
            _ => miss(alloc),
        }
    }
}

impl Json for DependencyKind {
    ghost writes = { dependency_kind_data };

    ghost height = { 0 };

    fn write(&self, alloc: Global) -> Result<Value, AllocError> {
        Ok(Value::String(String::from_str(alloc, self.as_str())?))
    }

    ghost round_trips = { dependency_kind-round_trips };
}

impl Edition {
    pub fn as_str(&self) -> &str
        ensures { result.now ≡ edition_text self.now }
    {
        match self {
            Edition::E2015 => "2015",
            Edition::E2018 => "2018",
            Edition::E2021 => "2021",
            Edition::E2024 => "2024",
            Edition::_E2027 => "2027",
            Edition::_E2030 => "2030",
        }
    }
}

impl Default for Edition {
    ghost use Rattle.cargo_meta_values.specs.declared.kinds.Edition.TheVariants.{E2015};
    ghost use Rattle.std.specs.Prelude.{◌≡◌};

    ghost is_default = { λ edition. edition ≡ E2015 };

    fn default() -> Edition {
        Edition::E2015
    }
}

impl TryClone for Edition {
    fn try_clone(&self, _alloc: Global) -> Result<Self, AllocError> {
        Ok(*self)
    }
}

#[tactic(auto, unfolding(crate::specs::Kinds::edition_of))]
impl TextJson for Edition {
    ghost of_text = { edition_of };

    ghost text_of = { edition_text };

    fn read_text(alloc: Global, text: &str) -> Result<Edition, ReadError> {
        match text {
            "2015" => Ok(Edition::E2015),
            "2018" => Ok(Edition::E2018),
            "2021" => Ok(Edition::E2021),
            "2024" => Ok(Edition::E2024),
            "2027" => Ok(Edition::_E2027),
            "2030" => Ok(Edition::_E2030),
            _ => miss(alloc),
        }
    }

    fn write_text(&self, alloc: Global) -> Result<String, AllocError> {
        String::from_str(alloc, self.as_str())
    }

    ghost again = { edition-again };
}
