//! The closed tables of names of a document: editions, kinds of target, and kinds of runnable.

ghost use Rattle.std.specs.Prelude.{◌≡◌, Ok};
ghost use Rattle.pm_json.specs.Kinds.{edition_from, json_edition_of, json_edition_text, runnable_kind_of, runnable_kind_text};
ghost use Rattle.pm_json.specs.Kinds.{target_kind_from, json_target_kind_of, json_target_kind_text};
ghost use Rattle.pm_json.specs.laws.Kinds.{json_edition-again, runnable_kind-again, json_target_kind-again};

use base_text_paths::{Edition, TryClone};
use crate_graph_values::TargetKind;
use json_fields::{ReadError, TextJson, miss};
use std::alloc::{AllocError, Global};

/// The edition of a crate.
#[derive(Clone, Copy, Debug, PartialEq, Eq)]
pub enum EditionData {
    Edition2015,
    Edition2018,
    Edition2021,
    Edition2024,
}

/// What a build system builds a crate into.
#[derive(Clone, Copy, Debug, PartialEq, Eq)]
pub enum TargetKindData {
    Bin,
    /// Any library, one of procedural macros too.
    Lib,
    Test,
}

/// What a runnable is for. Its words may hold `{label}`, and those of tests a name to fill in.
#[derive(Clone, Copy, Debug, PartialEq, Eq)]
pub enum RunnableKind {
    /// Checks the project, with output for people.
    Check,
    /// Runs a program.
    Run,
    /// Runs the test `{test_id}`.
    TestOne,
    /// Runs the tests that match `{test_pattern}`.
    TestMod,
    /// Runs the documentation test `{test_id}`.
    DocTestOne,
    /// Runs the benchmark `{bench_id}`.
    BenchOne,
    /// Checks a target, with the compiler's diagnostics as JSON.
    Flycheck,
    /// A kind of a later version.
    Unknown,
}

impl From<EditionData> for Edition {
    ghost from_gives = { λ stated edition. edition ≡ edition_from stated };

    fn from(stated: EditionData) -> Edition {
        match stated {
            EditionData::Edition2015 => Edition::Edition2015,
            EditionData::Edition2018 => Edition::Edition2018,
            EditionData::Edition2021 => Edition::Edition2021,
            EditionData::Edition2024 => Edition::Edition2024,
        }
    }
}

impl From<TargetKindData> for TargetKind {
    ghost from_gives = { λ stated kind. kind ≡ target_kind_from stated };

    fn from(stated: TargetKindData) -> TargetKind {
        match stated {
            TargetKindData::Bin => TargetKind::Bin,
            TargetKindData::Lib => TargetKind::Lib {
                is_proc_macro: false,
            },
            TargetKindData::Test => TargetKind::Test,
        }
    }
}

impl EditionData {
    pub fn as_str(self) -> &'static str
        ensures { result.now ≡ json_edition_text self }
    {
        match self {
            EditionData::Edition2015 => "2015",
            EditionData::Edition2018 => "2018",
            EditionData::Edition2021 => "2021",
            EditionData::Edition2024 => "2024",
        }
    }
}

impl TargetKindData {
    pub fn as_str(self) -> &'static str
        ensures { result.now ≡ json_target_kind_text self }
    {
        match self {
            TargetKindData::Bin => "bin",
            TargetKindData::Lib => "lib",
            TargetKindData::Test => "test",
        }
    }
}

impl RunnableKind {
    pub fn as_str(self) -> &'static str
        ensures { result.now ≡ runnable_kind_text self }
    {
        match self {
            RunnableKind::Check => "check",
            RunnableKind::Run => "run",
            RunnableKind::TestOne => "testOne",
            RunnableKind::TestMod => "testMod",
            RunnableKind::DocTestOne => "docTestOne",
            RunnableKind::BenchOne => "benchOne",
            RunnableKind::Flycheck => "flycheck",
            RunnableKind::Unknown => "unknown",
        }
    }
}

impl TryClone for EditionData {
    fn try_clone(&self, _alloc: Global) -> Result<Self, AllocError> {
        Ok(*self)
    }
}

impl TryClone for TargetKindData {
    fn try_clone(&self, _alloc: Global) -> Result<Self, AllocError> {
        Ok(*self)
    }
}

impl TryClone for RunnableKind {
    fn try_clone(&self, _alloc: Global) -> Result<Self, AllocError> {
        Ok(*self)
    }
}

#[tactic(auto, unfolding(crate::specs::Kinds::json_edition_of))]
impl TextJson for EditionData {
    ghost of_text = { json_edition_of };

    ghost text_of = { json_edition_text };

    fn read_text(alloc: Global, text: &str) -> Result<EditionData, ReadError> {
        match text {
            "2015" => Ok(EditionData::Edition2015),
            "2018" => Ok(EditionData::Edition2018),
            "2021" => Ok(EditionData::Edition2021),
            "2024" => Ok(EditionData::Edition2024),
            _ => miss(alloc),
        }
    }

    fn write_text(&self, alloc: Global) -> Result<String, AllocError> {
        String::from_str(alloc, self.as_str())
    }

    ghost again = { json_edition-again };
}

#[tactic(auto, unfolding(crate::specs::Kinds::json_target_kind_of))]
impl TextJson for TargetKindData {
    ghost of_text = { json_target_kind_of };

    ghost text_of = { json_target_kind_text };

    fn read_text(alloc: Global, text: &str) -> Result<TargetKindData, ReadError> {
        match text {
            "bin" => Ok(TargetKindData::Bin),
            "lib" => Ok(TargetKindData::Lib),
            "test" => Ok(TargetKindData::Test),
            _ => miss(alloc),
        }
    }

    fn write_text(&self, alloc: Global) -> Result<String, AllocError> {
        String::from_str(alloc, self.as_str())
    }

    ghost again = { json_target_kind-again };
}

#[tactic(auto, unfolding(crate::specs::Kinds::runnable_kind_of))]
impl TextJson for RunnableKind {
    ghost of_text = { λ text. Ok (runnable_kind_of text) };

    ghost text_of = { runnable_kind_text };

    fn read_text(_alloc: Global, text: &str) -> Result<RunnableKind, ReadError> {
        match text {
            "check" => Ok(RunnableKind::Check),
            "run" => Ok(RunnableKind::Run),
            "testOne" => Ok(RunnableKind::TestOne),
            "testMod" => Ok(RunnableKind::TestMod),
            "docTestOne" => Ok(RunnableKind::DocTestOne),
            "benchOne" => Ok(RunnableKind::BenchOne),
            "flycheck" => Ok(RunnableKind::Flycheck),
            _ => Ok(RunnableKind::Unknown),
        }
    }

    fn write_text(&self, alloc: Global) -> Result<String, AllocError> {
        String::from_str(alloc, self.as_str())
    }

    ghost again = { runnable_kind-again };
}
