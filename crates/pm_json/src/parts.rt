//! What a document says beside the crates: who builds them, where their sources are, what can be run.

ghost use Rattle.std.specs.Prelude.{◌≡◌};
ghost use Rattle.pm_json.specs.Parts.{build_data_at, build_data, build_data-present, runnable_at, runnable_data};
ghost use Rattle.pm_json.specs.Parts.{runnable_data-present, crate_source_at, crate_source_data, source_data-present};
ghost use Rattle.pm_json.specs.laws.Parts.{build-round_trips, runnable-round_trips, crate_source-round_trips};

use crate::kinds::{RunnableKind, TargetKindData};
use base_text_paths::{Items, Text, TryClone};
use json_fields::{Json, Present, ReadError, ReadJson, members, required_member, set};
use serde_json::{Map, Value};
use std::alloc::{AllocError, Global};

/// How a build system knows a crate.
#[derive(Debug, PartialEq, Eq, Drop)]
pub struct BuildData {
    /// The name of the target, as `//ide/rust:analyzer`. Its form is the build system's own.
    pub label: Text,
    /// The file that describes the target, as a `BUCK` or a `BUILD` file.
    pub build_file: Text,
    pub target_kind: TargetKindData,
}

impl TryClone for BuildData {
    fn try_clone(&self, alloc: Global) -> Result<Self, AllocError> {
        Ok(BuildData {
            label: self.label.try_clone(alloc)?,
            build_file: self.build_file.try_clone(alloc)?,
            target_kind: self.target_kind,
        })
    }
}

/// The directories that a crate's files are in, and those that are left out.
#[derive(Debug, PartialEq, Eq, Drop)]
pub struct CrateSource {
    pub include_dirs: Items<Text>,
    pub exclude_dirs: Items<Text>,
}

impl TryClone for CrateSource {
    fn try_clone(&self, alloc: Global) -> Result<Self, AllocError> {
        Ok(CrateSource {
            include_dirs: self.include_dirs.try_clone(alloc)?,
            exclude_dirs: self.exclude_dirs.try_clone(alloc)?,
        })
    }
}

/// A command that a client can run. Its words may hold `{label}` and a test's name to fill in.
#[derive(Debug, PartialEq, Eq, Drop)]
pub struct Runnable {
    pub program: Text,
    pub args: Items<Text>,
    /// The directory that the program runs in.
    pub cwd: Text,
    pub kind: RunnableKind,
}

impl TryClone for Runnable {
    fn try_clone(&self, alloc: Global) -> Result<Self, AllocError> {
        Ok(Runnable {
            program: self.program.try_clone(alloc)?,
            args: self.args.try_clone(alloc)?,
            cwd: self.cwd.try_clone(alloc)?,
            kind: self.kind,
        })
    }
}

#[tactic(auto, unfolding(crate::specs::Parts::build_data_at, json_fields::specs::Fields::required_member))]
impl ReadJson for BuildData {
    ghost reads = { build_data_at };

    fn read(alloc: Global, value: &Value) -> Result<BuildData, ReadError> {
        let fields = members(alloc, value)?;
        Ok(BuildData {
            label: required_member(alloc, fields, "label")?,
            build_file: required_member(alloc, fields, "build_file")?,
            target_kind: required_member(alloc, fields, "target_kind")?,
        })
    }
}

#[tactic(auto, unfolding(crate::specs::Parts::build_data, json_fields::specs::Written::set_member))]
impl Json for BuildData {
    ghost writes = { build_data };

    ghost height = { 0 };

    fn write(&self, alloc: Global) -> Result<Value, AllocError> {
        let mut fields = Map::new(alloc);
        set(alloc, &mut fields, "label", &self.label)?;
        set(alloc, &mut fields, "build_file", &self.build_file)?;
        set(alloc, &mut fields, "target_kind", &self.target_kind)?;
        Ok(Value::Object(fields))
    }

    ghost round_trips = { build-round_trips };
}

impl Present for BuildData {
    ghost present = { build_data-present };
}

#[tactic(auto, unfolding(crate::specs::Parts::crate_source_at, json_fields::specs::Fields::required_member))]
impl ReadJson for CrateSource {
    ghost reads = { crate_source_at };

    fn read(alloc: Global, value: &Value) -> Result<CrateSource, ReadError> {
        let fields = members(alloc, value)?;
        Ok(CrateSource {
            include_dirs: required_member(alloc, fields, "include_dirs")?,
            exclude_dirs: required_member(alloc, fields, "exclude_dirs")?,
        })
    }
}

#[tactic(auto, unfolding(crate::specs::Parts::crate_source_data, json_fields::specs::Written::set_member))]
impl Json for CrateSource {
    ghost writes = { crate_source_data };

    ghost height = { 0 };

    fn write(&self, alloc: Global) -> Result<Value, AllocError> {
        let mut fields = Map::new(alloc);
        set(alloc, &mut fields, "include_dirs", &self.include_dirs)?;
        set(alloc, &mut fields, "exclude_dirs", &self.exclude_dirs)?;
        Ok(Value::Object(fields))
    }

    ghost round_trips = { crate_source-round_trips };
}

impl Present for CrateSource {
    ghost present = { source_data-present };
}

#[tactic(auto, unfolding(crate::specs::Parts::runnable_at, json_fields::specs::Fields::required_member))]
impl ReadJson for Runnable {
    ghost reads = { runnable_at };

    fn read(alloc: Global, value: &Value) -> Result<Runnable, ReadError> {
        let fields = members(alloc, value)?;
        Ok(Runnable {
            program: required_member(alloc, fields, "program")?,
            args: required_member(alloc, fields, "args")?,
            cwd: required_member(alloc, fields, "cwd")?,
            kind: required_member(alloc, fields, "kind")?,
        })
    }
}

#[tactic(auto, unfolding(crate::specs::Parts::runnable_data, json_fields::specs::Written::set_member))]
impl Json for Runnable {
    ghost writes = { runnable_data };

    ghost height = { 0 };

    fn write(&self, alloc: Global) -> Result<Value, AllocError> {
        let mut fields = Map::new(alloc);
        set(alloc, &mut fields, "program", &self.program)?;
        set(alloc, &mut fields, "args", &self.args)?;
        set(alloc, &mut fields, "cwd", &self.cwd)?;
        set(alloc, &mut fields, "kind", &self.kind)?;
        Ok(Value::Object(fields))
    }

    ghost round_trips = { runnable-round_trips };
}

impl Present for Runnable {
    ghost present = { runnable_data-present };
}
