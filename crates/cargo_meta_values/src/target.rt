//! A target of a package: one crate that `cargo` builds.

ghost use Rattle.std.specs.Prelude.{◌≡◌, ◌↔◌, IfOk, IsTrue};
ghost use Rattle.std.specs.List.{Contains};
ghost use Rattle.serde_json.specs.View.{view};
ghost use Rattle.json_fields.specs.Document.{IsWholeAgain, whole};
ghost use Rattle.cargo_meta_values.specs.Errors.{GivesDocument};
ghost use Rattle.cargo_meta_values.specs.Target.{target_at, target_data};
ghost use Rattle.cargo_meta_values.specs.declared.kinds.TargetKind.{TargetKind};

use crate::errors::{Error, as_error};
use crate::kinds::{CrateType, Edition, TargetKind};
use base_values::{Items, Text, TryClone};
use json_fields::{
    Json, Present, ReadError, ReadJson, default_member, list_member, members, of_value,
    required_member, set,
};
use serde_json::{Map, Value};
use std::alloc::{AllocError, Global};

/// A library, a program, an example, a test, a bench or a build script.
#[derive(Debug, PartialEq, Eq, Drop)]
pub struct Target {
    pub name: Text,
    pub kind: Items<TargetKind>,
    pub crate_types: Items<CrateType>,
    pub required_features: Items<Text>,
    pub src_path: Text,
    pub edition: Edition,
    pub doctest: bool,
    pub test: bool,
    pub doc: bool,
}

impl Target {
    /// Reads a target: `float` where its value holds one anywhere, else the first missed place.
    pub fn of_value(alloc: Global, value: &Value) -> Result<Target, Error>
        ensures exact { GivesDocument result (whole target_at (view value.now)) }
        ensures again { IfOk result (IsWholeAgain target_at target_data) }
    {
        as_error(of_value(alloc, value))
    }

    /// Writes every field.
    pub fn to_value(&self, alloc: Global) -> Result<Value, AllocError>
        ensures { IfOk result (λ value. view value ≡ target_data self.now) }
    {
        self.write(alloc)
    }

    /// Whether the kind is among the target's.
    pub fn is_kind(&self, name: &TargetKind) -> bool
        ensures { IsTrue result ↔ Contains self.now.kind name.now }
    {
        self.kind.as_slice().contains(name)
    }

    pub fn is_lib(&self) -> bool
        ensures { IsTrue result ↔ Contains self.now.kind TargetKind.Lib }
    {
        self.is_kind(&TargetKind::Lib)
    }

    pub fn is_bin(&self) -> bool
        ensures { IsTrue result ↔ Contains self.now.kind TargetKind.Bin }
    {
        self.is_kind(&TargetKind::Bin)
    }

    pub fn is_example(&self) -> bool
        ensures { IsTrue result ↔ Contains self.now.kind TargetKind.Example }
    {
        self.is_kind(&TargetKind::Example)
    }

    pub fn is_test(&self) -> bool
        ensures { IsTrue result ↔ Contains self.now.kind TargetKind.Test }
    {
        self.is_kind(&TargetKind::Test)
    }

    pub fn is_bench(&self) -> bool
        ensures { IsTrue result ↔ Contains self.now.kind TargetKind.Bench }
    {
        self.is_kind(&TargetKind::Bench)
    }

    pub fn is_custom_build(&self) -> bool
        ensures { IsTrue result ↔ Contains self.now.kind TargetKind.CustomBuild }
    {
        self.is_kind(&TargetKind::CustomBuild)
    }

    pub fn is_proc_macro(&self) -> bool
        ensures { IsTrue result ↔ Contains self.now.kind TargetKind.ProcMacro }
    {
        self.is_kind(&TargetKind::ProcMacro)
    }

    pub fn is_cdylib(&self) -> bool
        ensures { IsTrue result ↔ Contains self.now.kind TargetKind.CDyLib }
    {
        self.is_kind(&TargetKind::CDyLib)
    }

    pub fn is_dylib(&self) -> bool
        ensures { IsTrue result ↔ Contains self.now.kind TargetKind.DyLib }
    {
        self.is_kind(&TargetKind::DyLib)
    }

    pub fn is_rlib(&self) -> bool
        ensures { IsTrue result ↔ Contains self.now.kind TargetKind.RLib }
    {
        self.is_kind(&TargetKind::RLib)
    }

    pub fn is_staticlib(&self) -> bool
        ensures { IsTrue result ↔ Contains self.now.kind TargetKind.StaticLib }
    {
        self.is_kind(&TargetKind::StaticLib)
    }
}

impl TryClone for Target {
    fn try_clone(&self, alloc: Global) -> Result<Self, AllocError> {
        Ok(Target {
            name: self.name.try_clone(alloc)?,
            kind: self.kind.try_clone(alloc)?,
            crate_types: self.crate_types.try_clone(alloc)?,
            required_features: self.required_features.try_clone(alloc)?,
            src_path: self.src_path.try_clone(alloc)?,
            edition: self.edition,
            doctest: self.doctest,
            test: self.test,
            doc: self.doc,
        })
    }
}

#[tactic(auto, unfolding(crate::specs::Kinds::edition_of, crate::specs::Target::target_at, json_fields::specs::Fields::required_member, json_fields::specs::Fields::optional_member, json_fields::specs::Fields::default_member))]
impl ReadJson for Target {
    ghost use Rattle.cargo_meta_values.specs.Target.{target_at};

    ghost reads = { target_at };

    fn read(alloc: Global, value: &Value) -> Result<Target, ReadError> {
        let fields = members(alloc, value)?;
        Ok(Target {
            name: required_member(alloc, fields, "name")?,
            kind: required_member(alloc, fields, "kind")?,
            crate_types: list_member(alloc, fields, "crate_types")?,
            required_features: list_member(alloc, fields, "required-features")?,
            src_path: required_member(alloc, fields, "src_path")?,
            edition: default_member(alloc, fields, "edition", Edition::E2015)?,
            doctest: default_member(alloc, fields, "doctest", true)?,
            test: default_member(alloc, fields, "test", true)?,
            doc: default_member(alloc, fields, "doc", true)?,
        })
    }
}

#[tactic(auto, unfolding(crate::specs::Target::target_data, json_fields::specs::Written::set_member))]
impl Json for Target {
    ghost use Rattle.cargo_meta_values.specs.Target.{target_data};
    ghost use Rattle.cargo_meta_values.specs.laws.Target.{target-round_trips};

    ghost writes = { target_data };

    ghost height = { 2 };

    fn write(&self, alloc: Global) -> Result<Value, AllocError> {
        let mut fields = Map::new(alloc);
        set(alloc, &mut fields, "name", &self.name)?;
        set(alloc, &mut fields, "kind", &self.kind)?;
        set(alloc, &mut fields, "crate_types", &self.crate_types)?;
        set(
            alloc,
            &mut fields,
            "required-features",
            &self.required_features,
        )?;
        set(alloc, &mut fields, "src_path", &self.src_path)?;
        set(alloc, &mut fields, "edition", &self.edition)?;
        set(alloc, &mut fields, "doctest", &self.doctest)?;
        set(alloc, &mut fields, "test", &self.test)?;
        set(alloc, &mut fields, "doc", &self.doc)?;
        Ok(Value::Object(fields))
    }

    ghost round_trips = { target-round_trips };
}

impl Present for Target {
    ghost use Rattle.cargo_meta_values.specs.Target.{target_data-present};

    ghost present = { target_data-present };
}
