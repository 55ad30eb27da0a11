//! A dependency as a package's manifest states it.

use crate::kinds::DependencyKind;
use crate::names::Source;
use base_values::{Items, Text, TryClone};
use json_fields::{
    Json, Present, ReadError, ReadJson, Requirement, members, optional_member, required_member, set,
};
use serde_json::{Map, Value};
use std::alloc::{AllocError, Global};

/// What a manifest asks for, before anything is resolved.
#[derive(PartialEq, Eq, Drop)]
pub struct Dependency {
    pub name: Text,
    pub source: Option<Source>,
    pub req: Requirement,
    pub kind: DependencyKind,
    pub optional: bool,
    pub uses_default_features: bool,
    pub features: Items<Text>,
    pub target: Option<Text>,
    pub rename: Option<Text>,
    pub registry: Option<Text>,
    pub path: Option<Text>,
}

impl TryClone for Dependency {
    fn try_clone(&self, alloc: Global) -> Result<Self, AllocError> {
        Ok(Dependency {
            kind: self.kind,
            optional: self.optional,
            uses_default_features: self.uses_default_features,
            name: self.name.try_clone(alloc)?,
            features: self.features.try_clone(alloc)?,
            target: self.target.try_clone(alloc)?,
            rename: self.rename.try_clone(alloc)?,
            registry: self.registry.try_clone(alloc)?,
            path: self.path.try_clone(alloc)?,
            source: self.source.try_clone(alloc)?,
            req: self.req.try_clone(alloc)?,
        })
    }
}

#[tactic(auto, unfolding(crate::specs::Dependency::dependency_at))]
impl ReadJson for Dependency {
    ghost use Rattle.cargo_meta_values.specs.Dependency.{dependency_at};

    ghost reads = { dependency_at };

    fn read(alloc: Global, value: &Value) -> Result<Dependency, ReadError> {
        let fields = members(alloc, value)?;
        Ok(Dependency {
            name: required_member(alloc, fields, "name")?,
            source: optional_member(alloc, fields, "source")?,
            req: required_member(alloc, fields, "req")?,
            kind: required_member(alloc, fields, "kind")?,
            optional: required_member(alloc, fields, "optional")?,
            uses_default_features: required_member(alloc, fields, "uses_default_features")?,
            features: required_member(alloc, fields, "features")?,
            target: optional_member(alloc, fields, "target")?,
            rename: optional_member(alloc, fields, "rename")?,
            registry: optional_member(alloc, fields, "registry")?,
            path: optional_member(alloc, fields, "path")?,
        })
    }
}

#[tactic(auto, unfolding(crate::specs::Dependency::dependency_data, json_fields::specs::Written::set_member))]
impl Json for Dependency {
    ghost use Rattle.cargo_meta_values.specs.Dependency.{dependency_data};
    ghost use Rattle.cargo_meta_values.specs.laws.Dependency.{dependency-round_trips};

    ghost writes = { dependency_data };

    ghost height = { 0 };

    fn write(&self, alloc: Global) -> Result<Value, AllocError> {
        let mut fields = Map::new(alloc);
        set(alloc, &mut fields, "name", &self.name)?;
        set(alloc, &mut fields, "source", &self.source)?;
        set(alloc, &mut fields, "req", &self.req)?;
        set(alloc, &mut fields, "kind", &self.kind)?;
        set(alloc, &mut fields, "optional", &self.optional)?;
        set(
            alloc,
            &mut fields,
            "uses_default_features",
            &self.uses_default_features,
        )?;
        set(alloc, &mut fields, "features", &self.features)?;
        set(alloc, &mut fields, "target", &self.target)?;
        set(alloc, &mut fields, "rename", &self.rename)?;
        set(alloc, &mut fields, "registry", &self.registry)?;
        set(alloc, &mut fields, "path", &self.path)?;
        Ok(Value::Object(fields))
    }

    ghost round_trips = { dependency-round_trips };
}

impl Present for Dependency {
    ghost use Rattle.cargo_meta_values.specs.Dependency.{dependency_data-present};

    ghost present = { dependency_data-present };
}
