//! A release: nine rows, read and written with no proof file.

use base_text::{ByText, Items, Text, Version};
use json_fields::{
    AnyValue, BareVersion, Json, ReadError, ReadJson, Requirement, default_member, list_member,
    map_member, members, optional_member, required_member, set,
};
use serde_json::{Map, Value};
use std::alloc::{AllocError, Global};

#[derive(Drop)]
pub struct Release {
    pub name: Text,
    pub version: Version,
    pub size: u64,
    pub summary: Option<Text>,
    pub rust_version: Option<BareVersion>,
    pub yanked: bool,
    pub tags: Items<Text>,
    pub dependencies: ByText<Requirement>,
    pub extra: AnyValue,
}

#[tactic(auto, unfolding(crate::specs::Release::release_at, json_fields::specs::Fields::required_member, json_fields::specs::Fields::optional_member, json_fields::specs::Fields::default_member))]
impl ReadJson for Release {
    ghost use Rattle.cases_documents.specs.Release.{release_at};

    ghost reads = { release_at };

    fn read(alloc: Global, value: &Value) -> Result<Release, ReadError> {
        let fields = members(alloc, value)?;
        Ok(Release {
            name: required_member(alloc, fields, "name")?,
            version: required_member(alloc, fields, "version")?,
            size: required_member(alloc, fields, "size")?,
            summary: optional_member(alloc, fields, "summary")?,
            rust_version: optional_member(alloc, fields, "rust-version")?,
            yanked: default_member(alloc, fields, "yanked", false)?,
            tags: list_member(alloc, fields, "tags")?,
            dependencies: map_member(alloc, fields, "dependencies")?,
            extra: default_member(alloc, fields, "extra", AnyValue::null())?,
        })
    }
}

#[tactic(auto, unfolding(crate::specs::Release::release_data, json_fields::specs::Written::set_member))]
impl Json for Release {
    ghost use Rattle.cases_documents.specs.Release.{release_data};
    ghost use Rattle.cases_documents.specs.ReleaseLaws.{release-round_trips};

    ghost writes = { release_data };

    ghost height = { 2 };

    fn write(&self, alloc: Global) -> Result<Value, AllocError> {
        let mut fields = Map::new(alloc);
        set(alloc, &mut fields, "name", &self.name)?;
        set(alloc, &mut fields, "version", &self.version)?;
        set(alloc, &mut fields, "size", &self.size)?;
        set(alloc, &mut fields, "summary", &self.summary)?;
        set(alloc, &mut fields, "rust-version", &self.rust_version)?;
        set(alloc, &mut fields, "yanked", &self.yanked)?;
        set(alloc, &mut fields, "tags", &self.tags)?;
        set(alloc, &mut fields, "dependencies", &self.dependencies)?;
        set(alloc, &mut fields, "extra", &self.extra)?;
        Ok(Value::Object(fields))
    }

    ghost round_trips = { release-round_trips };
}
