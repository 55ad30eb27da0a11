//! What a build script said, and how a build ended.

ghost use Rattle.std.specs.Prelude.{◌≡◌};
ghost use Rattle.serde_json.specs.View.{members_view};
ghost use Rattle.json_fields.specs.Outcome.{Gives};
ghost use Rattle.cargo_msgs.specs.Build.{build_finished_at, build_finished_data, build_finished_from, build_script_at, build_script_data, build_script_from};
ghost use Rattle.cargo_msgs.specs.laws.Build.{build_finished-round_trips, build_script-round_trips};

use base_text::{Items, Text, TryClone};
use cargo_meta_values::PackageId;
use json_fields::{Json, ReadError, ReadJson, default_member, members, required_member, set};
use serde_json::{Map, Value};
use std::alloc::{AllocError, Global};

/// What a package's build script reported to `cargo`.
#[derive(Debug, PartialEq, Eq, Drop)]
pub struct BuildScript {
    pub package_id: PackageId,
    pub linked_libs: Items<Text>,
    pub linked_paths: Items<Text>,
    pub cfgs: Items<Text>,
    /// Variables of the environment, each with its value.
    pub env: Items<(Text, Text)>,
    /// The directory of its output, which is empty where it is not given.
    pub out_dir: Text,
}

/// The last message of a build.
#[derive(Debug, PartialEq, Eq, Drop)]
pub struct BuildFinished {
    pub success: bool,
}

impl TryClone for BuildScript {
    fn try_clone(&self, alloc: Global) -> Result<Self, AllocError> {
        Ok(BuildScript {
            package_id: self.package_id.try_clone(alloc)?,
            linked_libs: self.linked_libs.try_clone(alloc)?,
            linked_paths: self.linked_paths.try_clone(alloc)?,
            cfgs: self.cfgs.try_clone(alloc)?,
            env: self.env.try_clone(alloc)?,
            out_dir: self.out_dir.try_clone(alloc)?,
        })
    }
}

impl TryClone for BuildFinished {
    fn try_clone(&self, _alloc: Global) -> Result<Self, AllocError> {
        Ok(BuildFinished {
            success: self.success,
        })
    }
}

#[tactic(auto, unfolding(crate::specs::Build::build_script_at))]
impl ReadJson for BuildScript {
    ghost reads = { build_script_at };

    fn read(alloc: Global, value: &Value) -> Result<BuildScript, ReadError> {
        let fields = members(alloc, value)?;
        read_build_script(alloc, fields)
    }
}

/// A build script of an object's members.
#[tactic(auto, unfolding(crate::specs::Build::build_script_from, json_fields::specs::Fields::required_member, json_fields::specs::Fields::default_member))]
pub(crate) fn read_build_script(
    alloc: Global,
    fields: &Map<String, Value>,
) -> Result<BuildScript, ReadError>
    ensures exact { Gives result (build_script_from (members_view fields.now.entries)) }
{
    Ok(BuildScript {
        package_id: required_member(alloc, fields, "package_id")?,
        linked_libs: required_member(alloc, fields, "linked_libs")?,
        linked_paths: required_member(alloc, fields, "linked_paths")?,
        cfgs: required_member(alloc, fields, "cfgs")?,
        env: required_member(alloc, fields, "env")?,
        out_dir: default_member(alloc, fields, "out_dir", Text::new(String::new(alloc)))?,
    })
}

#[tactic(auto, unfolding(crate::specs::Build::build_script_data, json_fields::specs::Written::set_member))]
impl Json for BuildScript {
    ghost writes = { build_script_data };

    ghost height = { 0 };

    fn write(&self, alloc: Global) -> Result<Value, AllocError> {
        let mut fields = Map::new(alloc);
        set(alloc, &mut fields, "package_id", &self.package_id)?;
        set(alloc, &mut fields, "linked_libs", &self.linked_libs)?;
        set(alloc, &mut fields, "linked_paths", &self.linked_paths)?;
        set(alloc, &mut fields, "cfgs", &self.cfgs)?;
        set(alloc, &mut fields, "env", &self.env)?;
        set(alloc, &mut fields, "out_dir", &self.out_dir)?;
        Ok(Value::Object(fields))
    }

    ghost round_trips = { build_script-round_trips };
}

#[tactic(auto, unfolding(crate::specs::Build::build_finished_at))]
impl ReadJson for BuildFinished {
    ghost reads = { build_finished_at };

    fn read(alloc: Global, value: &Value) -> Result<BuildFinished, ReadError> {
        let fields = members(alloc, value)?;
        read_build_finished(alloc, fields)
    }
}

/// The end of a build, of an object's members.
#[tactic(auto, unfolding(crate::specs::Build::build_finished_from, json_fields::specs::Fields::required_member))]
pub(crate) fn read_build_finished(
    alloc: Global,
    fields: &Map<String, Value>,
) -> Result<BuildFinished, ReadError>
    ensures exact { Gives result (build_finished_from (members_view fields.now.entries)) }
{
    Ok(BuildFinished {
        success: required_member(alloc, fields, "success")?,
    })
}

#[tactic(auto, unfolding(crate::specs::Build::build_finished_data, json_fields::specs::Written::set_member))]
impl Json for BuildFinished {
    ghost writes = { build_finished_data };

    ghost height = { 0 };

    fn write(&self, alloc: Global) -> Result<Value, AllocError> {
        let mut fields = Map::new(alloc);
        set(alloc, &mut fields, "success", &self.success)?;
        Ok(Value::Object(fields))
    }

    ghost round_trips = { build_finished-round_trips };
}
