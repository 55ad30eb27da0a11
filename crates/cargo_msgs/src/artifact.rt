//! A file that the compiler made, with the profile that it was made by.

ghost use Rattle.std.specs.Prelude.{◌≡◌};
ghost use Rattle.serde_json.specs.View.{members_view};
ghost use Rattle.json_fields.specs.Outcome.{Gives};
ghost use Rattle.cargo_msgs.specs.Artifact.{artifact_at, artifact_data, artifact_from, profile_at, profile_data};
ghost use Rattle.cargo_msgs.specs.Gathering.{build_from};
ghost use Rattle.cargo_msgs.specs.laws.Artifact.{artifact-round_trips, profile-round_trips};

use crate::debuginfo::ArtifactDebuginfo;
use base_text::{Items, Text, TryClone};
use cargo_meta_values::{PackageId, Target};
use json_fields::{
    Json, ReadError, ReadJson, default_member, members, optional_member, required_member, set,
};
use serde_json::{Map, Value};
use std::alloc::{AllocError, Global};

/// The settings of a profile that an artifact was built by.
#[derive(Debug, PartialEq, Eq, Drop)]
pub struct ArtifactProfile {
    /// The level of optimization: 0 to 3, `s` or `z`.
    pub opt_level: Text,
    pub debuginfo: ArtifactDebuginfo,
    pub debug_assertions: bool,
    pub overflow_checks: bool,
    pub test: bool,
}

/// What was built of a target: its files, and the program among them.
#[derive(Debug, PartialEq, Eq, Drop)]
pub struct Artifact {
    pub package_id: PackageId,
    /// The manifest, which is empty where an old `cargo` does not give it.
    pub manifest_path: Text,
    pub target: Target,
    pub profile: ArtifactProfile,
    pub features: Items<Text>,
    pub filenames: Items<Text>,
    pub executable: Option<Text>,
    /// Whether it was there before, so that nothing was built.
    pub fresh: bool,
}

impl TryClone for ArtifactProfile {
    fn try_clone(&self, alloc: Global) -> Result<Self, AllocError> {
        Ok(ArtifactProfile {
            opt_level: self.opt_level.try_clone(alloc)?,
            debuginfo: self.debuginfo.try_clone(alloc)?,
            debug_assertions: self.debug_assertions,
            overflow_checks: self.overflow_checks,
            test: self.test,
        })
    }
}

impl TryClone for Artifact {
    fn try_clone(&self, alloc: Global) -> Result<Self, AllocError> {
        Ok(Artifact {
            package_id: self.package_id.try_clone(alloc)?,
            manifest_path: self.manifest_path.try_clone(alloc)?,
            features: self.features.try_clone(alloc)?,
            filenames: self.filenames.try_clone(alloc)?,
            executable: self.executable.try_clone(alloc)?,
            fresh: self.fresh,
            profile: self.profile.try_clone(alloc)?,
            target: self.target.try_clone(alloc)?,
        })
    }
}

#[tactic(auto, unfolding(crate::specs::Artifact::profile_at, json_fields::specs::Fields::required_member, json_fields::specs::Fields::default_member))]
impl ReadJson for ArtifactProfile {
    ghost reads = { profile_at };

    fn read(alloc: Global, value: &Value) -> Result<ArtifactProfile, ReadError> {
        let fields = members(alloc, value)?;
        Ok(ArtifactProfile {
            opt_level: required_member(alloc, fields, "opt_level")?,
            debuginfo: default_member(alloc, fields, "debuginfo", ArtifactDebuginfo::None)?,
            debug_assertions: required_member(alloc, fields, "debug_assertions")?,
            overflow_checks: required_member(alloc, fields, "overflow_checks")?,
            test: required_member(alloc, fields, "test")?,
        })
    }
}

#[tactic(auto, unfolding(crate::specs::Artifact::profile_data, json_fields::specs::Written::set_member))]
impl Json for ArtifactProfile {
    ghost writes = { profile_data };

    ghost height = { 0 };

    fn write(&self, alloc: Global) -> Result<Value, AllocError> {
        let mut fields = Map::new(alloc);
        set(alloc, &mut fields, "opt_level", &self.opt_level)?;
        set(alloc, &mut fields, "debuginfo", &self.debuginfo)?;
        set(
            alloc,
            &mut fields,
            "debug_assertions",
            &self.debug_assertions,
        )?;
        set(alloc, &mut fields, "overflow_checks", &self.overflow_checks)?;
        set(alloc, &mut fields, "test", &self.test)?;
        Ok(Value::Object(fields))
    }

    ghost round_trips = { profile-round_trips };
}

#[tactic(auto, unfolding(crate::specs::Artifact::artifact_at))]
impl ReadJson for Artifact {
    ghost reads = { artifact_at };

    fn read(alloc: Global, value: &Value) -> Result<Artifact, ReadError> {
        let fields = members(alloc, value)?;
        read_artifact(alloc, fields)
    }
}

// How an artifact was built, and its files.
#[derive(Drop)]
struct ArtifactBuild {
    profile: ArtifactProfile,
    features: Items<Text>,
    filenames: Items<Text>,
    executable: Option<Text>,
    fresh: bool,
}

#[tactic(auto, unfolding(crate::specs::Gathering::build_from, json_fields::specs::Fields::required_member, json_fields::specs::Fields::optional_member))]
fn read_build(alloc: Global, fields: &Map<String, Value>) -> Result<ArtifactBuild, ReadError>
    ensures exact { Gives result (build_from (members_view fields.now.entries)) }
{
    Ok(ArtifactBuild {
        profile: required_member(alloc, fields, "profile")?,
        features: required_member(alloc, fields, "features")?,
        filenames: required_member(alloc, fields, "filenames")?,
        executable: optional_member(alloc, fields, "executable")?,
        fresh: required_member(alloc, fields, "fresh")?,
    })
}

/// An artifact of an object's members.
#[tactic(auto, using(crate::proofs::Parts::artifact_in_parts), unfolding(json_fields::specs::Fields::required_member, json_fields::specs::Fields::default_member))]
pub(crate) fn read_artifact(
    alloc: Global,
    fields: &Map<String, Value>,
) -> Result<Artifact, ReadError>
    ensures exact { Gives result (artifact_from (members_view fields.now.entries)) }
{
    let package_id = required_member(alloc, fields, "package_id")?;
    let no_manifest = Text::new(String::new(alloc));
    let manifest_path = default_member(alloc, fields, "manifest_path", no_manifest)?;
    let target = required_member(alloc, fields, "target")?;
    let build = read_build(alloc, fields)?;
    Ok(Artifact {
        package_id,
        manifest_path,
        target,
        profile: build.profile,
        features: build.features,
        filenames: build.filenames,
        executable: build.executable,
        fresh: build.fresh,
    })
}

#[tactic(auto, unfolding(crate::specs::Artifact::artifact_data, json_fields::specs::Written::set_member))]
impl Json for Artifact {
    ghost writes = { artifact_data };

    ghost height = { 3 };

    fn write(&self, alloc: Global) -> Result<Value, AllocError> {
        let mut fields = Map::new(alloc);
        set(alloc, &mut fields, "package_id", &self.package_id)?;
        set(alloc, &mut fields, "manifest_path", &self.manifest_path)?;
        set(alloc, &mut fields, "target", &self.target)?;
        set(alloc, &mut fields, "profile", &self.profile)?;
        set(alloc, &mut fields, "features", &self.features)?;
        set(alloc, &mut fields, "filenames", &self.filenames)?;
        set(alloc, &mut fields, "executable", &self.executable)?;
        set(alloc, &mut fields, "fresh", &self.fresh)?;
        Ok(Value::Object(fields))
    }

    ghost round_trips = { artifact-round_trips };
}
