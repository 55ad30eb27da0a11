//! The document of `cargo metadata`, read by its tables and written again.

ghost use Rattle.std.specs.Prelude.{◌≡◌, Some, IsSome, is_none, is_some};
ghost use Rattle.serde_json.specs.View.{members_view};
ghost use Rattle.json_fields.specs.Fields.{list_at, option_at};
ghost use Rattle.json_fields.specs.Outcome.{Gives};
ghost use Rattle.json_fields.specs.Written.{list_data, option_data};
ghost use Rattle.cargo_meta_values.specs.Names.{package_id_at, package_id_data};
ghost use Rattle.cargo_meta.specs.Metadata.{metadata_at, metadata_data, metadata_from};

use crate::package::Package;
use base_values::{Items, Text, TryClone};
use cargo_meta_values::{PackageId, Resolve};
use json_fields::{
    AnyValue, Json, ReadError, ReadJson, default_member, members, optional_member, required_member,
    set, set_unless_null,
};
use serde_json::{Map, Value};
use std::alloc::{AllocError, Global};
use std::marker::Model;

/// The members that `cargo` works on by default, or none where this `cargo` does not give them.
#[derive(Debug, PartialEq, Eq, Drop)]
pub struct WorkspaceDefaultMembers {
    ids: Option<Items<PackageId>>,
}

impl Model for WorkspaceDefaultMembers {
    ghost use Rattle.std.specs.Prelude.{List, Option};
    ghost use Rattle.cargo_meta_values.specs.declared.names.PackageId.{PackageId};

    ghost Value = { Option (List PackageId) };

    ghost view = { λ a. a.ids };

    ghost inverse = { λ v. record { ids = v } };
}

impl WorkspaceDefaultMembers {
    pub fn new(ids: Option<Items<PackageId>>) -> Self
        ensures { result ≡ ids }
    {
        WorkspaceDefaultMembers { ids }
    }

    /// Whether the document gives the default members.
    pub fn is_available(&self) -> bool
        ensures { result ≡ is_some self.now }
    {
        self.ids.is_some()
    }

    /// Whether the document does not give them, as those of `cargo` before 1.71.
    pub fn is_missing(&self) -> bool
        ensures { result ≡ is_none self.now }
    {
        self.ids.is_none()
    }

    pub fn as_slice(&self) -> &[PackageId]
        requires { IsSome self.now }
        ensures { Some result.now ≡ self.now }
    {
        match &self.ids {
            Some(ids) => ids.as_slice(),
            None => unreachable!(),
        }
    }
}

impl Default for WorkspaceDefaultMembers {
    ghost use Rattle.std.specs.Prelude.{◌≡◌, None};

    ghost is_default = { λ members. members ≡ None };

    fn default() -> WorkspaceDefaultMembers {
        WorkspaceDefaultMembers { ids: None }
    }
}

impl TryClone for WorkspaceDefaultMembers {
    fn try_clone(&self, alloc: Global) -> Result<Self, AllocError> {
        Ok(WorkspaceDefaultMembers {
            ids: self.ids.try_clone(alloc)?,
        })
    }
}

impl ReadJson for WorkspaceDefaultMembers {
    ghost reads = { option_at (list_at package_id_at) };

    fn read(alloc: Global, value: &Value) -> Result<WorkspaceDefaultMembers, ReadError> {
        Ok(WorkspaceDefaultMembers {
            ids: Option::read(alloc, value)?,
        })
    }
}

impl Json for WorkspaceDefaultMembers {
    ghost use Rattle.cargo_meta.specs.laws.DefaultMembers.{default_members-round_trips};

    ghost writes = { option_data (list_data package_id_data) };

    ghost height = { 0 };

    fn write(&self, alloc: Global) -> Result<Value, AllocError> {
        self.ids.write(alloc)
    }

    ghost round_trips = { default_members-round_trips };
}

/// The document of a workspace: its packages, and what they resolve to.
#[derive(PartialEq, Eq, Drop)]
pub struct Metadata {
    pub packages: Items<Package>,
    pub workspace_members: Items<PackageId>,
    pub workspace_default_members: WorkspaceDefaultMembers,
    pub resolve: Option<Resolve>,
    pub workspace_root: Text,
    pub target_directory: Text,
    pub build_directory: Option<Text>,
    pub workspace_metadata: AnyValue,
    pub version: u64,
}

impl TryClone for Metadata {
    fn try_clone(&self, alloc: Global) -> Result<Self, AllocError> {
        Ok(Metadata {
            packages: self.packages.try_clone(alloc)?,
            workspace_members: self.workspace_members.try_clone(alloc)?,
            workspace_default_members: self.workspace_default_members.try_clone(alloc)?,
            resolve: self.resolve.try_clone(alloc)?,
            workspace_root: self.workspace_root.try_clone(alloc)?,
            target_directory: self.target_directory.try_clone(alloc)?,
            build_directory: self.build_directory.try_clone(alloc)?,
            workspace_metadata: self.workspace_metadata.try_clone(alloc)?,
            version: self.version,
        })
    }
}

#[tactic(auto, unfolding(crate::specs::Metadata::metadata_at))]
impl ReadJson for Metadata {
    ghost reads = { metadata_at };

    fn read(alloc: Global, value: &Value) -> Result<Metadata, ReadError> {
        let fields = members(alloc, value)?;
        read_metadata(alloc, fields)
    }
}

#[tactic(auto, unfolding(crate::specs::Metadata::metadata_data, crate::specs::Metadata::metadata_members))]
impl Json for Metadata {
    ghost use Rattle.cargo_meta.specs.laws.Metadata.{metadata-round_trips};

    ghost writes = { metadata_data };

    ghost height = { 7 };

    fn write(&self, alloc: Global) -> Result<Value, AllocError> {
        let mut fields = Map::new(alloc);
        set(alloc, &mut fields, "packages", &self.packages)?;
        set(
            alloc,
            &mut fields,
            "workspace_members",
            &self.workspace_members,
        )?;
        let default_members = &self.workspace_default_members;
        set_unless_null(
            alloc,
            &mut fields,
            "workspace_default_members",
            default_members,
        )?;
        set(alloc, &mut fields, "resolve", &self.resolve)?;
        set(alloc, &mut fields, "workspace_root", &self.workspace_root)?;
        set(
            alloc,
            &mut fields,
            "target_directory",
            &self.target_directory,
        )?;
        set(alloc, &mut fields, "build_directory", &self.build_directory)?;
        set_unless_null(alloc, &mut fields, "metadata", &self.workspace_metadata)?;
        set(alloc, &mut fields, "version", &self.version)?;
        Ok(Value::Object(fields))
    }

    ghost round_trips = { metadata-round_trips };
}

#[tactic(auto, unfolding(crate::specs::Metadata::metadata_from, json_fields::specs::Fields::required_member, json_fields::specs::Fields::optional_member, json_fields::specs::Fields::default_member))]
fn read_metadata(alloc: Global, fields: &Map<String, Value>) -> Result<Metadata, ReadError>
    ensures exact { Gives result (metadata_from (members_view fields.now.entries)) }
{
    let packages = required_member(alloc, fields, "packages")?;
    let workspace_members = required_member(alloc, fields, "workspace_members")?;
    let default_members = optional_member(alloc, fields, "workspace_default_members")?;
    let resolve = optional_member(alloc, fields, "resolve")?;
    let workspace_root = required_member(alloc, fields, "workspace_root")?;
    let target_directory = required_member(alloc, fields, "target_directory")?;
    let build_directory = optional_member(alloc, fields, "build_directory")?;
    let workspace_metadata = default_member(alloc, fields, "metadata", AnyValue::null())?;
    let version = required_member(alloc, fields, "version")?;
    Ok(Metadata {
        packages,
        workspace_members,
        workspace_default_members: WorkspaceDefaultMembers::new(default_members),
        resolve,
        workspace_root,
        target_directory,
        build_directory,
        workspace_metadata,
        version,
    })
}
