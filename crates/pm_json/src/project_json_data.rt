//! The document of a project, which may hold the project of its standard library.

ghost use Rattle.std.specs.Prelude.{◌≡◌, IfOk, option_map};
ghost use Rattle.serde_json.specs.View.{view};
ghost use Rattle.cargo_meta_values.specs.Errors.{GivesDocument};
ghost use Rattle.json_fields.specs.Document.{IsWholeAgain, whole};
ghost use Rattle.json_fields.specs.Nested.{GivesAt};
ghost use Rattle.json_fields.specs.Outcome.{Gives};
ghost use Rattle.json_fields.specs.Written.{option_data};
ghost use Rattle.pm_json.specs.ProjectJsonData.{project_at, project_data, project_row, project_within};
ghost use Rattle.pm_json.specs.laws.ProjectJsonData.{project-round_trips};

use crate::crate_data::CrateData;
use crate::errors::as_error;
use crate::parts::Runnable;
use base_text_paths::{Boxed, ByText, CfgAtom, Items, Text, TryClone};
use cargo_meta_values::Error;
use json_fields::{
    Json, MAX_LEVELS, ReadError, ReadJson, in_box, inner_levels, list_member, map_member, members,
    miss, of_value, optional_by, optional_member, present, required_member, set, set_value,
};
use serde_json::{Map, Value};
use std::alloc::{AllocError, Global};

/// A document of a JSON project.
#[derive(Debug, PartialEq, Eq, Drop)]
pub struct ProjectJsonData {
    /// The directory of the toolchain.
    pub sysroot: Option<Text>,
    /// The directory of the standard library's sources.
    pub sysroot_src: Option<Text>,
    /// The standard library as a project of its own.
    pub sysroot_project: Option<Boxed<ProjectJsonData>>,
    /// Atoms of conditional compilation that crates share, by the name of their group.
    pub cfg_groups: ByText<Items<CfgAtom>>,
    pub crates: Items<CrateData>,
    pub runnables: Items<Runnable>,
}

impl ProjectJsonData {
    /// Reads a document: `float` where it holds one anywhere, else the first missed place. A value that nests past 127
    /// projects misses a place there.
    pub fn of_value(alloc: Global, value: &Value) -> Result<ProjectJsonData, Error>
        ensures exact { GivesDocument result (whole project_at (view value.now)) }
        ensures again { IfOk result (IsWholeAgain project_at project_data) }
    {
        as_error(of_value(alloc, value))
    }

    /// Writes every field, and null where there is none.
    pub fn to_value(&self, alloc: Global) -> Result<Value, AllocError>
        ensures { IfOk result (λ value. view value ≡ project_data self.now) }
    {
        self.write(alloc)
    }
}

impl TryClone for ProjectJsonData {
    fn try_clone(&self, alloc: Global) -> Result<Self, AllocError> {
        Ok(ProjectJsonData {
            sysroot: self.sysroot.try_clone(alloc)?,
            sysroot_src: self.sysroot_src.try_clone(alloc)?,
            sysroot_project: match &self.sysroot_project {
                Some(project) => Some(Boxed::new(alloc, project.get().try_clone(alloc)?)?),
                None => None,
            },
            cfg_groups: self.cfg_groups.try_clone(alloc)?,
            crates: self.crates.try_clone(alloc)?,
            runnables: self.runnables.try_clone(alloc)?,
        })
    }
}

#[tactic(auto, unfolding(crate::specs::ProjectJsonData::project_at))]
impl ReadJson for ProjectJsonData {
    ghost reads = { project_at };

    fn read(alloc: Global, value: &Value) -> Result<ProjectJsonData, ReadError> {
        read_project(alloc, MAX_LEVELS, value)
    }
}

impl Json for ProjectJsonData {
    ghost writes = { project_data };

    ghost height = { 0 };

    fn write(&self, alloc: Global) -> Result<Value, AllocError> {
        write_project(alloc, self)
    }

    ghost round_trips = { project-round_trips };
}

#[cycle(project)]
#[tactic(auto, unfolding(json_fields::specs::Nested::within_levels))]
fn read_project(alloc: Global, left: usize, value: &Value) -> Result<ProjectJsonData, ReadError>
    ensures exact { Gives result (project_within left (view value.now)) }
{
    match inner_levels(left) {
        Some(inner) => read_level(alloc, inner, value),
        None => miss(alloc),
    }
}

#[cycle(project)]
#[tactic(auto, unfolding(crate::specs::ProjectJsonData::project_row))]
fn read_level(alloc: Global, inner: usize, value: &Value) -> Result<ProjectJsonData, ReadError>
    ensures exact { Gives result (project_row (project_within inner) (view value.now)) }
{
    let fields = members(alloc, value)?;
    Ok(ProjectJsonData {
        sysroot: optional_member(alloc, fields, "sysroot")?,
        sysroot_src: optional_member(alloc, fields, "sysroot_src")?,
        sysroot_project: optional_by(
            alloc,
            "sysroot_project",
            project_found(alloc, inner, present(fields, "sysroot_project")),
        )?,
        cfg_groups: map_member(alloc, fields, "cfg_groups")?,
        crates: required_member(alloc, fields, "crates")?,
        runnables: list_member(alloc, fields, "runnables")?,
    })
}

#[cycle(project)]
fn project_found(
    alloc: Global,
    left: usize,
    value: Option<&Value>,
) -> Option<Result<Boxed<ProjectJsonData>, ReadError>>
    ensures exact { GivesAt (project_within left)
        (option_map (λ v. view v.now) value.entry) result }
{
    match value {
        Some(value) => Some(in_box(alloc, read_project(alloc, left, value))),
        None => None,
    }
}

#[cycle(project_written)]
#[tactic(auto, unfolding(crate::specs::ProjectJsonData::project_level, json_fields::specs::Written::set_member))]
fn write_project(alloc: Global, project: &ProjectJsonData) -> Result<Value, AllocError>
    ensures { IfOk result (λ value. view value ≡ project_data project.now) }
{
    let mut fields = Map::new(alloc);
    set(alloc, &mut fields, "sysroot", &project.sysroot)?;
    set(alloc, &mut fields, "sysroot_src", &project.sysroot_src)?;
    let inner = write_project_or_null(alloc, &project.sysroot_project)?;
    set_value(alloc, &mut fields, "sysroot_project", inner)?;
    set(alloc, &mut fields, "cfg_groups", &project.cfg_groups)?;
    set(alloc, &mut fields, "crates", &project.crates)?;
    set(alloc, &mut fields, "runnables", &project.runnables)?;
    Ok(Value::Object(fields))
}

#[cycle(project_written)]
fn write_project_or_null(
    alloc: Global,
    project: &Option<Boxed<ProjectJsonData>>,
) -> Result<Value, AllocError>
    ensures { IfOk result (λ value. view value ≡ option_data project_data project.now) }
{
    match project {
        Some(project) => write_project(alloc, project.get()),
        None => Ok(Value::Null),
    }
}
