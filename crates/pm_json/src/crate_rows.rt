//! The table of a crate in two groups of rows: the first eight, and the nine after them.

ghost use Rattle.std.specs.Prelude.{◌≡◌, IfOk, OnOk};
ghost use Rattle.serde_json.specs.View.{members_view};
ghost use Rattle.json_fields.specs.Outcome.{Gives};
ghost use Rattle.pm_json.specs.CrateData.{crate_of_rows, crate_head_from, stated_head, crate_head_set, crate_tail_from, stated_tail, crate_tail_set};

use crate::crate_data::CrateData;
use crate::dep::Dep;
use crate::kinds::EditionData;
use crate::parts::{BuildData, CrateSource};
use base_text_paths::{ByText, CfgAtom, Items, Text, TryClone, Version};
use json_fields::{
    ReadError, default_member, list_member, map_member, optional_member, required_member, set,
};
use serde_json::{Map, Value};
use std::alloc::{AllocError, Global};

/// What the first eight rows of a crate give.
#[derive(Drop)]
pub(crate) struct CrateHead {
    display_name: Option<Text>,
    root_module: Text,
    edition: EditionData,
    version: Option<Version>,
    deps: Items<Dep>,
    cfg_groups: Items<Text>,
    cfg: Items<CfgAtom>,
    target: Option<Text>,
}

/// What the nine rows after them give.
#[derive(Drop)]
pub(crate) struct CrateTail {
    env: ByText<Text>,
    crate_attrs: Items<Text>,
    proc_macro_dylib_path: Option<Text>,
    is_workspace_member: Option<bool>,
    source: Option<CrateSource>,
    is_proc_macro: bool,
    repository: Option<Text>,
    build: Option<BuildData>,
    proc_macro_cwd: Option<Text>,
}

/// The crate of its rows.
pub(crate) fn crate_of(head: CrateHead, tail: CrateTail) -> CrateData
    ensures { result ≡ crate_of_rows head tail }
{
    CrateData {
        display_name: head.display_name,
        root_module: head.root_module,
        edition: head.edition,
        version: head.version,
        deps: head.deps,
        cfg_groups: head.cfg_groups,
        cfg: head.cfg,
        target: head.target,
        env: tail.env,
        crate_attrs: tail.crate_attrs,
        proc_macro_dylib_path: tail.proc_macro_dylib_path,
        is_workspace_member: tail.is_workspace_member,
        source: tail.source,
        is_proc_macro: tail.is_proc_macro,
        repository: tail.repository,
        build: tail.build,
        proc_macro_cwd: tail.proc_macro_cwd,
    }
}

/// A copy of the first eight fields.
pub(crate) fn copy_head(alloc: Global, from: &CrateData) -> Result<CrateHead, AllocError>
    ensures { IfOk result (λ head. head ≡ stated_head from.now) }
{
    Ok(CrateHead {
        edition: from.edition,
        root_module: from.root_module.try_clone(alloc)?,
        display_name: from.display_name.try_clone(alloc)?,
        target: from.target.try_clone(alloc)?,
        cfg_groups: from.cfg_groups.try_clone(alloc)?,
        cfg: from.cfg.try_clone(alloc)?,
        deps: from.deps.try_clone(alloc)?,
        version: from.version.try_clone(alloc)?,
    })
}

/// A copy of the other nine.
pub(crate) fn copy_tail(alloc: Global, from: &CrateData) -> Result<CrateTail, AllocError>
    ensures { IfOk result (λ tail. tail ≡ stated_tail from.now) }
{
    Ok(CrateTail {
        env: from.env.try_clone(alloc)?,
        crate_attrs: from.crate_attrs.try_clone(alloc)?,
        proc_macro_dylib_path: from.proc_macro_dylib_path.try_clone(alloc)?,
        is_workspace_member: from.is_workspace_member,
        source: from.source.try_clone(alloc)?,
        is_proc_macro: from.is_proc_macro,
        repository: from.repository.try_clone(alloc)?,
        build: from.build.try_clone(alloc)?,
        proc_macro_cwd: from.proc_macro_cwd.try_clone(alloc)?,
    })
}

#[tactic(auto, unfolding(crate::specs::CrateData::crate_head_from, json_fields::specs::Fields::required_member, json_fields::specs::Fields::optional_member, json_fields::specs::Fields::default_member))]
pub(crate) fn read_head(alloc: Global, fields: &Map<String, Value>) -> Result<CrateHead, ReadError>
    ensures exact { Gives result (crate_head_from (members_view fields.now.entries)) }
{
    let display_name = optional_member(alloc, fields, "display_name")?;
    let root_module = required_member(alloc, fields, "root_module")?;
    let edition = required_member(alloc, fields, "edition")?;
    let version = optional_member(alloc, fields, "version")?;
    let deps = required_member(alloc, fields, "deps")?;
    let cfg_groups = list_member(alloc, fields, "cfg_groups")?;
    let cfg = list_member(alloc, fields, "cfg")?;
    let target = optional_member(alloc, fields, "target")?;
    Ok(CrateHead {
        display_name,
        root_module,
        edition,
        version,
        deps,
        cfg_groups,
        cfg,
        target,
    })
}

#[tactic(auto, unfolding(crate::specs::CrateData::crate_tail_from, json_fields::specs::Fields::required_member, json_fields::specs::Fields::optional_member, json_fields::specs::Fields::default_member))]
pub(crate) fn read_tail(alloc: Global, fields: &Map<String, Value>) -> Result<CrateTail, ReadError>
    ensures exact { Gives result (crate_tail_from (members_view fields.now.entries)) }
{
    let env = map_member(alloc, fields, "env")?;
    let crate_attrs = list_member(alloc, fields, "crate_attrs")?;
    let proc_macro_dylib_path = optional_member(alloc, fields, "proc_macro_dylib_path")?;
    let is_workspace_member = optional_member(alloc, fields, "is_workspace_member")?;
    let source = optional_member(alloc, fields, "source")?;
    let is_proc_macro = default_member(alloc, fields, "is_proc_macro", false)?;
    let repository = optional_member(alloc, fields, "repository")?;
    let build = optional_member(alloc, fields, "build")?;
    let proc_macro_cwd = optional_member(alloc, fields, "proc_macro_cwd")?;
    Ok(CrateTail {
        env,
        crate_attrs,
        proc_macro_dylib_path,
        is_workspace_member,
        source,
        is_proc_macro,
        repository,
        build,
        proc_macro_cwd,
    })
}

#[tactic(auto, unfolding(crate::specs::CrateData::crate_head_set))]
pub(crate) fn set_head(
    alloc: Global,
    fields: &mut Map<String, Value>,
    from: &CrateData,
) -> Result<(), AllocError>
    ensures { OnOk result (members_view fields.new.entries
        ≡ crate_head_set (stated_head from.now) (members_view fields.old.entries)) }
{
    set(alloc, fields, "display_name", &from.display_name)?;
    set(alloc, fields, "root_module", &from.root_module)?;
    set(alloc, fields, "edition", &from.edition)?;
    set(alloc, fields, "version", &from.version)?;
    set(alloc, fields, "deps", &from.deps)?;
    set(alloc, fields, "cfg_groups", &from.cfg_groups)?;
    set(alloc, fields, "cfg", &from.cfg)?;
    set(alloc, fields, "target", &from.target)?;
    Ok(())
}

#[tactic(auto, unfolding(crate::specs::CrateData::crate_tail_set))]
pub(crate) fn set_tail(
    alloc: Global,
    fields: &mut Map<String, Value>,
    from: &CrateData,
) -> Result<(), AllocError>
    ensures { OnOk result (members_view fields.new.entries
        ≡ crate_tail_set (stated_tail from.now) (members_view fields.old.entries)) }
{
    set(alloc, fields, "env", &from.env)?;
    set(alloc, fields, "crate_attrs", &from.crate_attrs)?;
    set(
        alloc,
        fields,
        "proc_macro_dylib_path",
        &from.proc_macro_dylib_path,
    )?;
    set(
        alloc,
        fields,
        "is_workspace_member",
        &from.is_workspace_member,
    )?;
    set(alloc, fields, "source", &from.source)?;
    set(alloc, fields, "is_proc_macro", &from.is_proc_macro)?;
    set(alloc, fields, "repository", &from.repository)?;
    set(alloc, fields, "build", &from.build)?;
    set(alloc, fields, "proc_macro_cwd", &from.proc_macro_cwd)?;
    Ok(())
}
