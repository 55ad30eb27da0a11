//! Crates of a document, read on a base directory.

ghost use Rattle.std.specs.Prelude.{◌≡◌, ◌++◌, [], IfOk, OnOk, flat_map, map, option_map};
ghost use Rattle.base_text_paths.specs.AbsPath.{abs_text};
ghost use Rattle.base_text_paths.specs.Paths.{parent_text};
ghost use Rattle.crate_graph_values.specs.Names.{shown_as};
ghost use Rattle.json_fields.specs.Versions.{version_text};
ghost use Rattle.pm_json.specs.Crates as crates;
ghost use Rattle.pm_json.specs.Crates.{absolute_from, cfgs_of, crates_on_base, folder_of_parent, group_names, head_on_base, is_member};
ghost use Rattle.pm_json.specs.Gathering.{parts_from};
ghost use Rattle.pm_json.specs.Refusals.{Gives};

use crate::crate_data::CrateData;
use crate::crate_parts::{CrateHead, CrateTail, crate_of};
use crate::krate::Crate;
use crate::parts::CrateSource;
use crate::workspace_json_error::WorkspaceJsonError;
use base_text_paths::{
    AbsPath, AbsPathBuf, ByText, CfgAtom, Items, Text, TryClone, Version, sort_all,
};
use crate_graph_values::CrateDisplayName;
use std::alloc::{AllocError, Global};
use std::mem;

// The directories that a crate's files are in, and those that are left out.
#[derive(Drop)]
struct Folders {
    include: Items<AbsPathBuf>,
    exclude: Items<AbsPathBuf>,
}

/// The crates of a document, in its order.
pub(crate) fn read_crates(
    alloc: Global,
    base: AbsPath<'_>,
    groups: &ByText<Items<CfgAtom>>,
    stated: Items<CrateData>,
) -> Result<Items<Crate>, WorkspaceJsonError>
    ensures exact { Gives result (crates_on_base (abs_text base.entry) groups.now stated) }
{
    let mut crates = Vec::with_capacity(alloc, stated.len())?;
    for krate in stated.into_inner() {
        crates.push(read_crate(alloc, base, groups, krate)?)?;
    }
    Ok(Items::new(crates))
}

#[tactic(auto, unfolding(crate::specs::Crates::project_crate))]
fn read_crate(
    alloc: Global,
    base: AbsPath<'_>,
    groups: &ByText<Items<CfgAtom>>,
    mut stated: CrateData,
) -> Result<Crate, WorkspaceJsonError>
    ensures exact { Gives result (crates.project_crate (abs_text base.entry) groups.now stated) }
{
    let (head, cfg) = read_parts(alloc, base, groups, &mut stated)?;
    Ok(crate_of(head, CrateTail::new(stated, cfg)))
}

// What of a crate is read on the base, and all of its atoms, which are moved.
fn read_parts(
    alloc: Global,
    base: AbsPath<'_>,
    groups: &ByText<Items<CfgAtom>>,
    stated: &mut CrateData,
) -> Result<(CrateHead, Items<CfgAtom>), WorkspaceJsonError>
    ensures exact { Gives result (parts_from (abs_text base.entry) groups.now stated.old) }
    ensures rest { OnOk result (stated.new ≡ record stated.old { cfg_groups = []; cfg = [] }) }
{
    let head = read_head(alloc, base, stated)?;
    let names = mem::replace(&mut stated.cfg_groups, Items::empty(alloc));
    let own = mem::replace(&mut stated.cfg, Items::empty(alloc));
    Ok((head, all_cfgs(alloc, groups, names, own)?))
}

// Whether a crate is a member: as it is stated, else where its root module lies below the base.
fn is_member(stated: Option<bool>, base: AbsPath<'_>, root: AbsPath<'_>) -> bool
    ensures { result ≡ is_member stated (abs_text base.entry) (abs_text root.entry) }
{
    match stated {
        Some(stated) => stated,
        None => root.starts_with(base),
    }
}

// What of a crate is read on the base.
#[tactic(auto, unfolding(crate::specs::Crates::head_on_base))]
fn read_head(
    alloc: Global,
    base: AbsPath<'_>,
    stated: &CrateData,
) -> Result<CrateHead, WorkspaceJsonError>
    ensures exact { Gives result (head_on_base (abs_text base.entry) stated.now) }
{
    let root_module = base.absolutize(alloc, stated.root_module.as_str())?;
    let folders = read_folders(alloc, base, root_module.as_path(), &stated.source)?;
    let is_workspace_member = is_member(stated.is_workspace_member, base, root_module.as_path());
    Ok(CrateHead {
        version: written_version(alloc, &stated.version)?,
        proc_macro_dylib_path: absolute(alloc, base, &stated.proc_macro_dylib_path)?,
        proc_macro_cwd: absolute(alloc, base, &stated.proc_macro_cwd)?,
        display_name: shown_name(alloc, &stated.display_name)?,
        root_module,
        is_workspace_member,
        include: folders.include,
        exclude: folders.exclude,
    })
}

/// A path of the document, if there is one, on the base.
pub(crate) fn absolute(
    alloc: Global,
    base: AbsPath<'_>,
    path: &Option<Text>,
) -> Result<Option<AbsPathBuf>, AllocError>
    ensures { IfOk result (λ found. found
        ≡ option_map (absolute_from (abs_text base.entry)) path.now) }
{
    match path {
        Some(path) => Ok(Some(base.absolutize(alloc, path.as_str())?)),
        None => Ok(None),
    }
}

fn absolute_paths(
    alloc: Global,
    base: AbsPath<'_>,
    paths: &[Text],
) -> Result<Items<AbsPathBuf>, AllocError>
    ensures { IfOk result (λ found. found
        ≡ map (absolute_from (abs_text base.entry)) paths.now) }
{
    let mut found = Vec::with_capacity(alloc, paths.len())?;
    for path in paths {
        found.push(base.absolutize(alloc, path.as_str())?)?;
    }
    Ok(Items::new(found))
}

fn read_folders(
    alloc: Global,
    base: AbsPath<'_>,
    root: AbsPath<'_>,
    source: &Option<CrateSource>,
) -> Result<Folders, WorkspaceJsonError>
    ensures exact { Gives result
        (crates.folders_of (abs_text base.entry) (abs_text root.entry) source.now) }
{
    match source {
        Some(source) => Ok(Folders {
            include: absolute_paths(alloc, base, source.include_dirs.as_slice())?,
            exclude: absolute_paths(alloc, base, source.exclude_dirs.as_slice())?,
        }),
        None => folder_above(alloc, root),
    }
}

// The directory that a root module lies in.
fn folder_above(alloc: Global, root: AbsPath<'_>) -> Result<Folders, WorkspaceJsonError>
    ensures exact { Gives result
        (folder_of_parent (abs_text root.entry) (parent_text (abs_text root.entry))) }
{
    match root.parent() {
        Some(parent) => {
            let mut include = Vec::with_capacity(alloc, 1)?;
            include.push(parent.to_path_buf(alloc)?)?;
            Ok(Folders {
                include: Items::new(include),
                exclude: Items::empty(alloc),
            })
        }
        None => Err(WorkspaceJsonError::NoParent(Text::of_str(alloc, root.as_str())?)),
    }
}

fn shown_name(alloc: Global, name: &Option<Text>) -> Result<Option<CrateDisplayName>, AllocError>
    ensures { IfOk result (λ shown. shown ≡ option_map shown_as name.now) }
{
    match name {
        Some(name) => Ok(Some(CrateDisplayName::from_canonical_name(alloc, name.as_str())?)),
        None => Ok(None),
    }
}

#[tactic(auto, unfolding(json_fields::specs::Versions::version_text))]
fn written_version(alloc: Global, version: &Option<Version>) -> Result<Option<Text>, AllocError>
    ensures { IfOk result (λ written. written ≡ option_map version_text version.now) }
{
    match version {
        Some(version) => Ok(Some(Text::new(version.as_version().to_string(alloc)?))),
        None => Ok(None),
    }
}

// The atoms of the named groups, and then the crate's own.
#[tactic(auto, unfolding(crate::specs::Crates::cfgs_of))]
fn all_cfgs(
    alloc: Global,
    groups: &ByText<Items<CfgAtom>>,
    names: Items<Text>,
    own: Items<CfgAtom>,
) -> Result<Items<CfgAtom>, AllocError>
    ensures { IfOk result (λ cfgs. cfgs ≡ cfgs_of groups.now names own) }
{
    if names.is_empty() {
        return Ok(own);
    }
    let names = ascending_names(names)?;
    let mut cfgs = group_cfgs(alloc, groups, names.as_slice())?;
    cfgs.append(&mut own.into_inner())?;
    Ok(Items::new(cfgs))
}

fn ascending_names(names: Items<Text>) -> Result<Vec<Text>, AllocError>
    ensures { IfOk result (λ ascending. ascending.items ≡ group_names names) }
{
    let mut names = names.into_inner();
    sort_all(&mut names)?;
    names.dedup();
    Ok(names)
}

fn group_cfgs(
    alloc: Global,
    groups: &ByText<Items<CfgAtom>>,
    names: &[Text],
) -> Result<Vec<CfgAtom>, AllocError>
    ensures { IfOk result (λ cfgs. cfgs.items
        ≡ flat_map (crates.group_atoms groups.now) names.now) }
{
    let mut cfgs = Vec::new(alloc);
    for name in names {
        if let Some(group) = groups.get(name.as_str()) {
            push_copies(alloc, &mut cfgs, group.as_slice())?;
        }
    }
    Ok(cfgs)
}

fn push_copies(alloc: Global, cfgs: &mut Vec<CfgAtom>, group: &[CfgAtom]) -> Result<(), AllocError>
    ensures { OnOk result (cfgs.new.items ≡ cfgs.old.items ++ group.now) }
{
    for atom in group {
        cfgs.push(atom.try_clone(alloc)?)?;
    }
    Ok(())
}
