//! A crate in two groups of fields: those that are read on a base directory, and those that are taken as they
//! are stated.

ghost use Rattle.std.specs.Prelude.{◌≡◌, IfOk};
ghost use Rattle.pm_json.specs.Crates.{crate_with, tail_with};
ghost use Rattle.pm_json.specs.Gathering.{read_head, taken_tail};

use crate::crate_data::CrateData;
use crate::dep::Dep;
use crate::krate::{Build, Crate};
use base_text_paths::{AbsPathBuf, ByText, CfgAtom, Edition, Items, Text, TryClone};
use crate_graph_values::CrateDisplayName;
use std::alloc::{AllocError, Global};

/// What of a crate is read on the base.
#[derive(Drop)]
pub(crate) struct CrateHead {
    pub(crate) display_name: Option<CrateDisplayName>,
    pub(crate) root_module: AbsPathBuf,
    pub(crate) version: Option<Text>,
    pub(crate) proc_macro_dylib_path: Option<AbsPathBuf>,
    pub(crate) is_workspace_member: bool,
    pub(crate) include: Items<AbsPathBuf>,
    pub(crate) exclude: Items<AbsPathBuf>,
    pub(crate) proc_macro_cwd: Option<AbsPathBuf>,
}

/// What is taken as it is stated.
#[derive(Drop)]
pub(crate) struct CrateTail {
    edition: Edition,
    deps: Items<Dep>,
    cfg: Items<CfgAtom>,
    target: Option<Text>,
    env: ByText<Text>,
    crate_attrs: Items<Text>,
    is_proc_macro: bool,
    repository: Option<Text>,
    build: Option<Build>,
}

impl CrateTail {
    /// What a document states of a crate, with the atoms of its groups and its own.
    pub(crate) fn new(stated: CrateData, cfg: Items<CfgAtom>) -> Self
        ensures { result ≡ tail_with stated cfg }
    {
        CrateTail {
            edition: Edition::from(stated.edition),
            deps: stated.deps,
            cfg,
            target: stated.target,
            env: stated.env,
            crate_attrs: stated.crate_attrs,
            is_proc_macro: stated.is_proc_macro,
            repository: stated.repository,
            build: stated.build.map(Build::from),
        }
    }
}

/// The crate of both groups.
pub(crate) fn crate_of(head: CrateHead, tail: CrateTail) -> Crate
    ensures { result ≡ crate_with head tail }
{
    Crate {
        display_name: head.display_name,
        root_module: head.root_module,
        edition: tail.edition,
        version: head.version,
        deps: tail.deps,
        cfg: tail.cfg,
        target: tail.target,
        env: tail.env,
        crate_attrs: tail.crate_attrs,
        proc_macro_dylib_path: head.proc_macro_dylib_path,
        is_workspace_member: head.is_workspace_member,
        include: head.include,
        exclude: head.exclude,
        is_proc_macro: tail.is_proc_macro,
        proc_macro_cwd: head.proc_macro_cwd,
        repository: tail.repository,
        build: tail.build,
    }
}

/// A copy of the first group.
pub(crate) fn copy_head(alloc: Global, from: &Crate) -> Result<CrateHead, AllocError>
    ensures { IfOk result (λ head. head ≡ read_head from.now) }
{
    Ok(CrateHead {
        is_workspace_member: from.is_workspace_member,
        root_module: from.root_module.try_clone(alloc)?,
        version: from.version.try_clone(alloc)?,
        proc_macro_dylib_path: from.proc_macro_dylib_path.try_clone(alloc)?,
        proc_macro_cwd: from.proc_macro_cwd.try_clone(alloc)?,
        include: from.include.try_clone(alloc)?,
        exclude: from.exclude.try_clone(alloc)?,
        display_name: from.display_name.try_clone(alloc)?,
    })
}

/// A copy of the second group.
pub(crate) fn copy_tail(alloc: Global, from: &Crate) -> Result<CrateTail, AllocError>
    ensures { IfOk result (λ tail. tail ≡ taken_tail from.now) }
{
    Ok(CrateTail {
        edition: from.edition,
        deps: from.deps.try_clone(alloc)?,
        cfg: from.cfg.try_clone(alloc)?,
        target: from.target.try_clone(alloc)?,
        env: from.env.try_clone(alloc)?,
        crate_attrs: from.crate_attrs.try_clone(alloc)?,
        is_proc_macro: from.is_proc_macro,
        repository: from.repository.try_clone(alloc)?,
        build: from.build.try_clone(alloc)?,
    })
}
