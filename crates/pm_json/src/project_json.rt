//! A project as a document and a base directory make it.

ghost use Rattle.std.specs.Prelude.{◌≡◌, ◌≤◌, IfErr, IfOk, None, length, option_map};
ghost use Rattle.base_text_paths.specs.AbsPath.{abs_text};
ghost use Rattle.pm_json.specs.Crates.{absolute_from};
ghost use Rattle.pm_json.specs.Project as project;
ghost use Rattle.pm_json.specs.Project.{project_of};
ghost use Rattle.pm_json.specs.Queries.{crates_in};
ghost use Rattle.pm_json.specs.Refusals.{Gives, NamesCrateLimit};

use crate::krate::Crate;
use crate::parts::Runnable;
use crate::project_json_data::ProjectJsonData;
use crate::reading::{absolute, read_crates};
use crate::workspace_json_error::WorkspaceJsonError;
use base_text_paths::{
    AbsPath, AbsPathBuf, Boxed, Items, Limit, Limits, ManifestPath, Text, TryClone,
};
use std::alloc::{AllocError, Global};

/// A project that a build system describes.
#[derive(Debug, PartialEq, Eq, Drop)]
pub struct ProjectJson {
    /// The directory of the toolchain.
    pub sysroot: Option<AbsPathBuf>,
    /// The directory of the standard library's sources.
    pub sysroot_src: Option<AbsPathBuf>,
    /// The standard library as a project of its own.
    pub sysroot_project: Option<Boxed<ProjectJson>>,
    /// The directory that the document lies in.
    pub project_root: AbsPathBuf,
    /// The document's path, unless a command wrote the document.
    pub manifest: Option<ManifestPath>,
    pub crates: Items<Crate>,
    /// The commands that a client can run.
    pub runnables: Items<Runnable>,
}

impl ProjectJson {
    /// The project of a document, whose paths are read from the base. A refusal names no other limit than that of crates.
    pub fn new(
        alloc: Global,
        manifest: Option<ManifestPath>,
        base: AbsPath<'_>,
        json_data: ProjectJsonData,
        limits: &Limits,
    ) -> Result<ProjectJson, WorkspaceJsonError>
        ensures exact { Gives result
            (project_of limits.now.crates json_data manifest (abs_text base.entry)) }
        ensures limits { IfErr result NamesCrateLimit }
        ensures few { IfOk result (λ p. length (crates_in p) ≤ limits.now.crates) }
    {
        project_on_base(alloc, manifest, base, json_data, limits)
    }
}

// One level of a project, and the project of the standard library in it.
#[cycle(project)]
#[tactic(auto, unfolding(crate::specs::Project::level_within_limit, crate::specs::Project::level_read))]
fn project_on_base(
    alloc: Global,
    manifest: Option<ManifestPath>,
    base: AbsPath<'_>,
    json_data: ProjectJsonData,
    limits: &Limits,
) -> Result<ProjectJson, WorkspaceJsonError>
    ensures exact { Gives result
        (project_of limits.now.crates json_data manifest (abs_text base.entry)) }
{
    if json_data.crates.len() > limits.crates as usize {
        return Err(WorkspaceJsonError::TooMany(Limit::Crates));
    }
    let Directories {
        sysroot,
        sysroot_src,
        project_root,
    } = Directories::new(alloc, base, &json_data.sysroot, &json_data.sysroot_src)?;
    let stated = json_data.crates;
    let crates = read_crates(alloc, base, &json_data.cfg_groups, stated)?;
    let sysroot_project = read_sysroot(alloc, &sysroot_src, json_data.sysroot_project, limits)?;
    Ok(ProjectJson {
        sysroot,
        sysroot_src,
        sysroot_project,
        project_root,
        manifest,
        crates,
        runnables: json_data.runnables,
    })
}

// The directories of a project.
#[derive(Drop)]
struct Directories {
    sysroot: Option<AbsPathBuf>,
    sysroot_src: Option<AbsPathBuf>,
    project_root: AbsPathBuf,
}

impl Directories {
    // The directories that a document states, on the base, and the base.
    fn new(
        alloc: Global,
        base: AbsPath<'_>,
        sysroot: &Option<Text>,
        sysroot_src: &Option<Text>,
    ) -> Result<Directories, AllocError>
        ensures { IfOk result (λ directories. directories ≡ record {
          sysroot = option_map (absolute_from (abs_text base.entry)) sysroot.now;
          sysroot_src = option_map (absolute_from (abs_text base.entry)) sysroot_src.now;
          project_root = abs_text base.entry;
        }) }
    {
        Ok(Directories {
            sysroot: absolute(alloc, base, sysroot)?,
            sysroot_src: absolute(alloc, base, sysroot_src)?,
            project_root: base.to_path_buf(alloc)?,
        })
    }
}

// The project of the standard library, where its sources have a directory.
#[cycle(project)]
fn read_sysroot(
    alloc: Global,
    source: &Option<AbsPathBuf>,
    json_data: Option<Boxed<ProjectJsonData>>,
    limits: &Limits,
) -> Result<Option<Boxed<ProjectJson>>, WorkspaceJsonError>
    ensures exact { Gives result (project.sysroot_project_of source.now
        (option_map (project_of limits.now.crates) json_data)) }
{
    match (source, json_data) {
        (Some(source), Some(json_data)) => {
            let stated = json_data.into_inner();
            let project = project_on_base(alloc, None, source.as_path(), stated, limits)?;
            Ok(Some(Boxed::new(alloc, project)?))
        }
        _ => Ok(None),
    }
}

impl TryClone for ProjectJson {
    fn try_clone(&self, alloc: Global) -> Result<Self, AllocError> {
        Ok(ProjectJson {
            sysroot: self.sysroot.try_clone(alloc)?,
            sysroot_src: self.sysroot_src.try_clone(alloc)?,
            sysroot_project: match &self.sysroot_project {
                Some(project) => Some(Boxed::new(alloc, project.get().try_clone(alloc)?)?),
                None => None,
            },
            project_root: self.project_root.try_clone(alloc)?,
            manifest: self.manifest.try_clone(alloc)?,
            crates: self.crates.try_clone(alloc)?,
            runnables: self.runnables.try_clone(alloc)?,
        })
    }
}
