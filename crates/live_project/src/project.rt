//! A project as its load read it, with what that kept.

ghost use Rattle.std.specs.Prelude.{◌≡◌, ◌+◌, ◌<◌, ◌^◌, IfErr, IfOk, Some, length};
ghost use Rattle.vfs_core.specs.Files.{existing_files};
ghost use Rattle.live_config.specs.Config.{Fits};
ghost use Rattle.pm_tools.specs.Reading as build;
ghost use Rattle.pm_lower.specs.Builds.{TakesBuild};
ghost use Rattle.pm_lower_load.specs.Loading.{Gives, NamesDocumentLimit};
ghost use Rattle.pm_lower.specs.ProjectWorkspace.{has_cargo_workspace};
ghost use Rattle.pm_lower.specs.ReadProject.{read_project};
ghost use Rattle.pm_lower.specs.Small.{IsSmall};
ghost use Rattle.pm_lower_crates.specs.Lowering.{IsLowered, LacksCyclesAlone};
ghost use Rattle.live_project.specs.Build.{built_project, with_build};
ghost use Rattle.live_project.specs.Crates.{BeginIn, lowered_by, project_lowered};
ghost use Rattle.live_project.specs.Project.{Loads, NamesLoadLimit, manifest_named, read_named, read_sources};
ghost use Rattle.live_project.specs.Roots.{roots_of_project};
ghost use Rattle.live_project.specs.Sources.{means_of_sources};

use crate::live_files::files_by_path;
use crate::project_error::ProjectError;
use crate::project_roots::file_roots;
use crate::sources::Sources;
use base_text::{AbsPathBuf, Items, Output, PathError, Quiet, TryClone};
use crate_graph::CrateGraphBuilder;
use pm_lower::ProjectWorkspace;
use pm_lower_crates::{Loader, LowerError};
use pm_lower_load::LoadError;
use pm_tools::{BuildError, WorkspaceBuildScripts};
use pm_tools_ask::ProjectManifest;
use std::alloc::{AllocError, Global};
use std::marker::Model;
use vfs_core::Vfs;
use vfs_sets::FileRoot;

/// A project, with the configuration, the answers, the files and the path that its load was made with. What is asked of it later asks
/// these alone.
#[derive(Drop)]
pub struct Project {
    sources: Sources,
    workspace: ProjectWorkspace,
}

impl Model for Project {
    ghost use Rattle.live_project.specs.Project.{IsLoaded, ProjectContent, project_code};

    ghost Value = { ProjectContent };

    ghost coded = { project_code };

    ghost view = { λ p. record { sources = p.sources; workspace = p.workspace } };

    ghost invariant = { λ p. IsLoaded (record { sources = p.sources; workspace = p.workspace }) };
}

// The manifest that a text names, if it does.
fn manifest_named(alloc: Global, text: &str) -> Result<Option<ProjectManifest>, AllocError>
    ensures { IfOk result (λ manifest. manifest ≡ manifest_named text.now) }
{
    let path = match AbsPathBuf::new(alloc, text) {
        Ok(path) => path,
        Err(PathError::NotAbsolute) => return Ok(None),
        Err(PathError::OutOfMemory) => return Err(AllocError),
    };
    match ProjectManifest::from_manifest_file(path) {
        Ok(manifest) => Ok(Some(manifest)),
        Err(_) => Ok(None),
    }
}

// What is read of a manifest with what a load keeps.
fn workspace_of(
    alloc: Global,
    manifest: &ProjectManifest,
    sources: &Sources,
) -> Result<ProjectWorkspace, LoadError>
    requires { Fits sources.now.config }
    ensures project { Gives result (read_project manifest.now sources.now.config.cargo
        sources.now.config.limits (means_of_sources sources.now)) }
    ensures limits { IfErr result NamesDocumentLimit }
    ensures small { IfOk result (IsSmall sources.now.config.limits) }
{
    let config = sources.config.get();
    let ask = sources.ask();
    ProjectWorkspace::load(
        alloc,
        manifest,
        &config.cargo,
        &config.limits,
        &ask,
        &mut Quiet,
    )
}

impl Project {
    /// Loads the project of the manifest that the path of the sources names, and keeps the sources. An error says which refusal
    /// comes first, and names no other limit than those of packages, targets and crates.
    pub fn load(alloc: Global, sources: Sources) -> Result<Project, ProjectError>
        requires { Fits sources.config }
        ensures loads { Loads sources (read_sources sources) result }
        ensures limits { IfErr result NamesLoadLimit }
    {
        let named = manifest_named(alloc, sources.path.as_str())?;
        match named {
            None => Err(ProjectError::BadManifest(sources.path)),
            Some(manifest) => Project::of_manifest(alloc, &manifest, sources),
        }
    }

    // Loads the project of a manifest.
    fn of_manifest(
        alloc: Global,
        manifest: &ProjectManifest,
        sources: Sources,
    ) -> Result<Project, ProjectError>
        requires { Fits sources.config }
        ensures loads { Loads sources (read_named sources (Some manifest.now)) result }
        ensures limits { IfErr result NamesLoadLimit }
    {
        let workspace = workspace_of(alloc, manifest, &sources)?;
        Ok(Project { sources, workspace })
    }

    /// Whether a build of the project can be set: it has a Cargo workspace.
    pub fn has_cargo_workspace(&self) -> bool
        ensures { result ≡ has_cargo_workspace self.now.workspace.kind }
    {
        self.workspace.has_cargo_workspace()
    }

    /// The project with what a build of it gives by what its command wrote, in place of what an earlier build gave. A project whose
    /// light metadata stands in for the full one keeps the defaults, whatever was written, and one without a Cargo workspace has none.
    pub fn build(&self, alloc: Global, output: &Output) -> Result<Project, BuildError>
        ensures { build.Gives result (built_project self.now output.now) }
    {
        let workspace = &self.workspace;
        let scripts = workspace.build_scripts_of_output(alloc, output, &mut Quiet)?;
        Ok(self.with_build(alloc, scripts)?)
    }

    // The project with these outputs of a build.
    fn with_build(
        &self,
        alloc: Global,
        scripts: WorkspaceBuildScripts,
    ) -> Result<Project, AllocError>
        requires { TakesBuild self.now.workspace.kind scripts }
        ensures { IfOk result (λ project. project ≡ with_build self.now scripts) }
    {
        let sources = self.sources.try_clone(alloc)?;
        let mut workspace = self.workspace.try_clone(alloc)?;
        workspace.set_build_scripts(scripts);
        Ok(Project { sources, workspace })
    }

    /// The project as its load read it, with what its last build gave.
    pub fn workspace(&self) -> &ProjectWorkspace
        ensures { result.now ≡ self.now.workspace }
    {
        &self.workspace
    }

    /// What its load kept.
    pub fn sources(&self) -> &Sources
        ensures { result.now ≡ self.now.sources }
    {
        &self.sources
    }

    /// The roots that place the project's files, in the order of its roots.
    pub fn file_roots(&self, alloc: Global) -> Result<Items<FileRoot>, AllocError>
        ensures roots { IfOk result (λ roots. roots ≡ roots_of_project self.now.workspace) }
        ensures few { length (roots_of_project self.now.workspace) + 1 < 2 ^ 32 }
    {
        match self.workspace.to_roots(alloc) {
            Ok(roots) => file_roots(alloc, roots.as_slice()),
            Err(_) => Err(AllocError),
        }
    }

    /// The graph of the crates whose root files a loader has: at most as many as the load's configuration allows, with the edges
    /// that it wants, each unless it would close a cycle.
    pub fn crate_graph_by<L: Loader>(
        &self,
        alloc: Global,
        loader: &mut L,
    ) -> Result<CrateGraphBuilder, LowerError>
        ensures lowers { IsLowered self.now.sources.config.limits.crates result
            (lowered_by self.now (L.files loader.old)).crates }
        ensures missing { IfOk result (λ graph. LacksCyclesAlone
            (lowered_by self.now (L.files loader.old)).wants graph.crates) }
    {
        let limits = &self.sources.config.get().limits;
        let ask = self.sources.ask();
        let found = self.workspace.to_crate_graph(alloc, loader, limits, &ask)?;
        Ok(found.0)
    }

    /// The graph of the crates whose root files exist. Each begins in one of these files.
    pub fn crate_graph(&self, alloc: Global, files: &Vfs) -> Result<CrateGraphBuilder, LowerError>
        ensures lowers { IsLowered self.now.sources.config.limits.crates result
            (project_lowered self.now (existing_files files.now)).crates }
        ensures missing { IfOk result (λ graph. LacksCyclesAlone
            (project_lowered self.now (existing_files files.now)).wants graph.crates) }
        ensures begins { IfOk result (λ graph. BeginIn (existing_files files.now) graph.crates) }
    {
        let mut loader = files_by_path(alloc, files)?;
        self.crate_graph_by(alloc, &mut loader)
    }
}

impl TryClone for Project {
    fn try_clone(&self, alloc: Global) -> Result<Self, AllocError> {
        let sources = self.sources.try_clone(alloc)?;
        let workspace = self.workspace.try_clone(alloc)?;
        Ok(Project { sources, workspace })
    }
}
