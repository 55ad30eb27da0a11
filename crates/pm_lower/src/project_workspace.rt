//! A project as its load read it.

ghost use Rattle.std.specs.Prelude.{◌≡◌, ◌-◌, ◌^◌, length, min, IfOk, option_copied};
ghost use Rattle.base_text_paths.specs.AbsPath.{abs_text};
ghost use Rattle.pm_lower.specs.Equality.{equal_except_builds, equal_kinds};
ghost use Rattle.pm_lower.specs.ProjectWorkspace as spec;
ghost use Rattle.pm_lower.specs.ProjectWorkspace.{is_json_kind, json_buildfiles, kind_buildfiles, kind_manifest, kind_manifest_or_root};
ghost use Rattle.pm_lower.specs.ProjectWorkspace.{kind_root, package_count, rustc_packages, script_packages, script_workspace};

use base_text::{
    AbsPath, AbsPathBuf, Boxed, CfgAtom, Items, ManifestPath, Text, TryClone, Version,
};
use crate_graph_values::target::TargetLoadResult;
use pm_cargo::CargoWorkspace;
use pm_cargo_config::CfgOverrides;
use pm_json::ProjectJson;
use pm_lower_load::tool_answers::copy_target;
use pm_tools::WorkspaceBuildScripts;
use pm_tools_ask::{RustLibSrcWorkspace, Sysroot};
use std::alloc::{AllocError, Global};

/// The crates of the compiler, with what their builds gave.
pub type RustcWorkspace = Boxed<(CargoWorkspace, WorkspaceBuildScripts)>;

/// The project that cargo reads a detached file as, what its builds gave, and why the metadata of the members alone
/// stands in for that of all packages, where it does.
pub type ScriptWorkspace = (CargoWorkspace, WorkspaceBuildScripts, Option<Text>);

/// What was read of a project, by its kind.
#[derive(Drop)]
pub enum ProjectWorkspaceKind {
    /// A project of cargo.
    Cargo {
        cargo: CargoWorkspace,
        /// Why the metadata of the members alone stands in for that of all packages, where it does.
        error: Option<Text>,
        /// What the builds of build scripts and of procedural macros gave.
        build_scripts: WorkspaceBuildScripts,
        /// The crates of the compiler, or why there are none, where they are needed.
        rustc: Result<RustcWorkspace, Option<Text>>,
    },
    /// A project that a JSON document describes.
    Json(ProjectJson),
    /// A Rust file by itself.
    DetachedFile {
        file: ManifestPath,
        /// The project that cargo reads the file as, where it does.
        cargo: Option<ScriptWorkspace>,
    },
}

/// A project, its toolchain and what they are built for.
#[derive(Drop)]
pub struct ProjectWorkspace {
    pub kind: ProjectWorkspaceKind,
    pub sysroot: Sysroot,
    /// The atoms of conditional compilation that the compiler sets.
    pub rustc_cfg: Items<CfgAtom>,
    /// The version of the toolchain, if it is known.
    pub toolchain: Option<Version>,
    /// The machine that crates are built for, or why nothing is known of it.
    pub target: TargetLoadResult,
    pub cfg_overrides: CfgOverrides,
    /// Directories that are read beside the packages.
    pub extra_includes: Items<AbsPathBuf>,
    /// Whether crates of the workspace are built for their tests.
    pub set_test: bool,
}

// How many packages a workspace has. The count stays at the greatest usize.
fn count_packages(workspace: &CargoWorkspace) -> usize
    ensures { result ≡ min (length workspace.now.packages) (2 ^ 64 - 1) }
{
    let mut count = 0usize;
    for _ in workspace.packages() {
        count = count.saturating_add(1);
    }
    count
}

/// The workspace of a detached file, where cargo reads it as a project.
pub(crate) fn script_workspace(script: &Option<ScriptWorkspace>) -> Option<&CargoWorkspace>
    ensures { option_copied result ≡ script_workspace script.now }
{
    match script {
        Some((cargo, _, _)) => Some(cargo),
        None => None,
    }
}

// The build files of the crates of a JSON project.
fn json_buildfiles(alloc: Global, project: &ProjectJson) -> Result<Items<AbsPathBuf>, AllocError>
    ensures { IfOk result (λ files. files ≡ json_buildfiles project.now) }
{
    let mut files = Vec::new(alloc);
    for krate in project.crates.as_slice() {
        if let Some(build) = &krate.build {
            let root = project.project_root();
            files.push(root.join(alloc, build.build_file.as_str())?)?;
        }
    }
    Ok(Items::new(files))
}

// How many packages the crates of the compiler have, or the greatest count where they are more.
fn rustc_packages(rustc: &Result<RustcWorkspace, Option<Text>>) -> usize
    ensures { result ≡ min (rustc_packages rustc.now) (2 ^ 64 - 1) }
{
    match rustc {
        Ok(rustc) => count_packages(&rustc.get().0),
        Err(_) => 0,
    }
}

// How many packages a detached file has, or the greatest count where they are more: itself alone counts as one.
fn script_packages(script: &Option<ScriptWorkspace>) -> usize
    ensures { result ≡ min (script_packages (script_workspace script.now)) (2 ^ 64 - 1) }
{
    match script_workspace(script) {
        Some(cargo) => count_packages(cargo),
        None => 1,
    }
}

impl ProjectWorkspace {
    /// The path of the manifest, or that of the directory of a JSON project that no file describes.
    pub fn manifest_or_root(&self) -> AbsPath<'_>
        ensures { abs_text result ≡ kind_manifest_or_root self.now.kind }
    {
        match &self.kind {
            ProjectWorkspaceKind::Cargo { cargo, .. } => cargo.manifest_path().as_path(),
            ProjectWorkspaceKind::Json(project) => project.manifest_or_root(),
            ProjectWorkspaceKind::DetachedFile { file, .. } => file.as_path(),
        }
    }

    /// The root of the workspace; of a detached file, the directory that it lies in.
    pub fn workspace_root(&self) -> AbsPath<'_>
        ensures { abs_text result ≡ kind_root self.now.kind }
    {
        match &self.kind {
            ProjectWorkspaceKind::Cargo { cargo, .. } => cargo.workspace_root(),
            ProjectWorkspaceKind::Json(project) => project.project_root(),
            ProjectWorkspaceKind::DetachedFile { file, .. } => file.parent(),
        }
    }

    /// The manifest, if there is one. A detached file has that of the project that cargo reads it as.
    pub fn manifest(&self) -> Option<&ManifestPath>
        ensures { option_copied result ≡ kind_manifest self.now.kind }
    {
        match &self.kind {
            ProjectWorkspaceKind::Cargo { cargo, .. } => Some(cargo.manifest_path()),
            ProjectWorkspaceKind::Json(project) => project.manifest(),
            ProjectWorkspaceKind::DetachedFile { cargo, .. } => {
                Some(script_workspace(cargo)?.manifest_path())
            }
        }
    }

    /// How many packages there are: those of the toolchain's libraries, of the project and of the compiler. The crates
    /// of a JSON project count as packages, and so does a detached file that cargo reads as no project.
    pub fn n_packages(&self) -> usize
        ensures { result ≡ package_count self.now }
    {
        let libraries = match self.sysroot.workspace() {
            RustLibSrcWorkspace::Empty => 0usize,
        };
        match &self.kind {
            ProjectWorkspaceKind::Cargo { cargo, rustc, .. } => {
                let rustc = rustc_packages(rustc);
                libraries.saturating_add(count_packages(cargo).saturating_add(rustc))
            }
            ProjectWorkspaceKind::Json(project) => libraries.saturating_add(project.n_crates()),
            ProjectWorkspaceKind::DetachedFile { cargo, .. } => {
                libraries.saturating_add(script_packages(cargo))
            }
        }
    }

    /// Whether the project is described by a JSON document.
    pub fn is_json(&self) -> bool
        ensures { result ≡ is_json_kind self.now.kind }
    {
        match &self.kind {
            ProjectWorkspaceKind::Json(_) => true,
            ProjectWorkspaceKind::Cargo { .. } | ProjectWorkspaceKind::DetachedFile { .. } => false,
        }
    }

    /// Whether there is a Cargo workspace, which builds can be set in.
    pub fn has_cargo_workspace(&self) -> bool
        ensures { result ≡ spec.has_cargo_workspace self.now.kind }
    {
        match &self.kind {
            ProjectWorkspaceKind::Cargo { .. } => true,
            ProjectWorkspaceKind::Json(_) => false,
            ProjectWorkspaceKind::DetachedFile { cargo, .. } => cargo.is_some(),
        }
    }

    /// The files by which another build system than cargo builds the crates: those of a JSON project, in order.
    pub fn buildfiles(&self, alloc: Global) -> Result<Items<AbsPathBuf>, AllocError>
        ensures { IfOk result (λ files. files ≡ kind_buildfiles self.now.kind) }
    {
        match &self.kind {
            ProjectWorkspaceKind::Json(project) => json_buildfiles(alloc, project),
            ProjectWorkspaceKind::Cargo { .. } | ProjectWorkspaceKind::DetachedFile { .. } => {
                Ok(Items::empty(alloc))
            }
        }
    }

    /// Whether the projects are equal except for what builds gave them, why the light metadata stands in, extra
    /// directories, and whether crates are built for their tests.
    pub fn eq_ignore_build_data(&self, other: &ProjectWorkspace) -> bool
        ensures { result ≡ equal_except_builds self.now other.now }
    {
        self.kind.eq_ignore_build_data(&other.kind)
            && self.sysroot == other.sysroot
            && self.rustc_cfg == other.rustc_cfg
            && self.toolchain == other.toolchain
            && self.target == other.target
            && self.cfg_overrides == other.cfg_overrides
    }
}

impl ProjectWorkspaceKind {
    // Whether the workspaces, the documents or the files are equal, and the crates of the compiler.
    fn eq_ignore_build_data(&self, other: &ProjectWorkspaceKind) -> bool
        ensures { result ≡ equal_kinds self.now other.now }
    {
        match (self, other) {
            (
                ProjectWorkspaceKind::Cargo { cargo, rustc, .. },
                ProjectWorkspaceKind::Cargo {
                    cargo: other_cargo,
                    rustc: other_rustc,
                    ..
                },
            ) => cargo == other_cargo && rustc == other_rustc,
            (ProjectWorkspaceKind::Json(project), ProjectWorkspaceKind::Json(other)) => {
                project == other
            }
            (
                ProjectWorkspaceKind::DetachedFile {
                    file,
                    cargo: Some((cargo, _, _)),
                },
                ProjectWorkspaceKind::DetachedFile {
                    file: other_file,
                    cargo: Some((other_cargo, _, _)),
                },
            ) => file == other_file && cargo == other_cargo,
            _ => false,
        }
    }
}

impl TryClone for ProjectWorkspaceKind {
    fn try_clone(&self, alloc: Global) -> Result<Self, AllocError> {
        match self {
            ProjectWorkspaceKind::Cargo {
                cargo,
                error,
                build_scripts,
                rustc,
            } => Ok(ProjectWorkspaceKind::Cargo {
                error: error.try_clone(alloc)?,
                build_scripts: build_scripts.try_clone(alloc)?,
                rustc: copy_rustc(alloc, rustc)?,
                cargo: cargo.try_clone(alloc)?,
            }),
            ProjectWorkspaceKind::Json(project) => {
                Ok(ProjectWorkspaceKind::Json(project.try_clone(alloc)?))
            }
            ProjectWorkspaceKind::DetachedFile { file, cargo } => {
                Ok(ProjectWorkspaceKind::DetachedFile {
                    file: file.try_clone(alloc)?,
                    cargo: copy_script(alloc, cargo)?,
                })
            }
        }
    }
}

// A copy of the project of a detached file, if there is one.
fn copy_script(
    alloc: Global,
    script: &Option<ScriptWorkspace>,
) -> Result<Option<ScriptWorkspace>, AllocError>
    ensures { IfOk result (λ copy. copy ≡ script.now) }
{
    let Some((cargo, build_scripts, error)) = script else {
        return Ok(None);
    };
    let error = error.try_clone(alloc)?;
    let build_scripts = build_scripts.try_clone(alloc)?;
    Ok(Some((cargo.try_clone(alloc)?, build_scripts, error)))
}

// A copy of the crates of the compiler, or of why there are none.
fn copy_rustc(
    alloc: Global,
    rustc: &Result<RustcWorkspace, Option<Text>>,
) -> Result<Result<RustcWorkspace, Option<Text>>, AllocError>
    ensures { IfOk result (λ copy. copy ≡ rustc.now) }
{
    match rustc {
        Ok(rustc) => Ok(Ok(rustc.try_clone(alloc)?)),
        Err(reason) => Ok(Err(reason.try_clone(alloc)?)),
    }
}

impl TryClone for ProjectWorkspace {
    fn try_clone(&self, alloc: Global) -> Result<Self, AllocError> {
        Ok(ProjectWorkspace {
            sysroot: self.sysroot.try_clone(alloc)?,
            rustc_cfg: self.rustc_cfg.try_clone(alloc)?,
            toolchain: self.toolchain.try_clone(alloc)?,
            target: copy_target(alloc, &self.target)?,
            cfg_overrides: self.cfg_overrides.try_clone(alloc)?,
            extra_includes: self.extra_includes.try_clone(alloc)?,
            set_test: self.set_test,
            kind: self.kind.try_clone(alloc)?,
        })
    }
}
