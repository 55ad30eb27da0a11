//! The roots of a project: the directories that the files of its packages are read from.

ghost use Rattle.std.specs.Prelude.{◌≡◌, ◌++◌, IfErr, IfOk, OnOk};
ghost use Rattle.pm_lower.specs.ToRoots.{HasNoRustc, kind_roots, project_roots, script_roots, library_source_root, sysroot_roots};
ghost use Rattle.pm_cargo_reading.specs.declared.workspace_error.WorkspaceError.TheVariants.{OutOfMemory};

use crate::project_workspace::{ProjectWorkspace, ProjectWorkspaceKind, ScriptWorkspace};
use base_text::{AbsPathBuf, Items, ManifestPath};
use pm_cargo_reading::WorkspaceError;
use pm_lower_load::{PackageRoot, cargo_roots, detached_roots, json_roots};
use pm_tools::WorkspaceBuildScripts;
use pm_tools_ask::{RustLibSrcWorkspace, Sysroot};
use std::alloc::{AllocError, Global};

// The root of the directory of a toolchain's sources.
fn source_root(alloc: Global, sysroot: &Sysroot) -> Result<PackageRoot, AllocError>
    ensures { IfOk result (λ root. root ≡ library_source_root sysroot.now.src) }
{
    let mut include = Vec::new(alloc);
    if let Some(src) = sysroot.rust_lib_src_root() {
        include.push(src.to_path_buf(alloc)?)?;
    }
    Ok(PackageRoot {
        is_local: false,
        include: Items::new(include),
        exclude: Items::empty(alloc),
    })
}

// Puts the roots of a toolchain behind the others.
fn push_sysroot_roots(
    alloc: Global,
    roots: &mut Vec<PackageRoot>,
    sysroot: &Sysroot,
) -> Result<(), AllocError>
    ensures { OnOk result (roots.new.items ≡ roots.old.items ++ sysroot_roots sysroot.now) }
{
    match sysroot.workspace() {
        RustLibSrcWorkspace::Empty => {}
    }
    roots.push(source_root(alloc, sysroot)?)?;
    Ok(())
}

// The roots of a detached file.
fn script_roots(
    alloc: Global,
    file: &ManifestPath,
    script: &Option<ScriptWorkspace>,
    extra: &[AbsPathBuf],
) -> Result<Items<PackageRoot>, AllocError>
    ensures { IfOk result (λ roots. roots ≡ script_roots file.now script.now extra.now) }
{
    match script {
        Some((cargo, scripts, _)) => detached_roots(alloc, file, Some(cargo), scripts, extra),
        None => {
            let scripts = WorkspaceBuildScripts::new(alloc);
            detached_roots(alloc, file, None, &scripts, extra)
        }
    }
}

// The roots of a kind of project.
fn kind_roots(
    alloc: Global,
    kind: &ProjectWorkspaceKind,
    extra: &[AbsPathBuf],
) -> Result<Items<PackageRoot>, AllocError>
    ensures { IfOk result (λ roots. roots ≡ kind_roots kind.now extra.now) }
{
    match kind {
        ProjectWorkspaceKind::Cargo {
            cargo,
            build_scripts,
            ..
        } => cargo_roots(alloc, cargo, build_scripts, extra),
        ProjectWorkspaceKind::Json(project) => json_roots(alloc, project, extra),
        ProjectWorkspaceKind::DetachedFile { file, cargo } => {
            script_roots(alloc, file, cargo, extra)
        }
    }
}

impl ProjectWorkspace {
    /// The roots of the project in their order, and behind them that of the toolchain's sources, which has no
    /// directory where they are not known. A project of cargo has one for each package, a JSON project one for each crate,
    /// of equal ones the first alone, and a detached file one of its own before those of the project that it is read as.
    pub fn to_roots(&self, alloc: Global) -> Result<Items<PackageRoot>, WorkspaceError>
        requires { HasNoRustc self.now }
        ensures ok { IfOk result (λ roots. roots ≡ project_roots self.now) }
        ensures only_out_of_memory { IfErr result (λ error. error ≡ OutOfMemory) }
    {
        let extra = self.extra_includes.as_slice();
        let mut roots = kind_roots(alloc, &self.kind, extra)?.into_inner();
        push_sysroot_roots(alloc, &mut roots, &self.sysroot)?;
        Ok(Items::new(roots))
    }
}
