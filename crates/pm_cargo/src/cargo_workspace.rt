//! A Cargo workspace: the packages of a document of `cargo metadata` with their targets, each under
//! its number, and the directories that it builds in.

ghost use Rattle.std.specs.Prelude.{◌≡◌, ◌↔◌, ◌<◌, IfOk, IsTrue, length, option_map, slice_get, Some, ◌≤◌, IfErr};
ghost use Rattle.std.specs.List.{range_with_len};
ghost use Rattle.base_text_paths.specs.AbsPath.{abs_text};
ghost use Rattle.base_text_paths.specs.Arena.{number_of};
ghost use Rattle.pm_cargo.specs.ReadWorkspace.{directories_of, read_workspace};
ghost use Rattle.pm_cargo_reading.specs.Links.{linked_contents};
ghost use Rattle.pm_cargo_reading.specs.Nodes.{nodes_of};
ghost use Rattle.pm_cargo_reading.specs.Presence.{HoldsItsIds};
ghost use Rattle.pm_cargo_reading.specs.Reading.{Gives, NamesMetadataLimit};
ghost use Rattle.pm_cargo.specs.Workspace.{HasOwnIds};

use crate::package_iter::PackageIter;
use base_text_paths::{AbsPath, AbsPathBuf, Items, Limits, ManifestPath, TryClone};
use cargo_meta::Metadata;
use crate_graph_values::Env;
use pm_cargo_members::with_all_member_deps;
use pm_cargo_packages::{Package, PackageData, Target, TargetData};
use pm_cargo_reading::{Contents, WorkspaceError, absolute_path, linked_contents, optional_path};
use std::alloc::{AllocError, Global};
use std::marker::Model;
use std::ops::Index;

/// The packages of a workspace and what they depend on.
#[derive(PartialEq, Eq, Drop)]
pub struct CargoWorkspace {
    packages: Items<PackageData>,
    targets: Items<TargetData>,
    workspace_root: AbsPathBuf,
    target_directory: AbsPathBuf,
    build_directory: Option<AbsPathBuf>,
    manifest_path: ManifestPath,
    env: Env,
    is_sysroot: bool,
}

/// Contracts see a workspace as plain data, in which every id is that of a package or a target.
impl Model for CargoWorkspace {
    ghost use Rattle.pm_cargo.specs.Workspace as seen;

    ghost Value = { seen.Workspace };

    ghost view = { λ a. record {
      packages = a.packages;
      targets = a.targets;
      workspace_root = a.workspace_root;
      target_directory = a.target_directory;
      build_directory = a.build_directory;
      manifest_path = a.manifest_path;
      env = a.env;
      is_sysroot = a.is_sysroot;
    } };

    ghost inverse = { λ w. record {
      packages = w.packages;
      targets = w.targets;
      workspace_root = w.workspace_root;
      target_directory = w.target_directory;
      build_directory = w.build_directory;
      manifest_path = w.manifest_path;
      env = w.env;
      is_sysroot = w.is_sysroot;
    } };

    ghost invariant = { λ a. seen.HasOwnIds (record {
      packages = a.packages;
      targets = a.targets;
      workspace_root = a.workspace_root;
      target_directory = a.target_directory;
      build_directory = a.build_directory;
      manifest_path = a.manifest_path;
      env = a.env;
      is_sysroot = a.is_sysroot;
    }) };
}

// The directories that a workspace is read with.
#[derive(Drop)]
struct Directories {
    workspace_root: AbsPathBuf,
    target_directory: AbsPathBuf,
    build_directory: Option<AbsPathBuf>,
}

// The directories of a document.
#[tactic(auto, unfolding(crate::specs::ReadWorkspace::directories_of))]
fn directories_of(alloc: Global, meta: &Metadata) -> Result<Directories, WorkspaceError>
    ensures { Gives result (directories_of meta.now) }
{
    let workspace_root = absolute_path(alloc, meta.workspace_root.as_str())?;
    let target_directory = absolute_path(alloc, meta.target_directory.as_str())?;
    let build_directory = optional_path(alloc, &meta.build_directory)?;
    Ok(Directories {
        workspace_root,
        target_directory,
        build_directory,
    })
}

// The packages and targets of a document.
fn contents_of(alloc: Global, meta: Metadata, limits: &Limits) -> Result<Contents, WorkspaceError>
    ensures exact { Gives result (linked_contents meta.workspace_members limits.now meta.packages
        (nodes_of meta.resolve)) }
    ensures present { IfOk result HoldsItsIds }
{
    let members = meta.workspace_members;
    linked_contents(alloc, members, limits, meta.packages, meta.resolve)
}

impl CargoWorkspace {
    /// The workspace of a document, or the first refusal in the order in which it is checked, which names no other limit than
    /// those of packages and of targets.
    pub fn new(
        alloc: Global,
        meta: Metadata,
        ws_manifest_path: ManifestPath,
        cargo_env: Env,
        is_sysroot: bool,
        limits: &Limits,
    ) -> Result<CargoWorkspace, WorkspaceError>
        ensures workspace { Gives result
            (read_workspace meta ws_manifest_path cargo_env is_sysroot limits.now) }
        ensures limits { IfErr result NamesMetadataLimit }
        ensures few { IfOk result (λ w. length w.packages ≤ limits.now.packages) }
    {
        let directories = directories_of(alloc, &meta)?;
        let contents = contents_of(alloc, meta, limits)?;
        Ok(CargoWorkspace {
            packages: with_all_member_deps(alloc, contents.packages)?,
            targets: contents.targets,
            workspace_root: directories.workspace_root,
            target_directory: directories.target_directory,
            build_directory: directories.build_directory,
            manifest_path: ws_manifest_path,
            env: cargo_env,
            is_sysroot,
        })
    }

    /// The numbers of the packages, in the order of the packages' ids.
    pub fn packages(&self) -> PackageIter<'_>
        ensures { result ≡ range_with_len 0 (length self.now.packages) }
    {
        PackageIter::new(self.packages.as_slice())
    }

    /// Whether the workspace has a package of that number.
    pub fn has_package(&self, id: Package) -> bool
        ensures present { IsTrue result ↔ (number_of id < length self.now.packages) }
        ensures ids { HasOwnIds self.now }
    {
        (id.into_raw() as usize) < self.packages.len()
    }

    /// Whether the workspace has a target of that number.
    pub fn has_target(&self, id: Target) -> bool
        ensures present { IsTrue result ↔ (number_of id < length self.now.targets) }
        ensures ids { HasOwnIds self.now }
    {
        (id.into_raw() as usize) < self.targets.len()
    }

    pub fn workspace_root(&self) -> AbsPath<'_>
        ensures { abs_text result ≡ self.now.workspace_root }
    {
        self.workspace_root.as_path()
    }

    /// The manifest that the workspace was read with.
    pub fn manifest_path(&self) -> &ManifestPath
        ensures { result.now ≡ self.now.manifest_path }
    {
        &self.manifest_path
    }

    pub fn target_directory(&self) -> AbsPath<'_>
        ensures { abs_text result ≡ self.now.target_directory }
    {
        self.target_directory.as_path()
    }

    pub fn build_directory(&self) -> Option<AbsPath<'_>>
        ensures { option_map abs_text result ≡ self.now.build_directory }
    {
        match &self.build_directory {
            Some(directory) => Some(directory.as_path()),
            None => None,
        }
    }

    /// The environment that the workspace was read with.
    pub fn env(&self) -> &Env
        ensures { result.now ≡ self.now.env }
    {
        &self.env
    }

    /// Whether this is the workspace of the standard library.
    pub fn is_sysroot(&self) -> bool
        ensures { result ≡ self.now.is_sysroot }
    {
        self.is_sysroot
    }

    // The packages in their order.
    pub(crate) fn package_data(&self) -> &[PackageData]
        ensures { result.now ≡ self.now.packages }
    {
        self.packages.as_slice()
    }

    // The targets in their order.
    pub(crate) fn target_data(&self) -> &[TargetData]
        ensures { result.now ≡ self.now.targets }
    {
        self.targets.as_slice()
    }
}

impl Index<Package> for CargoWorkspace {
    type Output = PackageData;

    ghost can_index = { λ w id. number_of id < length w.packages };

    ghost index_gives = { λ w id found. slice_get w.packages (number_of id) ≡ Some found };

    fn index(&self, id: Package) -> &PackageData {
        &self.packages.as_slice()[id.into_raw() as usize]
    }
}

impl Index<Target> for CargoWorkspace {
    type Output = TargetData;

    ghost can_index = { λ w id. number_of id < length w.targets };

    ghost index_gives = { λ w id found. slice_get w.targets (number_of id) ≡ Some found };

    fn index(&self, id: Target) -> &TargetData {
        &self.targets.as_slice()[id.into_raw() as usize]
    }
}

impl TryClone for CargoWorkspace {
    fn try_clone(&self, alloc: Global) -> Result<Self, AllocError> {
        Ok(CargoWorkspace {
            workspace_root: self.workspace_root.try_clone(alloc)?,
            target_directory: self.target_directory.try_clone(alloc)?,
            build_directory: self.build_directory.try_clone(alloc)?,
            manifest_path: self.manifest_path.try_clone(alloc)?,
            env: self.env.try_clone(alloc)?,
            is_sysroot: self.is_sysroot,
            targets: self.targets.try_clone(alloc)?,
            packages: self.packages.try_clone(alloc)?,
        })
    }
}
