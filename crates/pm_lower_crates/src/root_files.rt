//! Which targets of a workspace become crates, and the file that each of these begins in, as a loader
//! says.

ghost use Rattle.std.specs.Prelude.{◌≡◌, map, option_map, IfOk};
ghost use Rattle.pm_lower_crates.specs.Gathering.{files_of};
ghost use Rattle.pm_lower_crates.specs.Rows.{live_target, may_be_row, root_file};

use crate::loader::Loader;
use crate::rows::is_lib;
use base_text_paths::{FileId, Items};
use pm_cargo::CargoWorkspace;
use pm_cargo_packages::{PackageData, Target, TargetData};
use std::alloc::{AllocError, Global};

// Whether a target becomes a crate where the file of its root is live.
#[tactic(auto, unfolding(crate::specs::Rows::may_be_row))]
fn may_be_row(workspace: &CargoWorkspace, of: &PackageData, target: &TargetData) -> bool
    ensures { result ≡ may_be_row workspace.now of.now target.now }
{
    is_lib(target.kind) || (of.is_member && !workspace.is_sysroot())
}

// The file that a target's crate begins in.
#[tactic(auto, unfolding(crate::specs::Rows::root_file))]
fn root_file<L: Loader>(
    alloc: Global,
    workspace: &CargoWorkspace,
    loader: &mut L,
    of: &PackageData,
    target: &TargetData,
) -> Result<Option<FileId>, AllocError>
    ensures file { IfOk result (λ file.
        file ≡ root_file (L.files loader.old) workspace.now of.now target.now) }
    ensures loader { L.files loader.new ≡ L.files loader.old }
{
    if !may_be_row(workspace, of, target) {
        return Ok(None);
    }
    loader.load(alloc, target.root.as_path())
}

// The file that the crate of a target's number begins in.
#[tactic(auto, unfolding(crate::specs::Rows::live_target))]
fn file_of_target<L: Loader>(
    alloc: Global,
    workspace: &CargoWorkspace,
    loader: &mut L,
    of: &PackageData,
    id: Target,
) -> Result<Option<FileId>, AllocError>
    ensures file { IfOk result (λ file. file
        ≡ option_map (λ t. t.1) (live_target (L.files loader.old) workspace.now of.now id)) }
    ensures loader { L.files loader.new ≡ L.files loader.old }
{
    if !workspace.has_target(id) {
        return Ok(None);
    }
    root_file(alloc, workspace, loader, of, &workspace[id])
}

// The files that the crates of a package's targets begin in, by target.
fn files_of_package<L: Loader>(
    alloc: Global,
    workspace: &CargoWorkspace,
    loader: &mut L,
    of: &PackageData,
) -> Result<Items<Option<FileId>>, AllocError>
    ensures files { IfOk result
        (λ files. files ≡ files_of (L.files loader.old) workspace.now of.now) }
    ensures loader { L.files loader.new ≡ L.files loader.old }
{
    let mut files = Vec::with_capacity(alloc, of.targets.len())?;
    for id in of.targets.as_slice() {
        files.push(file_of_target(alloc, workspace, loader, of, *id)?)?;
    }
    Ok(Items::new(files))
}

/// The files that the crates of all targets begin in, by package and target. A target that does not
/// become a crate has none.
pub(crate) fn root_files<L: Loader>(
    alloc: Global,
    workspace: &CargoWorkspace,
    loader: &mut L,
) -> Result<Vec<Items<Option<FileId>>>, AllocError>
    ensures files { IfOk result (λ files. files.items
        ≡ map (files_of (L.files loader.old) workspace.now) workspace.now.packages) }
    ensures loader { L.files loader.new ≡ L.files loader.old }
{
    let mut files = Vec::new(alloc);
    for id in workspace.packages() {
        files.push(files_of_package(alloc, workspace, loader, &workspace[id])?)?;
    }
    Ok(files)
}
