//! The directories that the files of a package are read from.

ghost use Rattle.std.specs.Prelude.{◌≡◌, ◌++◌, IfOk, OnOk};
ghost use Rattle.std.specs.Option.{option_map};
ghost use Rattle.base_text_paths.specs.AbsPath.{abs_text};
ghost use Rattle.pm_lower_load.specs.Roots as spec;
ghost use Rattle.pm_lower_load.specs.Roots.{outside_directories, outside_directory, target_directory};

use base_text::{AbsPath, AbsPathBuf, Items, TryClone, sort_all};
use pm_cargo::CargoWorkspace;
use pm_cargo_packages::{PackageData, Target};
use std::alloc::{AllocError, Global};

// Puts the directory of a file behind the others, where it is outside of `dir`.
fn push_outside(
    alloc: Global,
    found: &mut Vec<AbsPathBuf>,
    dir: AbsPath<'_>,
    file: AbsPath<'_>,
) -> Result<(), AllocError>
    ensures { OnOk result (found.new.items
        ≡ found.old.items ++ outside_directory (abs_text dir.entry) (abs_text file.entry)) }
{
    let Some(parent) = file.parent() else {
        return Ok(());
    };
    let parent = parent.normalize(alloc)?;
    if !parent.as_path().starts_with(dir) {
        found.push(parent)?;
    }
    Ok(())
}

// Puts the directory of a target's root behind the others, where it is outside of its package's.
fn push_target(
    alloc: Global,
    found: &mut Vec<AbsPathBuf>,
    workspace: &CargoWorkspace,
    package: &PackageData,
    target: Target,
) -> Result<(), AllocError>
    ensures { OnOk result (found.new.items
        ≡ found.old.items ++ target_directory workspace.now «package».now target) }
{
    if !workspace.has_target(target) {
        return Ok(());
    }
    let root = workspace[target].root.as_path();
    push_outside(alloc, found, package.manifest.parent(), root)
}

// Puts the directories of a package's targets that are outside of the package's behind the others.
fn push_targets(
    alloc: Global,
    found: &mut Vec<AbsPathBuf>,
    workspace: &CargoWorkspace,
    package: &PackageData,
) -> Result<(), AllocError>
    ensures { OnOk result (found.new.items
        ≡ found.old.items ++ outside_directories workspace.now «package».now) }
{
    for target in package.targets.as_slice() {
        push_target(alloc, found, workspace, package, *target)?;
    }
    Ok(())
}

// Puts copies of the paths behind the others.
fn push_copies(
    alloc: Global,
    found: &mut Vec<AbsPathBuf>,
    paths: &[AbsPathBuf],
) -> Result<(), AllocError>
    ensures { OnOk result (found.new.items ≡ found.old.items ++ paths.now) }
{
    for path in paths {
        found.push(path.try_clone(alloc)?)?;
    }
    Ok(())
}

/// The directories that the files of a package are read from, in no order.
pub(crate) fn read_directories(
    alloc: Global,
    workspace: &CargoWorkspace,
    package: &PackageData,
    out_dir: Option<AbsPath<'_>>,
    extra_includes: &[AbsPathBuf],
) -> Result<Vec<AbsPathBuf>, AllocError>
    ensures { IfOk result (λ found. found.items ≡ spec.read_directories workspace.now
        (option_map abs_text out_dir.entry) extra_includes.now «package».now) }
{
    let mut found = Vec::new(alloc);
    found.push(package.manifest.parent().to_path_buf(alloc)?)?;
    if let Some(dir) = out_dir {
        found.push(dir.to_path_buf(alloc)?)?;
    }
    push_targets(alloc, &mut found, workspace, package)?;
    if package.is_local {
        push_copies(alloc, &mut found, extra_includes)?;
    }
    Ok(found)
}

/// Paths in their order, each once.
pub(crate) fn ascending_paths(paths: Vec<AbsPathBuf>) -> Result<Items<AbsPathBuf>, AllocError>
    ensures { IfOk result (λ ascending. ascending ≡ spec.ascending_paths paths.items) }
{
    let mut paths = paths;
    sort_all(&mut paths)?;
    paths.dedup();
    Ok(Items::new(paths))
}
