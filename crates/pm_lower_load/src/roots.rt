//! The roots of a Cargo workspace, one for each package.

ghost use Rattle.std.specs.Prelude.{◌≡◌, IfOk};
ghost use Rattle.std.specs.Option.{option_map};
ghost use Rattle.base_text_paths.specs.AbsPath.{abs_text};
ghost use Rattle.pm_lower_load.specs.Roots.{out_dir_in, package_root, roots_of};

use crate::exclude::excluded_directories;
use crate::include::{ascending_paths, read_directories};
use crate::out_dirs::out_dir_of;
use crate::package_root::PackageRoot;
use base_text::{AbsPath, AbsPathBuf, Items};
use pm_cargo::{BuildOutputs, CargoWorkspace};
use pm_cargo_packages::PackageData;
use std::alloc::{AllocError, Global};

/// The root of a package of the workspace. `out_dir` is the directory that its build wrote into, and
/// the extra directories are read with each local package.
pub fn root_of_package(
    alloc: Global,
    workspace: &CargoWorkspace,
    package: &PackageData,
    out_dir: Option<AbsPath<'_>>,
    extra_includes: &[AbsPathBuf],
) -> Result<PackageRoot, AllocError>
    ensures { IfOk result (λ root. root ≡ package_root workspace.now
        (option_map abs_text out_dir.entry) extra_includes.now «package».now) }
{
    let include = read_directories(alloc, workspace, package, out_dir, extra_includes)?;
    Ok(PackageRoot {
        is_local: package.is_local,
        include: ascending_paths(include)?,
        exclude: excluded_directories(alloc, package)?,
    })
}

/// The roots of the workspace's packages, in their order, by what a build gave the packages.
pub fn cargo_roots<O: BuildOutputs>(
    alloc: Global,
    workspace: &CargoWorkspace,
    outputs: &O,
    extra_includes: &[AbsPathBuf],
) -> Result<Items<PackageRoot>, AllocError>
    ensures { IfOk result (λ roots. roots ≡ roots_of workspace.now
        (out_dir_in (O.output_at outputs.now)) extra_includes.now) }
{
    let mut roots = Vec::new(alloc);
    for id in workspace.packages() {
        let package = &workspace[id];
        let out_dir = out_dir_of(outputs, id);
        roots.push(root_of_package(alloc, workspace, package, out_dir, extra_includes)?)?;
    }
    Ok(Items::new(roots))
}
