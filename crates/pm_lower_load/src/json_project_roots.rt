//! The roots of a JSON project, of equal ones the first alone.

ghost use Rattle.std.specs.Prelude.{◌≡◌, ◌++◌, IfOk};
ghost use Rattle.pm_lower_load.specs.JsonRoots.{json_crate_root, json_roots};

use crate::package_root::PackageRoot;
use base_text::{AbsPathBuf, Items, TryClone};
use indexmap::IndexSet;
use pm_json::{Crate, ProjectJson};
use std::alloc::{AllocError, Global};

// The directories of a crate and the extra ones behind them.
fn includes_of(
    alloc: Global,
    krate: &Crate,
    extra_includes: &[AbsPathBuf],
) -> Result<Items<AbsPathBuf>, AllocError>
    ensures { IfOk result (λ paths. paths ≡ krate.now.include ++ extra_includes.now) }
{
    let mut paths = krate.include.try_clone(alloc)?.into_inner();
    for path in extra_includes {
        paths.push(path.try_clone(alloc)?)?;
    }
    Ok(Items::new(paths))
}

/// The root of a crate of a project. The extra directories are read with each crate.
pub fn root_of_crate(
    alloc: Global,
    krate: &Crate,
    extra_includes: &[AbsPathBuf],
) -> Result<PackageRoot, AllocError>
    ensures { IfOk result (λ root. root ≡ json_crate_root extra_includes.now krate.now) }
{
    Ok(PackageRoot {
        is_local: krate.is_workspace_member,
        include: includes_of(alloc, krate, extra_includes)?,
        exclude: krate.exclude.try_clone(alloc)?,
    })
}

/// The roots of a project's crates: those of the first crates first, and of equal ones the first alone.
pub fn json_roots(
    alloc: Global,
    project: &ProjectJson,
    extra_includes: &[AbsPathBuf],
) -> Result<Items<PackageRoot>, AllocError>
    ensures { IfOk result (λ roots. roots ≡ json_roots project.now extra_includes.now) }
{
    let mut roots = IndexSet::new(alloc);
    for krate in project.crates.as_slice() {
        roots.insert(root_of_crate(alloc, krate, extra_includes)?)?;
    }
    Ok(Items::new(roots.into_iter().collect(alloc)?))
}
