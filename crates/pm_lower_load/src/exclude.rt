//! The directories of a package that are left out.

ghost use Rattle.std.specs.Prelude.{◌≡◌, ◌∷◌, [], ◌++◌, IfOk, OnOk, map};
ghost use Rattle.base_text_paths.specs.AbsPath.{abs_text};
ghost use Rattle.base_text_paths.specs.ManifestPath.{directory_of};
ghost use Rattle.pm_lower_load.specs.Roots.{directory_below, excluded_names};

use base_text::{AbsPath, AbsPathBuf, Items};
use pm_cargo_packages::PackageData;
use std::alloc::{AllocError, Global};

// Puts the directory of a name below `dir` behind the others.
fn push_below(
    alloc: Global,
    found: &mut Vec<AbsPathBuf>,
    dir: AbsPath<'_>,
    name: &str,
) -> Result<(), AllocError>
    ensures { OnOk result (found.new.items
        ≡ found.old.items ++ directory_below (abs_text dir.entry) name.now ∷ []) }
{
    found.push(dir.join(alloc, name)?)?;
    Ok(())
}

/// The directories of a package that are left out.
pub(crate) fn excluded_directories(
    alloc: Global,
    package: &PackageData,
) -> Result<Items<AbsPathBuf>, AllocError>
    ensures { IfOk result (λ found. found
        ≡ map (directory_below (directory_of «package».now.manifest)) (excluded_names «package».now)) }
{
    let dir = package.manifest.parent();
    let mut found = Vec::new(alloc);
    push_below(alloc, &mut found, dir, ".git")?;
    if package.is_local {
        push_below(alloc, &mut found, dir, "target")?;
    }
    if !package.is_member {
        push_below(alloc, &mut found, dir, "tests")?;
        push_below(alloc, &mut found, dir, "examples")?;
        push_below(alloc, &mut found, dir, "benches")?;
    }
    Ok(Items::new(found))
}
