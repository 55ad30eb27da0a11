//! The roots of a detached file.

ghost use Rattle.std.specs.Prelude.{◌≡◌, IfOk};
ghost use Rattle.std.specs.Option.{option_copied};
ghost use Rattle.pm_lower_load.specs.DetachedRoots.{detached_root, detached_roots};
ghost use Rattle.pm_lower_load.specs.Roots.{out_dir_in};

use crate::package_root::PackageRoot;
use crate::roots::cargo_roots;
use base_text::{AbsPathBuf, Items, ManifestPath};
use pm_cargo::{BuildOutputs, CargoWorkspace};
use std::alloc::{AllocError, Global};

// The root of the file itself.
fn root_of(alloc: Global, file: &ManifestPath) -> Result<PackageRoot, AllocError>
    ensures { IfOk result (λ root. root ≡ detached_root file.now) }
{
    let mut include = Vec::with_capacity(alloc, 1)?;
    include.push(file.as_path().to_path_buf(alloc)?)?;
    Ok(PackageRoot {
        is_local: true,
        include: Items::new(include),
        exclude: Items::empty(alloc),
    })
}

/// The roots of a file: the file itself, and behind it those of the project that Cargo reads it as. What a
/// build gave its packages and the extra directories are those of `cargo_roots`.
pub fn detached_roots<O: BuildOutputs>(
    alloc: Global,
    file: &ManifestPath,
    cargo: Option<&CargoWorkspace>,
    outputs: &O,
    extra_includes: &[AbsPathBuf],
) -> Result<Items<PackageRoot>, AllocError>
    ensures { IfOk result (λ roots. roots ≡ detached_roots file.now (option_copied cargo.entry)
        (out_dir_in (O.output_at outputs.now)) extra_includes.now) }
{
    let mut roots = Vec::new(alloc);
    roots.push(root_of(alloc, file)?)?;
    if let Some(cargo) = cargo {
        let mut others = cargo_roots(alloc, cargo, outputs, extra_includes)?.into_inner();
        roots.append(&mut others)?;
    }
    Ok(Items::new(roots))
}
