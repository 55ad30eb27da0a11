//! What is known of a row's crate beside its root file and its dependencies.

ghost use Rattle.std.specs.Prelude.{◌≡◌, IfOk, string_bytes};
ghost use Rattle.semver.specs.Identifiers.{parts_text};
ghost use Rattle.base_text_paths.specs.Arena.{number_of};
ghost use Rattle.pm_lower_crates.specs.Columns.{cfgs_of, environment_of, lang_of, origin_of, working_directory};
ghost use Rattle.pm_lower_crates.specs.Facts.{facts_of};

use crate::facts::CrateFacts;
use base_text_paths::{AbsPathBuf, CfgOptions, Symbol, TryClone};
use crate_graph_values::{CrateOrigin, Env, LangCrateOrigin};
use pm_cargo::{BuildOutputs, CargoWorkspace};
use pm_cargo_packages::{Package, PackageData};
use std::alloc::{AllocError, Global};

/// The atoms that hold in the crates of a name.
#[tactic(auto, unfolding(crate::specs::Columns::cfgs_of))]
pub fn cfgs_of<O: BuildOutputs>(
    alloc: Global,
    facts: &CrateFacts<'_, O>,
    name: &str,
) -> Result<CfgOptions, AllocError>
    ensures { IfOk result (λ cfgs.
        cfgs ≡ cfgs_of (facts_of O.output_at O.is_failed facts.now) name.now) }
{
    let atoms = facts.atoms.try_clone(alloc)?;
    let mut cfgs = CfgOptions::of_atoms(atoms.into_inner());
    facts.overrides.apply(&mut cfgs, name)?;
    Ok(cfgs)
}

/// The variables of the crates of a package.
#[tactic(auto, unfolding(crate::specs::Columns::environment_of))]
pub(crate) fn environment_of<O: BuildOutputs>(
    alloc: Global,
    facts: &CrateFacts<'_, O>,
    id: Package,
) -> Result<Env, AllocError>
    ensures { IfOk result (λ env.
        env ≡ environment_of (facts_of O.output_at O.is_failed facts.now) (number_of id)) }
{
    match facts.outputs.output(id) {
        Some(output) => output.envs.try_clone(alloc),
        None => Ok(Env::new(alloc)),
    }
}

/// A package's version as it is written.
pub(crate) fn version_text(alloc: Global, package: &PackageData) -> Result<String, AllocError>
    ensures { IfOk result (λ text. string_bytes text ≡ parts_text «package».now.version) }
{
    format!(in alloc; "{}", package.version.as_version())
}

/// Where the crates of a package come from.
#[tactic(auto, unfolding(crate::specs::Columns::origin_of))]
pub(crate) fn origin_of<O: BuildOutputs>(
    alloc: Global,
    facts: &CrateFacts<'_, O>,
    package: &PackageData,
) -> Result<CrateOrigin, AllocError>
    ensures { IfOk result (λ origin.
        origin ≡ origin_of (facts_of O.output_at O.is_failed facts.now) «package».now) }
{
    if facts.in_sysroot {
        return Ok(CrateOrigin::Lang(lang_of(package)));
    }
    let repo = package.repository.try_clone(alloc)?;
    let name = Symbol::of_str(alloc, package.name.as_str())?;
    if package.is_local {
        let name = Some(name);
        Ok(CrateOrigin::Local { repo, name })
    } else {
        Ok(CrateOrigin::Library { repo, name })
    }
}

// Which crate of the language a package of a sysroot is.
fn lang_of(package: &PackageData) -> LangCrateOrigin
    ensures { result ≡ lang_of «package».now }
{
    if package.is_local {
        LangCrateOrigin::from_text(package.name.as_str())
    } else {
        LangCrateOrigin::Dependency
    }
}

/// The directory that a package's crates run in.
#[tactic(auto, unfolding(crate::specs::Columns::working_directory))]
pub(crate) fn working_directory(
    alloc: Global,
    workspace: &CargoWorkspace,
    package: &PackageData,
) -> Result<AbsPathBuf, AllocError>
    ensures { IfOk result (λ path. path ≡ working_directory workspace.now «package».now) }
{
    if package.is_member {
        workspace.workspace_root().to_path_buf(alloc)
    } else {
        package.manifest.parent().to_path_buf(alloc)
    }
}
