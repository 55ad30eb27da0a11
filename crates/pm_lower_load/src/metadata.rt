//! The metadata of a workspace, and what stands beside it.

ghost use Rattle.std.specs.Prelude.{◌≡◌, IfOk, IsErrOf, codes, option_copied};
ghost use Rattle.std.specs.Option.{option_map};
ghost use Rattle.cargo_meta_values.specs.Errors.{metadata_error_text};
ghost use Rattle.pm_cargo_fetch.specs.Fetch.{AnswersFetch};
ghost use Rattle.pm_cargo_fetch.specs.Lines.{TakesLines};
ghost use Rattle.pm_lower_load.specs.Metadata as spec;
ghost use Rattle.pm_lower_load.specs.Metadata.{fetched_as, fetched_lines, metadata_answer, metadata_lines};
ghost use Rattle.pm_tools_ask.specs.Ask.{means_of};

use crate::tool_answers::ToolAnswers;
use base_text::{AbsPath, ManifestPath, Progress, Runner, Text, ToolRoot, Tree, TryClone};
use cargo_meta::Metadata;
use cargo_meta_values::Error as MetadataError;
use crate_graph_values::Env;
use pm_cargo_config::{CargoConfig, CargoMetadataConfig};
use pm_cargo_fetch::FetchMetadata;
use pm_tools_ask::{Ask, CargoConfigFile, Sysroot, cargo_config_env};
use std::alloc::{AllocError, Global};

// How metadata is asked for.
fn metadata_config(
    alloc: Global,
    config: &CargoConfig,
    answers: &ToolAnswers,
) -> Result<CargoMetadataConfig, AllocError>
    ensures asked { IfOk result (λ asked. asked
        ≡ record (spec.metadata_config config.now answers.now) { kind = asked.kind }) }
    ensures kind { IfOk result (λ asked. asked.kind.now ≡ codes "workspace") }
{
    Ok(CargoMetadataConfig {
        features: config.features.try_clone(alloc)?,
        targets: answers.targets.try_clone(alloc)?,
        extra_args: config.extra_args.try_clone(alloc)?,
        metadata_extra_args: config.metadata_extra_args.try_clone(alloc)?,
        config_path: config.config_path.try_clone(alloc)?,
        extra_env: config.extra_env.try_clone(alloc)?,
        kind: "workspace",
        toolchain_version: answers.toolchain.try_clone(alloc)?,
    })
}

/// What metadata is fetched of, and how.
#[derive_where(Clone, Copy)]
pub struct Fetching<'a> {
    pub manifest: &'a ManifestPath,
    /// Where it is asked for.
    pub dir: AbsPath<'a>,
    /// With which features, platforms, words and variables.
    pub asked: &'a CargoMetadataConfig,
    /// Whether it is that of the members alone.
    pub no_deps: bool,
    /// Whether the lockfile stays as it is.
    pub locked: bool,
}

/// The metadata of a manifest's workspace by the tools of a toolchain, and beside it the error of the full
/// question where the light answer stands in for it.
pub fn fetch_as<R: Runner, P: Progress>(
    alloc: Global,
    fetching: Fetching<'_>,
    root: &ToolRoot,
    runner: &R,
    progress: &mut P,
) -> Result<(Metadata, Option<MetadataError>), MetadataError>
    ensures answer { AnswersFetch result (fetched_as fetching.entry root.now (R.answers runner.now)) }
    ensures lines { TakesLines (IsErrOf result MetadataError.OutOfMemory)
        (P.lines progress.old) (P.lines progress.new)
        (fetched_lines fetching.entry root.now (R.answers runner.now)) }
{
    let Fetching {
        manifest,
        dir,
        asked,
        no_deps,
        locked,
    } = fetching;
    let fetch = FetchMetadata::new(alloc, manifest, dir, asked, root, no_deps, runner)?;
    fetch.exec(alloc, locked, runner, progress)
}

/// The metadata of a project's workspace, asked for in the directory of its manifest, and beside it the error of
/// the full question where the light answer stands in for it. The lockfile may change. `progress` takes the
/// lines of [`exec`](FetchMetadata::exec).
#[tactic(auto, unfolding(crate::specs::Metadata::metadata_answer))]
pub fn fetch<R: Runner, T: Tree, P: Progress>(
    alloc: Global,
    sysroot: &Sysroot,
    manifest: &ManifestPath,
    config: &CargoConfig,
    answers: &ToolAnswers,
    ask: &Ask<'_, R, T>,
    progress: &mut P,
) -> Result<(Metadata, Option<MetadataError>), MetadataError>
    ensures answer { AnswersFetch result (metadata_answer sysroot.now manifest.now config.now answers.now
        (means_of R.answers T.files ask.now)) }
    ensures lines { TakesLines (IsErrOf result MetadataError.OutOfMemory)
        (P.lines progress.old) (P.lines progress.new)
        (metadata_lines sysroot.now manifest.now config.now answers.now
        (means_of R.answers T.files ask.now)) }
{
    let asked = metadata_config(alloc, config, answers)?;
    let root = sysroot.tool_root(alloc, ask)?;
    let fetching = Fetching {
        manifest,
        dir: manifest.parent(),
        asked: &asked,
        no_deps: config.no_deps,
        locked: false,
    };
    fetch_as(alloc, fetching, &root, ask.runner, progress)
}

// The environment of the workspace: that of the printed configuration, and then what is configured.
#[tactic(auto, unfolding(crate::specs::Metadata::environment))]
fn environment<R: Runner, T: Tree>(
    alloc: Global,
    file: Option<&CargoConfigFile>,
    config: &CargoConfig,
    ask: &Ask<'_, R, T>,
) -> Result<Env, AllocError>
    ensures { IfOk result (λ env. env ≡ spec.environment (option_copied file.entry) config.now
        (means_of R.answers T.files ask.now)) }
{
    let mut env = cargo_config_env(alloc, file, ask)?;
    for (name, value) in config.extra_env.as_map() {
        if let Some(value) = value {
            env.set(name.clone()?, value.try_clone(alloc)?.into_inner())?;
        }
    }
    Ok(env)
}

/// The printed error, if there is one.
pub fn error_text(alloc: Global, error: Option<MetadataError>) -> Result<Option<Text>, AllocError>
    ensures { IfOk result (λ text. text ≡ option_map metadata_error_text error) }
{
    match error {
        Some(error) => Ok(Some(Text::new(error.to_string(alloc)?))),
        None => Ok(None),
    }
}

/// The environment of a workspace, and the printed error beside its metadata.
pub fn beside_metadata<R: Runner, T: Tree>(
    alloc: Global,
    file: Option<&CargoConfigFile>,
    config: &CargoConfig,
    error: Option<MetadataError>,
    ask: &Ask<'_, R, T>,
) -> Result<(Env, Option<Text>), AllocError>
    ensures env { IfOk result (λ made. made.0 ≡ spec.environment (option_copied file.entry)
        config.now (means_of R.answers T.files ask.now)) }
    ensures error { IfOk result (λ made. made.1 ≡ option_map metadata_error_text error) }
{
    let error = error_text(alloc, error)?;
    Ok((environment(alloc, file, config, ask)?, error))
}
