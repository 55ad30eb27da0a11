//! Loading a detached file: what the tools say of it, and the project that cargo reads it as, where it does.

ghost use Rattle.std.specs.Prelude.{◌≡◌, IfOk, option_copied};
ghost use Rattle.std.specs.Option.{option_map};
ghost use Rattle.cargo_meta_values.specs.Errors.{metadata_error_text};
ghost use Rattle.pm_lower_load.specs.Metadata.{metadata_answer};
ghost use Rattle.pm_lower.specs.DetachedProject as spec;
ghost use Rattle.pm_lower.specs.DetachedProject.{metadata_or_none, script_with};
ghost use Rattle.pm_cargo_reading.specs.Reading.{Gives};
ghost use Rattle.pm_tools_ask.specs.Ask.{means_of};
ghost use Rattle.pm_tools_ask.specs.ConfigEnv.{config_env};

use crate::cargo_project::{Settings, project_of, settings_of};
use crate::project_workspace::{ProjectWorkspace, ProjectWorkspaceKind, ScriptWorkspace};
use base_text::{Limits, ManifestPath, Quiet, Runner, Text, Tree, TryClone};
use cargo_meta::Metadata;
use cargo_meta_values::Error as MetadataError;
use crate_graph_values::Env;
use pm_cargo::CargoWorkspace;
use pm_cargo_config::CargoConfig;
use pm_cargo_reading::WorkspaceError;
use pm_lower_load::metadata::{error_text, fetch};
use pm_lower_load::tool_answers::{PlatformAsked, ToolAnswers, ask_tools};
use pm_tools::WorkspaceBuildScripts;
use pm_tools_ask::{Ask, CargoConfigFile, Sysroot, cargo_config_env};
use std::alloc::{AllocError, Global};

// The metadata of a file, if there is any: most files hold no manifest.
#[tactic(auto, using(crate::proofs::DetachedLemmas::none_fetched))]
fn fetch_script<R: Runner, T: Tree>(
    alloc: Global,
    sysroot: &Sysroot,
    file: &ManifestPath,
    config: &CargoConfig,
    answers: &ToolAnswers,
    ask: &Ask<'_, R, T>,
) -> Result<Option<(Metadata, Option<MetadataError>)>, AllocError>
    ensures { IfOk result (λ found. found ≡ metadata_or_none (metadata_answer sysroot.now file.now config.now
        answers.now (means_of R.answers T.files ask.now))) }
{
    match fetch(alloc, sysroot, file, config, answers, ask, &mut Quiet) {
        Ok(metadata) => Ok(Some(metadata)),
        Err(MetadataError::OutOfMemory) => Err(AllocError),
        Err(_) => Ok(None),
    }
}

// The environment of a file's workspace, and the printed error beside its metadata.
fn beside_script<R: Runner, T: Tree>(
    alloc: Global,
    printed_config: Option<&CargoConfigFile>,
    error: Option<MetadataError>,
    ask: &Ask<'_, R, T>,
) -> Result<(Env, Option<Text>), AllocError>
    ensures env { IfOk result (λ made. made.0
        ≡ config_env (option_copied printed_config.entry) (means_of R.answers T.files ask.now)) }
    ensures error { IfOk result (λ made. made.1 ≡ option_map metadata_error_text error) }
{
    let error = error_text(alloc, error)?;
    Ok((cargo_config_env(alloc, printed_config, ask)?, error))
}

// The project that cargo reads a file as, where there is metadata. Nothing is built yet.
fn script_with<R: Runner, T: Tree>(
    alloc: Global,
    file: ManifestPath,
    answers: &ToolAnswers,
    limits: &Limits,
    metadata: Option<(Metadata, Option<MetadataError>)>,
    ask: &Ask<'_, R, T>,
) -> Result<Option<ScriptWorkspace>, WorkspaceError>
    ensures { Gives result (script_with file answers.now.config_file limits.now
        (means_of R.answers T.files ask.now) metadata) }
{
    let Some((metadata, error)) = metadata else {
        return Ok(None);
    };
    let (env, error) = beside_script(alloc, answers.config_file.as_ref(), error, ask)?;
    let cargo = CargoWorkspace::new(alloc, metadata, file, env, false, limits)?;
    Ok(Some((cargo, WorkspaceBuildScripts::new(alloc), error)))
}

// What is read of a file as a kind of project.
fn detached_kind<R: Runner, T: Tree>(
    alloc: Global,
    sysroot: &Sysroot,
    file: &ManifestPath,
    config: &CargoConfig,
    answers: &ToolAnswers,
    limits: &Limits,
    ask: &Ask<'_, R, T>,
) -> Result<ProjectWorkspaceKind, WorkspaceError>
    ensures { Gives result (spec.detached_kind file.now answers.now.config_file limits.now
        (means_of R.answers T.files ask.now) (metadata_or_none (metadata_answer sysroot.now file.now
        config.now answers.now (means_of R.answers T.files ask.now)))) }
{
    let copy = file.try_clone(alloc)?;
    let script = file.try_clone(alloc)?;
    let metadata = fetch_script(alloc, sysroot, file, config, answers, ask)?;
    let cargo = script_with(alloc, script, answers, limits, metadata, ask)?;
    Ok(ProjectWorkspaceKind::DetachedFile { file: copy, cargo })
}

// The project of a file, with what the tools say of it.
fn detached_with<R: Runner, T: Tree>(
    alloc: Global,
    sysroot: Sysroot,
    file: &ManifestPath,
    config: &CargoConfig,
    settings: Settings,
    answers: ToolAnswers,
    limits: &Limits,
    ask: &Ask<'_, R, T>,
) -> Result<ProjectWorkspace, WorkspaceError>
    requires { settings ≡ record {
      cfg_overrides = config.now.cfg_overrides;
      extra_includes = config.now.extra_includes;
      set_test = config.now.set_test;
    } }
    ensures { Gives result (spec.detached_with sysroot file.now config.now answers limits.now
        (means_of R.answers T.files ask.now) (metadata_or_none (metadata_answer sysroot file.now
        config.now answers (means_of R.answers T.files ask.now)))) }
{
    let kind = detached_kind(alloc, &sysroot, file, config, &answers, limits, ask)?;
    Ok(project_of(sysroot, settings, answers, kind))
}

/// The project of a file. That there is no metadata of it is no refusal.
#[tactic(auto, unfolding(crate::specs::DetachedProject::detached_project))]
pub(crate) fn detached_project<R: Runner, T: Tree>(
    alloc: Global,
    sysroot: Sysroot,
    file: &ManifestPath,
    config: &CargoConfig,
    limits: &Limits,
    ask: &Ask<'_, R, T>,
) -> Result<ProjectWorkspace, WorkspaceError>
    ensures { Gives result (spec.detached_project sysroot file.now config.now limits.now
        (means_of R.answers T.files ask.now)) }
{
    let settings = settings_of(alloc, config)?;
    let platform = PlatformAsked::NoTarget;
    let answers = ask_tools(alloc, &sysroot, file, platform, config, ask)?;
    detached_with(alloc, sysroot, file, config, settings, answers, limits, ask)
}
