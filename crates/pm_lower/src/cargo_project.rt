//! Loading a project of cargo: what is asked, and in which order.

ghost use Rattle.std.specs.Prelude.{◌≡◌, IfOk, IsErrOf};
ghost use Rattle.pm_cargo_fetch.specs.Lines.{TakesLines};
ghost use Rattle.pm_lower_load.specs.Loading.{Gives};
ghost use Rattle.pm_lower_load.specs.Metadata.{metadata_lines};
ghost use Rattle.pm_lower_load.specs.ToolAnswers.{tool_answers};
ghost use Rattle.pm_lower_load.specs.declared.tool_answers.PlatformAsked.TheVariants.{FirstTarget};
ghost use Rattle.pm_lower.specs.Lines.{cargo_lines};
ghost use Rattle.pm_lower.specs.Project as spec;
ghost use Rattle.pm_tools_ask.specs.Ask.{means_of};

use crate::project_workspace::{ProjectWorkspace, ProjectWorkspaceKind};
use base_text::{AbsPathBuf, Items, Limits, ManifestPath, Progress, Runner, Tree, TryClone};
use cargo_meta::Metadata;
use cargo_meta_values::Error as MetadataError;
use pm_cargo::CargoWorkspace;
use pm_cargo_config::{CargoConfig, CfgOverrides};
use pm_lower_load::LoadError;
use pm_lower_load::located::located_manifest;
use pm_lower_load::metadata::{beside_metadata, fetch};
use pm_lower_load::tool_answers::{PlatformAsked, ToolAnswers, ask_tools};
use pm_tools::WorkspaceBuildScripts;
use pm_tools_ask::{Ask, Sysroot};
use std::alloc::{AllocError, Global};

/// What a project keeps of its configuration.
#[derive(Drop)]
pub(crate) struct Settings {
    cfg_overrides: CfgOverrides,
    extra_includes: Items<AbsPathBuf>,
    set_test: bool,
}

pub(crate) fn settings_of(alloc: Global, config: &CargoConfig) -> Result<Settings, AllocError>
    ensures { IfOk result (λ settings. settings ≡ record {
      cfg_overrides = config.now.cfg_overrides;
      extra_includes = config.now.extra_includes;
      set_test = config.now.set_test;
    }) }
{
    Ok(Settings {
        cfg_overrides: config.cfg_overrides.try_clone(alloc)?,
        extra_includes: config.extra_includes.try_clone(alloc)?,
        set_test: config.set_test,
    })
}

// The workspace of metadata, as a kind of project. Nothing is built yet.
#[tactic(auto, unfolding(crate::specs::Project::kind_with))]
fn kind_with<R: Runner, T: Tree>(
    alloc: Global,
    manifest: ManifestPath,
    config: &CargoConfig,
    answers: &ToolAnswers,
    limits: &Limits,
    fetched: (Metadata, Option<MetadataError>),
    ask: &Ask<'_, R, T>,
) -> Result<ProjectWorkspaceKind, LoadError>
    ensures { Gives result (spec.kind_with manifest config.now answers.now limits.now
        (means_of R.answers T.files ask.now) fetched) }
{
    let (metadata, error) = fetched;
    let (env, error) = beside_metadata(alloc, answers.config_file.as_ref(), config, error, ask)?;
    let cargo = CargoWorkspace::new(alloc, metadata, manifest, env, false, limits)?;
    Ok(ProjectWorkspaceKind::Cargo {
        cargo,
        error,
        build_scripts: WorkspaceBuildScripts::new(alloc),
        rustc: Err(None),
    })
}

/// The project of a kind, with what the tools say.
pub(crate) fn project_of(
    sysroot: Sysroot,
    settings: Settings,
    answers: ToolAnswers,
    kind: ProjectWorkspaceKind,
) -> ProjectWorkspace
    ensures { result ≡ record {
      kind = kind;
      sysroot = sysroot;
      rustc_cfg = answers.rustc_cfg;
      toolchain = answers.toolchain;
      target = answers.target;
      cfg_overrides = settings.cfg_overrides;
      extra_includes = settings.extra_includes;
      set_test = settings.set_test;
    } }
{
    ProjectWorkspace {
        kind,
        sysroot,
        rustc_cfg: answers.rustc_cfg,
        toolchain: answers.toolchain,
        target: answers.target,
        cfg_overrides: settings.cfg_overrides,
        extra_includes: settings.extra_includes,
        set_test: settings.set_test,
    }
}

// The project of metadata.
#[tactic(auto, unfolding(crate::specs::Project::project_with))]
fn project_with<R: Runner, T: Tree>(
    alloc: Global,
    sysroot: Sysroot,
    manifest: ManifestPath,
    config: &CargoConfig,
    settings: Settings,
    answers: ToolAnswers,
    limits: &Limits,
    fetched: (Metadata, Option<MetadataError>),
    ask: &Ask<'_, R, T>,
) -> Result<ProjectWorkspace, LoadError>
    requires { settings ≡ record {
      cfg_overrides = config.now.cfg_overrides;
      extra_includes = config.now.extra_includes;
      set_test = config.now.set_test;
    } }
    ensures { Gives result (spec.project_with sysroot manifest config.now answers limits.now
        (means_of R.answers T.files ask.now) fetched) }
{
    let kind = kind_with(alloc, manifest, config, &answers, limits, fetched, ask)?;
    Ok(project_of(sysroot, settings, answers, kind))
}

// The project of a manifest that was located.
#[tactic(auto, unfolding(crate::specs::Project::located_project))]
fn located_project<R: Runner, T: Tree, P: Progress>(
    alloc: Global,
    sysroot: Sysroot,
    manifest: ManifestPath,
    config: &CargoConfig,
    limits: &Limits,
    ask: &Ask<'_, R, T>,
    progress: &mut P,
) -> Result<ProjectWorkspace, LoadError>
    ensures project { Gives result (spec.located_project sysroot manifest config.now limits.now
        (means_of R.answers T.files ask.now)) }
    ensures lines { TakesLines (IsErrOf result LoadError.OutOfMemory)
        (P.lines progress.old) (P.lines progress.new) (metadata_lines sysroot manifest config.now
        (tool_answers sysroot manifest FirstTarget config.now (means_of R.answers T.files ask.now))
        (means_of R.answers T.files ask.now)) }
{
    let settings = settings_of(alloc, config)?;
    let platform = PlatformAsked::FirstTarget;
    let answers = ask_tools(alloc, &sysroot, &manifest, platform, config, ask)?;
    let fetched = fetch(alloc, &sysroot, &manifest, config, &answers, ask, progress)?;
    project_with(
        alloc, sysroot, manifest, config, settings, answers, limits, fetched, ask,
    )
}

/// The project of a manifest. The root of its workspace is located first, and everything else is asked by the
/// manifest of that root.
#[tactic(auto, unfolding(crate::specs::Project::cargo_project))]
pub(crate) fn cargo_project<R: Runner, T: Tree, P: Progress>(
    alloc: Global,
    sysroot: Sysroot,
    manifest: &ManifestPath,
    config: &CargoConfig,
    limits: &Limits,
    ask: &Ask<'_, R, T>,
    progress: &mut P,
) -> Result<ProjectWorkspace, LoadError>
    ensures project { Gives result (spec.cargo_project sysroot manifest.now config.now limits.now
        (means_of R.answers T.files ask.now)) }
    ensures lines { TakesLines (IsErrOf result LoadError.OutOfMemory)
        (P.lines progress.old) (P.lines progress.new)
        (cargo_lines sysroot manifest.now config.now (means_of R.answers T.files ask.now)) }
{
    progress.line("discovering sysroot");
    let located = located_manifest(alloc, &sysroot, manifest, ask)?;
    progress.line("querying project metadata");
    located_project(alloc, sysroot, located, config, limits, ask, progress)
}
