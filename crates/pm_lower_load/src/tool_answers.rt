//! What the tools of a toolchain say of a project, before its metadata is fetched.

ghost use Rattle.std.specs.Prelude.{◌≡◌, IfOk, option_copied, slice_get};
ghost use Rattle.std.specs.Option.{option_map};
ghost use Rattle.base_text_paths.specs.AbsPath.{abs_text};
ghost use Rattle.pm_lower_load.specs.ToolAnswers as spec;
ghost use Rattle.pm_lower_load.specs.ToolAnswers.{compiler_answers, platform_asked, target_result, targets_or_none, version_or_none};
ghost use Rattle.pm_tools_ask.specs.Ask.{means_of};
ghost use Rattle.pm_tools_info.specs.Config.{query_of};
ghost use Rattle.pm_tools_info.specs.Queries.{data_answer, target_answer, version_answer};

use base_text::{AbsPath, CfgAtom, Items, ManifestPath, Runner, Text, Tree, TryClone, Version};
use crate_graph_values::target::{TargetLoadError, TargetLoadResult};
use pm_cargo_config::CargoConfig;
use pm_tools_ask::{Ask, CargoConfigFile, Sysroot};
use pm_tools_info::{QueryConfig, QueryError, rustc_cfg, target_data, target_tuple, version};
use std::alloc::{AllocError, Global};

/// What the tools say: the printed configuration, if there is one, the platforms that are built for, the version
/// of the toolchain, and of one platform the atoms of conditional compilation and the machine.
#[derive(Debug, Drop)]
pub struct ToolAnswers {
    pub config_file: Option<CargoConfigFile>,
    pub targets: Items<Text>,
    pub toolchain: Option<Version>,
    pub rustc_cfg: Items<CfgAtom>,
    pub target: TargetLoadResult,
}

/// A copy of what is known of a machine.
pub fn copy_target(alloc: Global, target: &TargetLoadResult) -> Result<TargetLoadResult, AllocError>
    ensures { IfOk result (λ copy. copy ≡ target.now) }
{
    match target {
        Ok(machine) => Ok(Ok(machine.try_clone(alloc)?)),
        Err(error) => Ok(Err(error.try_clone(alloc)?)),
    }
}

impl TryClone for ToolAnswers {
    fn try_clone(&self, alloc: Global) -> Result<Self, AllocError> {
        Ok(ToolAnswers {
            config_file: self.config_file.try_clone(alloc)?,
            targets: self.targets.try_clone(alloc)?,
            toolchain: self.toolchain.try_clone(alloc)?,
            rustc_cfg: self.rustc_cfg.try_clone(alloc)?,
            target: copy_target(alloc, &self.target)?,
        })
    }
}

/// Which platform the tools are asked for the atoms and the machine of.
#[derive(Clone, Copy, Debug, PartialEq, Eq)]
pub enum PlatformAsked {
    /// The first of those that are built for.
    FirstTarget,
    /// The one that they take where none is named.
    NoTarget,
}

// The platforms that are built for. There are none where nothing says which.
fn ask_targets<R: Runner, T: Tree>(
    alloc: Global,
    query: QueryConfig<'_>,
    config: &CargoConfig,
    ask: &Ask<'_, R, T>,
) -> Result<Items<Text>, AllocError>
    ensures { IfOk result (λ targets. targets ≡ targets_or_none (target_answer
        (query_of query.entry) config.now.target (means_of R.answers T.files ask.now))) }
{
    let given = match &config.target {
        Some(target) => Some(target.as_str()),
        None => None,
    };
    match target_tuple::get(alloc, query, given, ask) {
        Ok(targets) => Ok(targets),
        Err(QueryError::OutOfMemory) => Err(AllocError),
        Err(_) => Ok(Items::empty(alloc)),
    }
}

// The version of the toolchain, if it is known.
fn ask_version<R: Runner, T: Tree>(
    alloc: Global,
    query: QueryConfig<'_>,
    ask: &Ask<'_, R, T>,
) -> Result<Option<Version>, AllocError>
    ensures { IfOk result (λ found. found ≡ version_or_none
        (version_answer (query_of query.entry) (means_of R.answers T.files ask.now))) }
{
    match version::get(alloc, query, ask) {
        Ok(found) => Ok(found),
        Err(QueryError::OutOfMemory) => Err(AllocError),
        Err(_) => Ok(None),
    }
}

// The machine of a platform, or why nothing is known of it.
fn ask_machine<R: Runner, T: Tree>(
    alloc: Global,
    query: QueryConfig<'_>,
    target: Option<&str>,
    toolchain: Option<&Version>,
    ask: &Ask<'_, R, T>,
) -> Result<TargetLoadResult, AllocError>
    ensures { IfOk result (λ machine. machine ≡ target_result (data_answer
        (query_of query.entry) (option_copied target.entry) (option_copied toolchain.entry)
        (means_of R.answers T.files ask.now))) }
{
    match target_data::get(alloc, query, target, toolchain, ask) {
        Ok(machine) => Ok(Ok(machine)),
        Err(QueryError::OutOfMemory) => Err(AllocError),
        Err(error) => Ok(Err(TargetLoadError(target_error(alloc, error)?))),
    }
}

// Why nothing is known of a machine.
fn target_error(alloc: Global, error: QueryError) -> Result<Text, AllocError>
    ensures { IfOk result (λ text. text ≡ spec.target_error error) }
{
    match error {
        QueryError::Failed(line) => {
            let line = line.as_str();
            Ok(Text::new(format!(in alloc; "cannot run {line}")?))
        }
        _ => Text::of_str(alloc, "bad target spec"),
    }
}

// The path of the configuration file that is given, if one is.
fn config_path(config: &CargoConfig) -> Option<AbsPath<'_>>
    ensures { option_map abs_text result ≡ config.now.config_path }
{
    match &config.config_path {
        Some(path) => Some(path.as_path()),
        None => None,
    }
}

// What is asked of: the tools of a toolchain, for a manifest and the configuration that is printed for it.
fn query_of<'a>(
    sysroot: &'a Sysroot,
    manifest: &'a ManifestPath,
    file: Option<&'a CargoConfigFile>,
) -> QueryConfig<'a>
    ensures { result ≡ QueryConfig.Cargo sysroot.entry manifest.entry file.entry }
{
    QueryConfig::Cargo(sysroot, manifest, file)
}

// The platform that is named to the tools, if one is.
fn platform_asked(platform: PlatformAsked, targets: &Items<Text>) -> Option<&str>
    ensures { option_copied result ≡ platform_asked platform targets.now }
{
    match platform {
        PlatformAsked::FirstTarget => first_target(targets),
        PlatformAsked::NoTarget => None,
    }
}

// The first of some platforms.
fn first_target(targets: &Items<Text>) -> Option<&str>
    ensures { option_copied result ≡ slice_get targets.now 0 }
{
    match targets.as_slice().first() {
        Some(target) => Some(target.as_str()),
        None => None,
    }
}

/// What the tools say of the project of a manifest.
pub fn ask_tools<R: Runner, T: Tree>(
    alloc: Global,
    sysroot: &Sysroot,
    manifest: &ManifestPath,
    platform: PlatformAsked,
    config: &CargoConfig,
    ask: &Ask<'_, R, T>,
) -> Result<ToolAnswers, AllocError>
    ensures { IfOk result (λ answers. answers ≡ spec.tool_answers sysroot.now manifest.now platform
        config.now (means_of R.answers T.files ask.now)) }
{
    let path = config_path(config);
    let config_file = CargoConfigFile::load(alloc, manifest, sysroot, path, ask)?;
    let query = query_of(sysroot, manifest, config_file.as_ref());
    let targets = ask_targets(alloc, query, config, ask)?;
    let toolchain = ask_version(alloc, query, ask)?;
    let target = platform_asked(platform, &targets);
    let rustc_cfg = rustc_cfg::get(alloc, query, target, ask)?;
    let machine = ask_machine(alloc, query, target, toolchain.as_ref(), ask)?;
    Ok(ToolAnswers {
        config_file,
        targets,
        toolchain,
        rustc_cfg,
        target: machine,
    })
}

/// What the compiler of a toolchain says in the directory of a project that has no manifest of cargo.
pub fn ask_compiler<R: Runner, T: Tree>(
    alloc: Global,
    sysroot: &Sysroot,
    dir: AbsPath<'_>,
    config: &CargoConfig,
    ask: &Ask<'_, R, T>,
) -> Result<ToolAnswers, AllocError>
    ensures { IfOk result (λ answers. answers ≡ compiler_answers sysroot.now
        (abs_text dir.entry) config.now.target (means_of R.answers T.files ask.now)) }
{
    let query = QueryConfig::Rustc(sysroot, dir);
    let targets = ask_targets(alloc, query, config, ask)?;
    let toolchain = ask_version(alloc, query, ask)?;
    let target = first_target(&targets);
    let rustc_cfg = rustc_cfg::get(alloc, query, target, ask)?;
    let machine = ask_machine(alloc, query, target, toolchain.as_ref(), ask)?;
    Ok(ToolAnswers {
        config_file: None,
        targets,
        toolchain,
        rustc_cfg,
        target: machine,
    })
}
