//! What a user configures of a Cargo project.

ghost use Rattle.std.specs.Prelude.{◌≡◌, IfOk};
ghost use Rattle.pm_cargo_config.specs.Defaults.{default_config};

use crate::features::CargoFeatures;
use crate::overrides::CfgOverrides;
use crate::target_dir::TargetDirectoryConfig;
use base_text::{AbsPathBuf, ByText, Items, Text, TryClone};
use std::alloc::{AllocError, Global};

/// Where sources of the toolchain are found.
#[derive(Debug, Drop, PartialEq, Eq)]
pub enum RustLibSource {
    /// At this path.
    Path(AbsPathBuf),
    /// Where the toolchain has them.
    Discover,
}

impl TryClone for RustLibSource {
    fn try_clone(&self, alloc: Global) -> Result<Self, AllocError> {
        match self {
            RustLibSource::Path(path) => Ok(RustLibSource::Path(path.try_clone(alloc)?)),
            RustLibSource::Discover => Ok(RustLibSource::Discover),
        }
    }
}

/// How often a command is run that covers several workspaces.
#[derive(Clone, Copy, Debug, Default, PartialEq, Eq)]
pub enum InvocationStrategy {
    /// Once for all of them.
    Once,
    /// Once for each.
    #[default]
    PerWorkspace,
}

impl TryClone for InvocationStrategy {
    fn try_clone(&self, _alloc: Global) -> Result<Self, AllocError> {
        Ok(*self)
    }
}

/// What a user configures of a Cargo project.
#[derive(Drop, PartialEq, Eq)]
pub struct CargoConfig {
    /// Whether builds cover the targets of all kinds.
    pub all_targets: bool,
    pub features: CargoFeatures,
    /// The platform that is built for. Without it the configuration files of `cargo` decide.
    pub target: Option<Text>,
    /// The toolchain whose libraries are read. Without it there are none.
    pub sysroot: Option<RustLibSource>,
    /// The sources of its libraries, where they are elsewhere.
    pub sysroot_src: Option<AbsPathBuf>,
    /// The sources of the compiler's own crates.
    pub rustc_source: Option<RustLibSource>,
    /// Directories that are read beside the packages.
    pub extra_includes: Items<AbsPathBuf>,
    pub cfg_overrides: CfgOverrides,
    /// Whether builds of build scripts run the compiler through this program.
    pub wrap_rustc_in_build_scripts: bool,
    /// The command that builds build scripts, in place of `cargo check`.
    pub run_build_script_command: Option<Items<Text>>,
    /// Words for each `cargo` command.
    pub extra_args: Items<Text>,
    /// Words for metadata questions alone.
    pub metadata_extra_args: Items<Text>,
    /// A configuration file that is given by `--config`.
    pub config_path: Option<AbsPathBuf>,
    /// Variables that are set, or removed where they have no value.
    pub extra_env: ByText<Option<Text>>,
    pub invocation_strategy: InvocationStrategy,
    pub target_dir_config: TargetDirectoryConfig,
    /// Whether crates of the workspace are built for their tests.
    pub set_test: bool,
    /// Whether dependencies are left out.
    pub no_deps: bool,
}

impl CargoConfig {
    /// Nothing is configured. It holds no memory.
    pub fn new(alloc: Global) -> Self
        ensures { result ≡ default_config }
    {
        CargoConfig {
            all_targets: false,
            features: CargoFeatures::new(alloc),
            target: None,
            sysroot: None,
            sysroot_src: None,
            rustc_source: None,
            extra_includes: Items::empty(alloc),
            cfg_overrides: CfgOverrides::new(alloc),
            wrap_rustc_in_build_scripts: false,
            run_build_script_command: None,
            extra_args: Items::empty(alloc),
            metadata_extra_args: Items::empty(alloc),
            config_path: None,
            extra_env: ByText::empty(alloc),
            invocation_strategy: InvocationStrategy::PerWorkspace,
            target_dir_config: TargetDirectoryConfig::None,
            set_test: false,
            no_deps: false,
        }
    }

    // Copies of the paths and of where sources are found.
    fn copy_paths(&self, alloc: Global) -> Result<Paths, AllocError>
        ensures { IfOk result (λ copies. copies ≡ record {
          sysroot = self.now.sysroot;
          sysroot_src = self.now.sysroot_src;
          rustc_source = self.now.rustc_source;
          extra_includes = self.now.extra_includes;
          config_path = self.now.config_path;
          target_dir_config = self.now.target_dir_config;
        }) }
    {
        Ok(Paths {
            sysroot: self.sysroot.try_clone(alloc)?,
            sysroot_src: self.sysroot_src.try_clone(alloc)?,
            rustc_source: self.rustc_source.try_clone(alloc)?,
            extra_includes: self.extra_includes.try_clone(alloc)?,
            config_path: self.config_path.try_clone(alloc)?,
            target_dir_config: self.target_dir_config.try_clone(alloc)?,
        })
    }
}

// The paths of a configuration, and where sources are found.
#[derive(Drop)]
struct Paths {
    sysroot: Option<RustLibSource>,
    sysroot_src: Option<AbsPathBuf>,
    rustc_source: Option<RustLibSource>,
    extra_includes: Items<AbsPathBuf>,
    config_path: Option<AbsPathBuf>,
    target_dir_config: TargetDirectoryConfig,
}

impl TryClone for CargoConfig {
    fn try_clone(&self, alloc: Global) -> Result<Self, AllocError> {
        let features = self.features.try_clone(alloc)?;
        let target = self.target.try_clone(alloc)?;
        let cfg_overrides = self.cfg_overrides.try_clone(alloc)?;
        let run_build_script_command = self.run_build_script_command.try_clone(alloc)?;
        let extra_args = self.extra_args.try_clone(alloc)?;
        let metadata_extra_args = self.metadata_extra_args.try_clone(alloc)?;
        let extra_env = self.extra_env.try_clone(alloc)?;
        let paths = self.copy_paths(alloc)?;
        Ok(CargoConfig {
            all_targets: self.all_targets,
            features,
            target,
            sysroot: paths.sysroot,
            sysroot_src: paths.sysroot_src,
            rustc_source: paths.rustc_source,
            extra_includes: paths.extra_includes,
            cfg_overrides,
            wrap_rustc_in_build_scripts: self.wrap_rustc_in_build_scripts,
            run_build_script_command,
            extra_args,
            metadata_extra_args,
            config_path: paths.config_path,
            extra_env,
            invocation_strategy: self.invocation_strategy,
            target_dir_config: paths.target_dir_config,
            set_test: self.set_test,
            no_deps: self.no_deps,
        })
    }
}
