//! How metadata is asked for.

ghost use Rattle.pm_cargo_config.specs.MetadataDefaults.{IsNothingConfigured};

use crate::features::CargoFeatures;
use base_text::{AbsPathBuf, ByText, Items, Text, TryClone, Version};
use std::alloc::{AllocError, Global};

/// How metadata is asked for.
#[derive(Drop, PartialEq, Eq)]
pub struct CargoMetadataConfig {
    pub features: CargoFeatures,
    /// The platforms that dependencies are wanted for. Without one they are wanted for all.
    pub targets: Items<Text>,
    /// Words for each `cargo` command, of which a metadata question takes the unstable options.
    pub extra_args: Items<Text>,
    /// Words for metadata questions alone.
    pub metadata_extra_args: Items<Text>,
    /// A configuration file that is given by `--config`.
    pub config_path: Option<AbsPathBuf>,
    /// Variables that are set, or removed where they have no value.
    pub extra_env: ByText<Option<Text>>,
    /// What the metadata is of. It is kept, and has no effect.
    pub kind: &'static str,
    /// The version of the toolchain, if it is known.
    pub toolchain_version: Option<Version>,
}

impl CargoMetadataConfig {
    /// Nothing is configured. It holds no memory.
    pub fn new(alloc: Global) -> Self
        ensures { IsNothingConfigured result }
    {
        CargoMetadataConfig {
            features: CargoFeatures::new(alloc),
            targets: Items::empty(alloc),
            extra_args: Items::empty(alloc),
            metadata_extra_args: Items::empty(alloc),
            config_path: None,
            extra_env: ByText::empty(alloc),
            kind: "",
            toolchain_version: None,
        }
    }
}

impl TryClone for CargoMetadataConfig {
    fn try_clone(&self, alloc: Global) -> Result<Self, AllocError> {
        Ok(CargoMetadataConfig {
            features: self.features.try_clone(alloc)?,
            targets: self.targets.try_clone(alloc)?,
            extra_args: self.extra_args.try_clone(alloc)?,
            metadata_extra_args: self.metadata_extra_args.try_clone(alloc)?,
            config_path: self.config_path.try_clone(alloc)?,
            extra_env: self.extra_env.try_clone(alloc)?,
            kind: self.kind,
            toolchain_version: self.toolchain_version.try_clone(alloc)?,
        })
    }
}
