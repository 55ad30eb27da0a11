//! Which features of the workspace's packages are enabled.

ghost use Rattle.std.specs.Prelude.{◌≡◌};
ghost use Rattle.pm_cargo_config.specs.Defaults.{default_features};

use base_text::{Items, Text, TryClone};
use std::alloc::{AllocError, Global};

/// The features that are enabled.
#[derive(Debug, Drop, PartialEq, Eq)]
pub enum CargoFeatures {
    All,
    Selected {
        /// The features that are enabled by name.
        features: Items<Text>,
        /// Whether the feature `default` is not enabled.
        no_default_features: bool,
    },
}

impl CargoFeatures {
    /// The features that are enabled where nothing is said: the default ones. It holds no memory.
    pub fn new(alloc: Global) -> Self
        ensures { result ≡ default_features }
    {
        CargoFeatures::Selected {
            features: Items::empty(alloc),
            no_default_features: false,
        }
    }
}

impl TryClone for CargoFeatures {
    fn try_clone(&self, alloc: Global) -> Result<Self, AllocError> {
        match self {
            CargoFeatures::All => Ok(CargoFeatures::All),
            CargoFeatures::Selected {
                features,
                no_default_features,
            } => Ok(CargoFeatures::Selected {
                features: features.try_clone(alloc)?,
                no_default_features: *no_default_features,
            }),
        }
    }
}
