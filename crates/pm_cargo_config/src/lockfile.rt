//! How `cargo` is given the path of a lockfile, by its version.

ghost use Rattle.std.specs.Prelude.{◌≡◌};
ghost use Rattle.pm_cargo_config.specs.Lockfile.{usage_of};

use crate::versions::is_at_least;
use base_text::{TryClone, Version};
use std::alloc::{AllocError, Global};

/// How a lockfile is given.
#[derive(Clone, Copy, Debug, PartialEq, Eq)]
pub enum LockfileUsage {
    /// By the option `--lockfile-path`.
    WithFlag,
    /// By a variable, and an unstable option.
    WithEnvVarUnstable,
    /// By a variable.
    WithEnvVar,
}

impl TryClone for LockfileUsage {
    fn try_clone(&self, _alloc: Global) -> Result<Self, AllocError> {
        Ok(*self)
    }
}

/// How a lockfile is given to `cargo` of that version. None where it cannot be.
pub fn lockfile_usage(version: &Version) -> Option<LockfileUsage>
    ensures { result ≡ usage_of version.now }
{
    if is_at_least(version, 1, 97, 0) {
        Some(LockfileUsage::WithEnvVar)
    } else if is_at_least(version, 1, 95, 0) {
        Some(LockfileUsage::WithEnvVarUnstable)
    } else if is_at_least(version, 1, 82, 0) {
        Some(LockfileUsage::WithFlag)
    } else {
        None
    }
}
