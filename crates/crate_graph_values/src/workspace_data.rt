//! What the crates of a workspace share: the machine that they are built for, and the toolchain.

ghost use Rattle.std.specs.Prelude.{◌≡◌, [], IfOk};
ghost use Rattle.std.specs.Ordering.{is_le};
ghost use Rattle.base_values.specs.Version.{version_cmp};
ghost use Rattle.crate_graph_values.specs.Toolchain.{is_at_least_187};

use crate::target::TargetLoadResult;
use base_text_paths::{TryClone, Version as ToolchainVersion};
use std::alloc::{AllocError, Global};

/// What the crates of a workspace share.
#[derive(Debug, PartialEq, Eq, Drop)]
pub struct CrateWorkspaceData {
    pub target: TargetLoadResult,
    pub toolchain: Option<ToolchainVersion>,
}

impl CrateWorkspaceData {
    /// Whether the toolchain is known to be 1.87.0 or later.
    pub fn is_atleast_187(&self) -> bool
        ensures { result ≡ is_at_least_187 self.now.toolchain }
    {
        match &self.toolchain {
            Some(version) => is_release_187(version),
            None => false,
        }
    }
}

// Whether a version is 1.87.0 or later.
fn is_release_187(version: &ToolchainVersion) -> bool
    ensures { result ≡ is_le (version_cmp (1, 87, 0, [], []) version.now) }
{
    semver::Version::new(1, 87, 0) <= *version.as_version()
}

impl TryClone for CrateWorkspaceData {
    fn try_clone(&self, alloc: Global) -> Result<Self, AllocError> {
        let toolchain = self.toolchain.try_clone(alloc)?;
        let target = copy_of_target(alloc, &self.target)?;
        Ok(CrateWorkspaceData { target, toolchain })
    }
}

fn copy_of_target(alloc: Global, target: &TargetLoadResult) -> Result<TargetLoadResult, AllocError>
    ensures { IfOk result (λ copy. copy ≡ target.now) }
{
    match target {
        Ok(data) => {
            let data = data.try_clone(alloc)?;
            Ok(Ok(data))
        }
        Err(error) => {
            let error = error.try_clone(alloc)?;
            Ok(Err(error))
        }
    }
}
