//! Laws for callers' proofs. Each is a function that changes nothing: its contract is the law.

ghost use Rattle.std.specs.Prelude.{◌≡◌, ◌↔◌, true};
ghost use Rattle.base_values.specs.Equality.{IsContentEquality};
ghost use Rattle.pm_cargo_config.specs.Laws.{HasCleanSource};
ghost use Rattle.pm_cargo_config.specs.declared.config.InvocationStrategy.{InvocationStrategy};
ghost use Rattle.pm_cargo_config.specs.declared.config.InvocationStrategy.TheVariants.{PerWorkspace};
ghost use Rattle.pm_cargo_config.specs.declared.config.RustLibSource.{RustLibSource};
ghost use Rattle.pm_cargo_config.specs.declared.target_dir.TargetDirectoryConfig.{TargetDirectoryConfig};
ghost use Rattle.pm_cargo_config.specs.declared.target_dir.TargetDirectoryConfig.TheVariants as directory;

use crate::config::{InvocationStrategy, RustLibSource};
use crate::features::CargoFeatures;
use crate::lockfile::LockfileUsage;
use crate::overrides::CfgOverrides;
use crate::target_dir::TargetDirectoryConfig;
use base_text::{CfgDiff, Tool, Tools};

/// Tools, kinds of use and places of builds are equal exactly where their contents are the same.
pub fn equality_is_content()
    ensures places { IsContentEquality ⟦<TargetDirectoryConfig as PartialEq>⟧.eq }
    ensures tools { IsContentEquality ⟦<Tool as PartialEq>⟧.eq }
    ensures names { IsContentEquality ⟦<Tools as PartialEq>⟧.eq }
    ensures usages { IsContentEquality ⟦<LockfileUsage as PartialEq>⟧.eq }
    ensures strategies { IsContentEquality ⟦<InvocationStrategy as PartialEq>⟧.eq }
{}

/// Choices of features are equal exactly where both are all, or both name the same features and
/// leave out the same.
pub fn equality_of_features_is_content()
    ensures { IsContentEquality ⟦<CargoFeatures as PartialEq>⟧.eq }
{}

/// Overrides are equal exactly where their changes are the same, for all crates and for each name.
pub fn equality_of_overrides_is_content()
    ensures { IsContentEquality ⟦<CfgOverrides as PartialEq>⟧.eq }
{
    base_text_paths::laws::equality_of_cfgs_is_content();
    base_values::laws::equality_of_holders_is_content::<CfgDiff>();
}

/// Where sources are found is equal exactly where it is one place. Each path's text is clean.
pub fn equality_of_sources_is_content()
    ensures { (x y : RustLibSource) → HasCleanSource x → HasCleanSource y
        → (⟦<RustLibSource as PartialEq>⟧.eq x y ≡ true) ↔ (x ≡ y) }
{}

/// A strategy that is not chosen is to run a command for each workspace, and a build that is given no
/// place writes where the workspace's other builds write.
pub fn defaults_are_plain()
    ensures strategy { (x : InvocationStrategy)
        → ⟦<InvocationStrategy as Default>⟧.is_default x ↔ (x ≡ PerWorkspace) }
    ensures place { (x : TargetDirectoryConfig)
        → ⟦<TargetDirectoryConfig as Default>⟧.is_default x ↔ (x ≡ directory.None) }
{}
