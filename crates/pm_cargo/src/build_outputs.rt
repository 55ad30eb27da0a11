//! What is asked of a build: the output of a package, and whether the build failed.

ghost use Rattle.std.specs.Prelude.{◌≡◌, ℕ, Bool, Option, false, option_copied};
ghost use Rattle.std.specs.FinMap as numbered;
ghost use Rattle.base_text_paths.specs.Arena.{number_of};
ghost use Rattle.pm_cargo.specs.declared.output.BuildScriptOutput.{BuildScriptOutput};

use crate::output::BuildScriptOutput;
use base_text_paths::ArenaMap;
use pm_cargo_packages::{Package, PackageTag};

/// What a build gives the packages of a workspace.
pub trait BuildOutputs {
    // What it gives the package with a number, if it gives anything.
    ghost output_at: { Self → ℕ → Option BuildScriptOutput };

    // Whether it failed.
    ghost is_failed: { Self → Bool };

    /// The output of a package, if there is one.
    fn output(&self, package: Package) -> Option<&BuildScriptOutput>
        ensures { option_copied result ≡ output_at self.now (number_of «package») };

    /// Whether the build failed. What it gave before counts all the same.
    fn has_failed(&self) -> bool
        ensures { result ≡ is_failed self.now };
}

/// The outputs by the packages' numbers, of a build that did not fail.
impl BuildOutputs for ArenaMap<PackageTag, BuildScriptOutput> {
    ghost output_at = { numbered.get };

    ghost is_failed = { λ outputs. false };

    fn output(&self, package: Package) -> Option<&BuildScriptOutput> {
        self.get(package)
    }

    fn has_failed(&self) -> bool {
        false
    }
}
