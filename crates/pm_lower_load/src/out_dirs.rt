//! The directory that the build of a package wrote into.

ghost use Rattle.std.specs.Prelude.{◌≡◌};
ghost use Rattle.std.specs.Option.{option_map};
ghost use Rattle.base_text_paths.specs.AbsPath.{abs_text};
ghost use Rattle.base_text_paths.specs.Arena.{number_of};
ghost use Rattle.pm_lower_load.specs.Roots.{out_dir_in};

use base_text::AbsPath;
use pm_cargo::BuildOutputs;
use pm_cargo_packages::Package;

/// The directory that the build of a package wrote into, if it is known.
pub(crate) fn out_dir_of<O: BuildOutputs>(outputs: &O, package: Package) -> Option<AbsPath<'_>>
    ensures { option_map abs_text result
        ≡ out_dir_in (O.output_at outputs.now) (number_of «package») }
{
    match &outputs.output(package)?.out_dir {
        Some(dir) => Some(dir.as_path()),
        None => None,
    }
}
