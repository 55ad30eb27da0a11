//! The lines by which reading the output of a build says how far it has come.

ghost use Rattle.std.specs.Prelude.{◌≡◌, ◌∷◌, ◌<◌, [], length, OnErr, OnOk};
ghost use Rattle.base_text_paths.specs.Arena.{number_of};
ghost use Rattle.pm_tools.specs.Lines.{compiler_line, library_line, name_at, script_line};
ghost use Rattle.pm_tools.specs.Packages.{lent_packages};
ghost use Rattle.base_text.specs.Progress.{with_lines};

use crate::packages::KnownPackages;
use base_text::Progress;
use pm_cargo_packages::Package;
use std::alloc::{AllocError, Global};

/// Reports that the build script of a package ran.
pub(crate) fn report_script<P: Progress>(
    alloc: Global,
    packages: &KnownPackages<'_>,
    package: Package,
    progress: &mut P,
) -> Result<(), AllocError>
    requires { number_of «package» < length packages.now.packages }
    ensures ok { OnOk result (P.lines progress.new ≡ with_lines (script_line (name_at
        (lent_packages packages.now.packages) (number_of «package»)) ∷ []) (P.lines progress.old)) }
    ensures err { OnErr result (P.lines progress.new ≡ P.lines progress.old) }
{
    let text = format!(in alloc; "build script {} run", packages.name(package))?;
    progress.line(text.as_str());
    Ok(())
}

/// Reports that the library of a package was built.
pub(crate) fn report_library<P: Progress>(
    alloc: Global,
    packages: &KnownPackages<'_>,
    package: Package,
    progress: &mut P,
) -> Result<(), AllocError>
    requires { number_of «package» < length packages.now.packages }
    ensures ok { OnOk result (P.lines progress.new ≡ with_lines (library_line (name_at
        (lent_packages packages.now.packages) (number_of «package»)) ∷ []) (P.lines progress.old)) }
    ensures err { OnErr result (P.lines progress.new ≡ P.lines progress.old) }
{
    let text = format!(in alloc; "proc-macro {} built", packages.name(package))?;
    progress.line(text.as_str());
    Ok(())
}

/// Reports that the compiler said something of a target.
pub(crate) fn report_message<P: Progress>(
    alloc: Global,
    target: &str,
    progress: &mut P,
) -> Result<(), AllocError>
    ensures ok { OnOk result (P.lines progress.new
        ≡ with_lines (compiler_line target.now ∷ []) (P.lines progress.old)) }
    ensures err { OnErr result (P.lines progress.new ≡ P.lines progress.old) }
{
    let text = format!(in alloc; "received compiler message for: {target}")?;
    progress.line(text.as_str());
    Ok(())
}
