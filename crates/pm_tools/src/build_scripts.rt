//! What a build gives the packages of a workspace.

ghost use Rattle.std.specs.Prelude.{◌≡◌, IfOk, IsErrOf, None, option_copied};
ghost use Rattle.std.specs.FinMap.{empty, get};
ghost use Rattle.base_text_paths.specs.Arena.{number_of};
ghost use Rattle.pm_cargo_fetch.specs.Lines.{TakesLines};
ghost use Rattle.pm_tools.specs.Build.{build_of};
ghost use Rattle.pm_tools.specs.Lines.{build_lines, lines_among, lines_of};
ghost use Rattle.pm_tools.specs.Outputs.{outputs_among, outputs_of};
ghost use Rattle.pm_tools.specs.Packages.{lent_packages};
ghost use Rattle.pm_tools.specs.Reading.{Gives};
ghost use Rattle.pm_tools_ask.specs.Ask.{means_of};

use crate::build_command::build_question;
use crate::build_error::BuildError;
use crate::outputs::OutputsBuilder;
use crate::packages::KnownPackages;
use base_text::{ArenaMap, Output, Progress, Runner, Text, Tree, TryClone, Version};
use pm_cargo::{BuildOutputs, BuildScriptOutput, CargoWorkspace};
use pm_cargo_config::CargoConfig;
use pm_cargo_fetch::line_text;
use pm_cargo_packages::{Package, PackageTag};
use pm_tools_ask::{Ask, Sysroot};
use std::alloc::{AllocError, Global};
use std::marker::Model;

/// What a build gives the packages of a workspace, and why it failed, if it did.
#[derive(Debug, PartialEq, Eq, Drop)]
pub struct WorkspaceBuildScripts {
    outputs: ArenaMap<PackageTag, BuildScriptOutput>,
    error: Option<Text>,
}

/// Contracts see the outputs under the numbers of their packages, and the error.
impl Model for WorkspaceBuildScripts {
    ghost use Rattle.pm_tools.specs.Outputs as seen;

    ghost Value = { seen.BuildScripts };

    ghost coded = { seen.build_scripts_code };

    ghost view = { λ a. record { outputs = a.outputs; error = a.error } };

    ghost inverse = { λ s. record { outputs = s.outputs; error = s.error } };
}

impl WorkspaceBuildScripts {
    /// No outputs and no error. It holds no memory.
    pub fn new(alloc: Global) -> Self
        ensures { result ≡ record { outputs = empty; error = None } }
    {
        WorkspaceBuildScripts {
            outputs: ArenaMap::new(alloc),
            error: None,
        }
    }

    /// These outputs and this error.
    pub fn of_parts(outputs: ArenaMap<PackageTag, BuildScriptOutput>, error: Option<Text>) -> Self
        ensures { result ≡ record { outputs = outputs; error = error } }
    {
        WorkspaceBuildScripts { outputs, error }
    }

    /// What the command of a build wrote gives the packages of the workspace, or the first path of its
    /// messages that is not absolute. `progress` takes a line for each build script of a known package,
    /// each library that is found, and each message of the compiler.
    pub fn of_output<P: Progress>(
        alloc: Global,
        workspace: &CargoWorkspace,
        output: &Output,
        progress: &mut P,
    ) -> Result<WorkspaceBuildScripts, BuildError>
        ensures outputs { Gives result (outputs_of workspace.now output.now) }
        ensures lines { TakesLines (IsErrOf result BuildError.OutOfMemory)
            (P.lines progress.old) (P.lines progress.new) (lines_of workspace.now output.now) }
    {
        let packages = KnownPackages::new(alloc, &[workspace])?;
        WorkspaceBuildScripts::among(alloc, &packages, output, progress)
    }

    // What the command of a build wrote gives some packages.
    pub(crate) fn among<P: Progress>(
        alloc: Global,
        packages: &KnownPackages<'_>,
        output: &Output,
        progress: &mut P,
    ) -> Result<WorkspaceBuildScripts, BuildError>
        ensures outputs { Gives result
            (outputs_among (lent_packages packages.now.packages) output.now) }
        ensures lines { TakesLines (IsErrOf result BuildError.OutOfMemory)
            (P.lines progress.old) (P.lines progress.new)
            (lines_among (lent_packages packages.now.packages) output.now) }
    {
        let mut builder = OutputsBuilder::new(alloc, packages)?;
        builder.take_lines(alloc, packages, output.out.as_str(), progress)?;
        builder.push_errors(output.err.as_str())?;
        let (outputs, error) = builder.finish(alloc, output.ok)?;
        Ok(WorkspaceBuildScripts::of_parts(outputs, error))
    }

    /// What a build of the workspace gives its packages: the build question is asked, and its answer is
    /// read. `progress` takes the lines of [`of_output`](WorkspaceBuildScripts::of_output).
    pub fn run_for_workspace<R: Runner, T: Tree, P: Progress>(
        alloc: Global,
        config: &CargoConfig,
        workspace: &CargoWorkspace,
        sysroot: &Sysroot,
        toolchain: Option<&Version>,
        ask: &Ask<'_, R, T>,
        progress: &mut P,
    ) -> Result<WorkspaceBuildScripts, BuildError>
        ensures outputs { Gives result (build_of config.now workspace.now sysroot.now
            (option_copied toolchain.entry) (means_of R.answers T.files ask.now)) }
        ensures lines { TakesLines (IsErrOf result BuildError.OutOfMemory)
            (P.lines progress.old) (P.lines progress.new)
            (build_lines config.now workspace.now sysroot.now (option_copied toolchain.entry)
            (means_of R.answers T.files ask.now)) }
    {
        let line = build_question(alloc, config, workspace, sysroot, toolchain, ask)?;
        match ask.runner.ask(alloc, &line)? {
            Some(output) => WorkspaceBuildScripts::of_output(alloc, workspace, &output, progress),
            None => Err(BuildError::Io(line_text(alloc, &line)?)),
        }
    }

    // The error, with other outputs.
    pub(crate) fn with_outputs(
        &self,
        alloc: Global,
        outputs: ArenaMap<PackageTag, BuildScriptOutput>,
    ) -> Result<WorkspaceBuildScripts, AllocError>
        ensures { IfOk result (λ given. given ≡ record self.now { outputs = outputs }) }
    {
        let error = self.error.try_clone(alloc)?;
        Ok(WorkspaceBuildScripts::of_parts(outputs, error))
    }

    /// Why the build failed.
    pub fn error(&self) -> Option<&str>
        ensures { option_copied result ≡ self.now.error }
    {
        match &self.error {
            Some(error) => Some(error.as_str()),
            None => None,
        }
    }

    /// The output of a package.
    pub fn get_output(&self, idx: Package) -> Option<&BuildScriptOutput>
        ensures { option_copied result ≡ get self.now.outputs (number_of idx) }
    {
        self.outputs.get(idx)
    }
}

impl BuildOutputs for WorkspaceBuildScripts {
    ghost use Rattle.std.specs.Prelude.{is_some};

    ghost output_at = { λ scripts. get scripts.outputs };

    ghost is_failed = { λ scripts. is_some scripts.error };

    fn output(&self, package: Package) -> Option<&BuildScriptOutput> {
        self.outputs.get(package)
    }

    fn has_failed(&self) -> bool {
        self.error.is_some()
    }
}

impl TryClone for WorkspaceBuildScripts {
    fn try_clone(&self, alloc: Global) -> Result<Self, AllocError> {
        Ok(WorkspaceBuildScripts {
            outputs: self.outputs.try_clone(alloc)?,
            error: self.error.try_clone(alloc)?,
        })
    }
}
