//! One build of several workspaces. Outputs go by the ids of packages, so that all packages of an id have one output.

ghost use Rattle.std.specs.Prelude.{◌≡◌, IfOk, IsErrOf, option_copied};
ghost use Rattle.pm_cargo_fetch.specs.Lines.{TakesLines};
ghost use Rattle.pm_tools.specs.Lines.{lines_among, shared_lines};
ghost use Rattle.pm_tools.specs.Packages.{lent_workspaces, packages_of_all};
ghost use Rattle.pm_tools.specs.Reading.{Gives};
ghost use Rattle.pm_tools.specs.SharedBuild as spec;

use crate::build_error::BuildError;
use crate::build_scripts::WorkspaceBuildScripts;
use crate::packages::KnownPackages;
use base_text::{ArenaMap, CommandLine, Output, Progress, Runner, TryClone};
use cargo_meta_values::PackageId;
use pm_cargo::{BuildScriptOutput, CargoWorkspace};
use pm_cargo_fetch::line_text;
use pm_cargo_packages::PackageTag;
use std::alloc::{AllocError, Global};
use std::marker::Model;

/// What one build gives the packages of several workspaces.
#[derive(Drop)]
pub struct SharedBuild<'a> {
    packages: KnownPackages<'a>,
    scripts: WorkspaceBuildScripts,
}

/// Contracts see the packages of all workspaces, one workspace after another, and what the build gives them.
impl<'a> Model for SharedBuild<'a> {
    ghost use Rattle.pm_tools.specs.Packages.{lent_packages};
    ghost use Rattle.pm_tools.specs.SharedBuild as seen;

    ghost Value = { seen.SharedBuild };

    ghost coded = { seen.shared_build_code };

    ghost view = { λ b. record {
      packages = lent_packages b.packages.packages;
      scripts = b.scripts;
    } };
}

impl<'a> TryClone for SharedBuild<'a> {
    fn try_clone(&self, alloc: Global) -> Result<Self, AllocError> {
        let packages = self.packages.copy(alloc)?;
        let scripts = self.scripts.try_clone(alloc)?;
        Ok(SharedBuild { packages, scripts })
    }
}

impl<'a> SharedBuild<'a> {
    /// One build of all of the workspaces: the answer to the command is read, and counts for all. `progress` takes
    /// the lines of [`of_output`](WorkspaceBuildScripts::of_output).
    pub fn run<R: Runner, P: Progress>(
        alloc: Global,
        line: &CommandLine,
        workspaces: &[&'a CargoWorkspace],
        runner: &R,
        progress: &mut P,
    ) -> Result<SharedBuild<'a>, BuildError>
        ensures outputs { Gives result (spec.shared_build line.now (lent_workspaces workspaces.now)
            (R.answers runner.now)) }
        ensures lines { TakesLines (IsErrOf result BuildError.OutOfMemory)
            (P.lines progress.old) (P.lines progress.new)
            (shared_lines line.now (lent_workspaces workspaces.now) (R.answers runner.now)) }
    {
        match runner.ask(alloc, line)? {
            Some(output) => SharedBuild::of_output(alloc, workspaces, &output, progress),
            None => Err(BuildError::Io(line_text(alloc, line)?)),
        }
    }

    // What the command of the build wrote gives the packages.
    fn of_output<P: Progress>(
        alloc: Global,
        workspaces: &[&'a CargoWorkspace],
        output: &Output,
        progress: &mut P,
    ) -> Result<SharedBuild<'a>, BuildError>
        ensures outputs { Gives result
            (spec.shared_outputs (lent_workspaces workspaces.now) output.now) }
        ensures lines { TakesLines (IsErrOf result BuildError.OutOfMemory)
            (P.lines progress.old) (P.lines progress.new)
            (lines_among (packages_of_all (lent_workspaces workspaces.now)) output.now) }
    {
        let packages = KnownPackages::new(alloc, workspaces)?;
        let scripts = WorkspaceBuildScripts::among(alloc, &packages, output, progress)?;
        Ok(SharedBuild { packages, scripts })
    }

    /// What the build gives one of the workspaces.
    pub fn scripts_for(
        &self,
        alloc: Global,
        workspace: &CargoWorkspace,
    ) -> Result<WorkspaceBuildScripts, AllocError>
        ensures { IfOk result (λ scripts. scripts ≡ spec.scripts_for self.now workspace.now) }
    {
        let outputs = self.outputs_by_id(alloc, workspace)?;
        self.scripts.with_outputs(alloc, outputs)
    }

    // The outputs of the packages of a workspace, by their ids.
    fn outputs_by_id(
        &self,
        alloc: Global,
        workspace: &CargoWorkspace,
    ) -> Result<ArenaMap<PackageTag, BuildScriptOutput>, AllocError>
        ensures { IfOk result (λ outputs. outputs ≡ spec.outputs_by_id self.now.packages
            self.now.scripts.outputs workspace.now.packages) }
    {
        let mut outputs = ArenaMap::new(alloc);
        for package in workspace.packages() {
            if let Some(output) = self.output_of_id(workspace[package].id.get()) {
                drop(outputs.insert(package, output.try_clone(alloc)?)?);
            }
        }
        Ok(outputs)
    }

    // The output of an id.
    fn output_of_id(&self, id: &PackageId) -> Option<&BuildScriptOutput>
        ensures { option_copied result
            ≡ spec.output_of_id self.now.packages self.now.scripts.outputs id.now.repr }
    {
        self.scripts.get_output(self.packages.find(id)?)
    }
}
