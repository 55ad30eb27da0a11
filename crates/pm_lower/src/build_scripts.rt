//! Builds of projects: what they give, and a project with the outputs of one.

ghost use Rattle.std.specs.Prelude.{◌≡◌, flat_map, map, IfOk, IsErr, IsErrOf, option_copied};
ghost use Rattle.pm_tools.specs.Lines.{shared_lines};
ghost use Rattle.pm_tools.specs.Packages.{lent_workspaces};
ghost use Rattle.pm_tools.specs.Reading.{Gives};
ghost use Rattle.pm_tools.specs.SharedBuild.{shared_build};
ghost use Rattle.pm_lower.specs.Builds.{GivesEach, TakesBuild, all_builds, built_script, built_workspace, command_for_all, kind_share};
ghost use Rattle.pm_lower.specs.Builds.{project_build, project_outputs, unless_light, with_build_scripts, workspaces_of};
ghost use Rattle.pm_cargo_fetch.specs.Lines.{TakesLines};
ghost use Rattle.pm_lower.specs.Lines.{all_build_lines, project_build_lines, project_output_lines};
ghost use Rattle.pm_tools_ask.specs.Ask.{means_of};

use crate::project_workspace::{ProjectWorkspace, ProjectWorkspaceKind, ScriptWorkspace};
use base_text::{AbsPathBuf, CommandLine, Items, Output, Progress, Runner, Text, Tree, TryClone};
use pm_cargo::CargoWorkspace;
use pm_cargo_config::{CargoConfig, InvocationStrategy};
use pm_tools::{BuildError, SharedBuild, WorkspaceBuildScripts, configured_question};
use pm_tools_ask::Ask;
use std::alloc::{AllocError, Global};

/// What a build gives a project, or why it gives nothing.
pub type BuildResult = Result<WorkspaceBuildScripts, BuildError>;

impl ProjectWorkspace {
    /// What a build of the project gives its packages. Where the metadata of the members alone stands in for
    /// that of all packages there are no outputs, whatever is answered. `progress` takes the lines of
    /// [`run_for_workspace`](WorkspaceBuildScripts::run_for_workspace).
    pub fn run_build_scripts<R: Runner, T: Tree, P: Progress>(
        &self,
        alloc: Global,
        config: &CargoConfig,
        ask: &Ask<'_, R, T>,
        progress: &mut P,
    ) -> Result<WorkspaceBuildScripts, BuildError>
        ensures outputs { Gives result
            (project_build config.now (means_of R.answers T.files ask.now) self.now) }
        ensures lines { TakesLines (IsErrOf result BuildError.OutOfMemory)
            (P.lines progress.old) (P.lines progress.new)
            (project_build_lines config.now (means_of R.answers T.files ask.now) self.now) }
    {
        let Some(cargo) = self.built_workspace() else {
            return Ok(WorkspaceBuildScripts::new(alloc));
        };
        let (sysroot, version) = (&self.sysroot, self.toolchain.as_ref());
        WorkspaceBuildScripts::run_for_workspace(
            alloc, config, cargo, sysroot, version, ask, progress,
        )
    }

    /// What builds of the projects give each of them. Where a command is configured that is run once, its
    /// answer in the directory counts for all, and each package has the output of its id; a refusal is that of
    /// each project. Else each project is built by [`run_build_scripts`](ProjectWorkspace::run_build_scripts). Out of
    /// memory ends the call, whichever build ran out of it.
    pub fn run_all_build_scripts<R: Runner, T: Tree, P: Progress>(
        alloc: Global,
        workspaces: &[ProjectWorkspace],
        config: &CargoConfig,
        dir: &AbsPathBuf,
        ask: &Ask<'_, R, T>,
        progress: &mut P,
    ) -> Result<Items<BuildResult>, AllocError>
        ensures outputs { IfOk result (λ each. GivesEach each (all_builds workspaces.now config.now
            dir.now (means_of R.answers T.files ask.now))) }
        ensures lines { TakesLines (IsErr result) (P.lines progress.old) (P.lines progress.new)
            (all_build_lines workspaces.now config.now dir.now
            (means_of R.answers T.files ask.now)) }
    {
        match command_for_all(alloc, config, dir, ask)? {
            Some(line) => run_once(alloc, workspaces, &line, ask.runner, progress),
            None => run_each(alloc, workspaces, config, ask, progress),
        }
    }

    /// What the output of a build gives the project: that of [`of_output`](WorkspaceBuildScripts::of_output), or no
    /// outputs where the metadata of the members alone stands in for that of all packages.
    pub fn build_scripts_of_output<P: Progress>(
        &self,
        alloc: Global,
        output: &Output,
        progress: &mut P,
    ) -> Result<WorkspaceBuildScripts, BuildError>
        ensures outputs { Gives result (project_outputs self.now output.now) }
        ensures lines { TakesLines (IsErrOf result BuildError.OutOfMemory)
            (P.lines progress.old) (P.lines progress.new)
            (project_output_lines self.now output.now) }
    {
        match self.built_workspace() {
            Some(cargo) => WorkspaceBuildScripts::of_output(alloc, cargo, output, progress),
            None => Ok(WorkspaceBuildScripts::new(alloc)),
        }
    }

    // The workspace that builds count for.
    fn built_workspace(&self) -> Option<&CargoWorkspace>
        ensures { option_copied result ≡ built_workspace self.now.kind }
    {
        match &self.kind {
            ProjectWorkspaceKind::Cargo { cargo, error, .. } => unless_light(cargo, error),
            ProjectWorkspaceKind::Json(_) => None,
            ProjectWorkspaceKind::DetachedFile { cargo, .. } => built_script(cargo),
        }
    }

    /// Puts what a build gave in place of what was given before. Where there is no Cargo workspace, as
    /// [`has_cargo_workspace`](ProjectWorkspace::has_cargo_workspace) says, there are no other outputs than none.
    pub fn set_build_scripts(&mut self, bs: WorkspaceBuildScripts)
        requires { TakesBuild self.old.kind bs }
        ensures { self.new ≡ with_build_scripts self.old bs }
    {
        match &mut self.kind {
            ProjectWorkspaceKind::Cargo { build_scripts, .. } => *build_scripts = bs,
            ProjectWorkspaceKind::DetachedFile {
                cargo: Some((_, build_scripts, _)),
                ..
            } => *build_scripts = bs,
            ProjectWorkspaceKind::DetachedFile { cargo: None, .. }
            | ProjectWorkspaceKind::Json(_) => {}
        }
    }
}

// A workspace, unless the metadata of the members alone stands in for that of all packages.
fn unless_light<'a>(cargo: &'a CargoWorkspace, error: &Option<Text>) -> Option<&'a CargoWorkspace>
    ensures { option_copied result ≡ unless_light cargo.now error.now }
{
    match error {
        Some(_) => None,
        None => Some(cargo),
    }
}

// The workspace of a detached file that builds count for.
fn built_script(script: &Option<ScriptWorkspace>) -> Option<&CargoWorkspace>
    ensures { option_copied result ≡ built_script script.now }
{
    match script {
        Some((cargo, _, error)) => unless_light(cargo, error),
        None => None,
    }
}

// The command whose answer counts for all projects, where it is configured so.
fn command_for_all<R: Runner, T: Tree>(
    alloc: Global,
    config: &CargoConfig,
    dir: &AbsPathBuf,
    ask: &Ask<'_, R, T>,
) -> Result<Option<CommandLine>, AllocError>
    ensures { IfOk result (λ line. line ≡ command_for_all config.now dir.now
        (means_of R.answers T.files ask.now) config.now.invocation_strategy) }
{
    match config.invocation_strategy {
        InvocationStrategy::Once => {
            configured_question(alloc, &config.run_build_script_command, dir.as_path(), ask)
        }
        InvocationStrategy::PerWorkspace => Ok(None),
    }
}

// What a build of its own gives each project.
fn run_each<R: Runner, T: Tree, P: Progress>(
    alloc: Global,
    projects: &[ProjectWorkspace],
    config: &CargoConfig,
    ask: &Ask<'_, R, T>,
    progress: &mut P,
) -> Result<Items<BuildResult>, AllocError>
    ensures outputs { IfOk result (λ each. GivesEach each (map
        (project_build config.now (means_of R.answers T.files ask.now)) projects.now)) }
    ensures lines { TakesLines (IsErr result) (P.lines progress.old) (P.lines progress.new)
        (flat_map (project_build_lines config.now (means_of R.answers T.files ask.now))
        projects.now) }
{
    let mut each = Vec::with_capacity(alloc, projects.len())?;
    for project in projects {
        each.push(run_one(alloc, project, config, ask, progress)?)?;
    }
    Ok(Items::new(each))
}

// What a build of its own gives a project.
fn run_one<R: Runner, T: Tree, P: Progress>(
    alloc: Global,
    project: &ProjectWorkspace,
    config: &CargoConfig,
    ask: &Ask<'_, R, T>,
    progress: &mut P,
) -> Result<BuildResult, AllocError>
    ensures outputs { IfOk result (λ given. Gives given
        (project_build config.now (means_of R.answers T.files ask.now) project.now)) }
    ensures lines { TakesLines (IsErr result) (P.lines progress.old) (P.lines progress.new)
        (project_build_lines config.now (means_of R.answers T.files ask.now) project.now) }
{
    match project.run_build_scripts(alloc, config, ask, progress) {
        Err(BuildError::OutOfMemory) => Err(AllocError),
        given => Ok(given),
    }
}

// What one build by this command gives each project.
fn run_once<R: Runner, P: Progress>(
    alloc: Global,
    projects: &[ProjectWorkspace],
    line: &CommandLine,
    runner: &R,
    progress: &mut P,
) -> Result<Items<BuildResult>, AllocError>
    ensures outputs { IfOk result (λ each. GivesEach each (map (λ p. kind_share
        (shared_build line.now (workspaces_of projects.now) (R.answers runner.now)) p.kind)
        projects.now)) }
    ensures lines { TakesLines (IsErr result) (P.lines progress.old) (P.lines progress.new)
        (shared_lines line.now (workspaces_of projects.now) (R.answers runner.now)) }
{
    let workspaces = workspaces_of(alloc, projects)?;
    let build = run_shared(alloc, line, workspaces.as_slice(), runner, progress)?;
    shares_of(alloc, &build, projects)
}

// One build of some workspaces.
fn run_shared<'a, R: Runner, P: Progress>(
    alloc: Global,
    line: &CommandLine,
    workspaces: &[&'a CargoWorkspace],
    runner: &R,
    progress: &mut P,
) -> Result<Result<SharedBuild<'a>, BuildError>, AllocError>
    ensures outputs { IfOk result (λ build. Gives build
        (shared_build line.now (lent_workspaces workspaces.now) (R.answers runner.now))) }
    ensures lines { TakesLines (IsErr result) (P.lines progress.old) (P.lines progress.new)
        (shared_lines line.now (lent_workspaces workspaces.now) (R.answers runner.now)) }
{
    match SharedBuild::run(alloc, line, workspaces, runner, progress) {
        Err(BuildError::OutOfMemory) => Err(AllocError),
        build => Ok(build),
    }
}

// The workspaces that a build of all projects covers.
fn workspaces_of<'a>(
    alloc: Global,
    projects: &'a [ProjectWorkspace],
) -> Result<Vec<&'a CargoWorkspace>, AllocError>
    ensures { IfOk result (λ workspaces. lent_workspaces workspaces.items
        ≡ workspaces_of projects.now) }
{
    let mut workspaces = Vec::with_capacity(alloc, projects.len())?;
    for project in projects {
        if let ProjectWorkspaceKind::Cargo { cargo, .. } = &project.kind {
            workspaces.push(cargo)?;
        }
    }
    Ok(workspaces)
}

// What a build of all gives each project.
fn shares_of(
    alloc: Global,
    build: &Result<SharedBuild<'_>, BuildError>,
    projects: &[ProjectWorkspace],
) -> Result<Items<BuildResult>, AllocError>
    ensures { IfOk result (λ each. each ≡ map (λ p. kind_share build.now p.kind) projects.now) }
{
    let mut each = Vec::with_capacity(alloc, projects.len())?;
    for project in projects {
        each.push(share_of(alloc, build, project)?)?;
    }
    Ok(Items::new(each))
}

// What a build of all gives a project.
fn share_of(
    alloc: Global,
    build: &Result<SharedBuild<'_>, BuildError>,
    project: &ProjectWorkspace,
) -> Result<BuildResult, AllocError>
    ensures { IfOk result (λ given. given ≡ kind_share build.now project.now.kind) }
{
    let ProjectWorkspaceKind::Cargo { cargo, .. } = &project.kind else {
        return Ok(Ok(WorkspaceBuildScripts::new(alloc)));
    };
    match build {
        Ok(build) => Ok(Ok(build.scripts_for(alloc, cargo)?)),
        Err(error) => Ok(Err(error.try_clone(alloc)?)),
    }
}
