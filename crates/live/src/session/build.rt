//! Giving the project what a build of it wrote.

ghost use Rattle.std.specs.Prelude.{◌≡◌, ◌⊎◌, IfErr, IfOk, OnErr, OnOk, Err, Ok, Some};
ghost use Rattle.live.specs.Marked.{BuildsProject, FailsBuild};
ghost use Rattle.live.specs.Session.{project_after_build};
ghost use Rattle.live_script.specs.declared.fault.LiveError.TheVariants.{OutOfMemory};

use crate::session::Live;
use base_text::{Output, Shared};
use live_project::Project;
use live_script::LiveError;
use std::alloc::Global;
use std::rc::Rc;

// The project after a build of it whose command wrote this.
fn built_project(
    alloc: Global,
    project: &Option<Shared<Project>>,
    output: &Output,
) -> Result<Shared<Project>, LiveError>
    ensures ok { IfOk result (λ built. project_after_build project.now output.now ≡ Ok built) }
    ensures refused { IfErr result (λ e. (e ≡ OutOfMemory)
        ⊎ (project_after_build project.now output.now ≡ Err e)) }
{
    match project {
        None => Err(LiveError::NoCargoProject),
        Some(project) => build_of(alloc, project.get(), output),
    }
}

// A project after a build of it, where it has a Cargo workspace.
fn build_of(alloc: Global, project: &Project, output: &Output) -> Result<Shared<Project>, LiveError>
    ensures ok { IfOk result (λ built.
        project_after_build (Some project.now) output.now ≡ Ok built) }
    ensures refused { IfErr result (λ e. (e ≡ OutOfMemory)
        ⊎ (project_after_build (Some project.now) output.now ≡ Err e)) }
{
    if !project.has_cargo_workspace() {
        return Err(LiveError::NoCargoProject);
    }
    let built = project.build(alloc, output)?;
    let built = Rc::new(alloc, built)?;
    Ok(Shared::new(built))
}

impl Live {
    // Gives the project what a build of it wrote, in place of what an earlier build gave. A build that is refused changes nothing, and
    // neither the last flush nor a project that is loaded later has it.
    pub(crate) fn build(&mut self, alloc: Global, output: &Output) -> Result<(), LiveError>
        ensures ok { OnOk result (BuildsProject self.old self.new output.now) }
        ensures refused { IfErr result (FailsBuild self.old output.now) }
        ensures err { OnErr result (self.new ≡ self.old) }
    {
        let project = built_project(alloc, &self.project, output)?;
        self.project = Some(project);
        Ok(())
    }
}
