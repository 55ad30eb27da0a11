//! Loading a project by the kind of its manifest.

ghost use Rattle.std.specs.Prelude.{IfErr, IfOk, IsErrOf};
ghost use Rattle.pm_cargo_fetch.specs.Lines.{TakesLines};
ghost use Rattle.pm_lower_load.specs.Loading.{Gives, NamesDocumentLimit};
ghost use Rattle.pm_lower.specs.Lines.{load_lines};
ghost use Rattle.pm_lower.specs.ReadProject.{IsPlain, read_project};
ghost use Rattle.pm_lower.specs.Small.{IsSmall};
ghost use Rattle.pm_tools_ask.specs.Ask.{means_of};

use crate::cargo_project::cargo_project;
use crate::detached_project::detached_project;
use crate::json_project::json_project;
use crate::project_workspace::ProjectWorkspace;
use base_text::{Limits, Progress, Runner, Tree};
use pm_cargo_config::CargoConfig;
use pm_lower_load::LoadError;
use pm_tools_ask::{Ask, ProjectManifest, Sysroot};
use std::alloc::Global;

impl ProjectWorkspace {
    /// Loads the project of a manifest. A refusal names no other limit than those of packages, targets and crates, and a
    /// project has no more roots than these allow. `progress` takes a line for each part of a project of cargo and of a JSON
    /// project, and those of fetching the metadata; it takes none for a detached file.
    pub fn load<R: Runner, T: Tree, P: Progress>(
        alloc: Global,
        manifest: &ProjectManifest,
        config: &CargoConfig,
        limits: &Limits,
        ask: &Ask<'_, R, T>,
        progress: &mut P,
    ) -> Result<ProjectWorkspace, LoadError>
        requires { IsPlain config.now (means_of R.answers T.files ask.now) }
        ensures project { Gives result (read_project manifest.now config.now limits.now
            (means_of R.answers T.files ask.now)) }
        ensures limits { IfErr result NamesDocumentLimit }
        ensures small { IfOk result (IsSmall limits.now) }
        ensures lines { TakesLines (IsErrOf result LoadError.OutOfMemory)
            (P.lines progress.old) (P.lines progress.new)
            (load_lines manifest.now config.now limits.now (means_of R.answers T.files ask.now)) }
    {
        match manifest {
            ProjectManifest::ProjectJson(path) => {
                json_project(alloc, path, config, limits, ask, progress)
            }
            ProjectManifest::CargoToml(path) => {
                cargo_project(alloc, Sysroot::empty(), path, config, limits, ask, progress)
            }
            ProjectManifest::CargoScript(file) => {
                let sysroot = Sysroot::empty();
                Ok(detached_project(alloc, sysroot, file, config, limits, ask)?)
            }
        }
    }
}
