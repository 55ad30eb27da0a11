//! Loading a JSON project: the project of its document, and what the compiler of its toolchain says.

ghost use Rattle.std.specs.Prelude.{◌≡◌, ◌∷◌, [], IfOk, IsErr, IsErrOf};
ghost use Rattle.pm_cargo_fetch.specs.Lines.{TakesLines};
ghost use Rattle.pm_json.specs.Queries.{project_base};
ghost use Rattle.pm_lower_load.specs.ToolAnswers.{compiler_answers};
ghost use Rattle.pm_lower_load.specs.JsonDocument as stated;
ghost use Rattle.pm_lower_load.specs.Loading.{Gives};
ghost use Rattle.pm_lower.specs.JsonProject as spec;
ghost use Rattle.pm_lower.specs.Lines.{lines_of_document, metadata_line, sysroot_line};
ghost use Rattle.pm_cargo_reading.specs.Reading as reading;
ghost use Rattle.pm_tools_ask.specs.Ask.{means_of};

use crate::cargo_project::{Settings, project_of, settings_of};
use crate::project_workspace::{ProjectWorkspace, ProjectWorkspaceKind};
use base_text::{Limits, ManifestPath, Progress, Runner, Tree};
use pm_cargo_config::CargoConfig;
use pm_cargo_reading::WorkspaceError;
use pm_json::ProjectJson;
use pm_lower_load::LoadError;
use pm_lower_load::json_document::{json_content, stated_sysroot};
use pm_lower_load::tool_answers::{ToolAnswers, ask_compiler};
use pm_tools_ask::{Ask, Sysroot};
use std::alloc::{AllocError, Global};

// The toolchain that a project states, and what its compiler says in the project's directory.
fn ask_stated<R: Runner, T: Tree, P: Progress>(
    alloc: Global,
    project: &ProjectJson,
    config: &CargoConfig,
    ask: &Ask<'_, R, T>,
    progress: &mut P,
) -> Result<(Sysroot, ToolAnswers), AllocError>
    ensures sysroot { IfOk result (λ said. said.0 ≡ stated.stated_sysroot project.now) }
    ensures answers { IfOk result (λ said. said.1 ≡ compiler_answers (stated.stated_sysroot project.now)
        (project_base project.now) config.now.target (means_of R.answers T.files ask.now)) }
    ensures lines { TakesLines (IsErr result) (P.lines progress.old) (P.lines progress.new)
        (sysroot_line ∷ metadata_line ∷ []) }
{
    progress.line("discovering sysroot");
    let sysroot = stated_sysroot(alloc, project)?;
    progress.line("querying project metadata");
    let answers = ask_compiler(alloc, &sysroot, project.project_root(), config, ask)?;
    Ok((sysroot, answers))
}

// A project with what the compiler of its toolchain says in its directory. It is refused for nothing but memory.
#[tactic(auto, unfolding(crate::specs::JsonProject::inline_project))]
fn inline_project<R: Runner, T: Tree, P: Progress>(
    alloc: Global,
    project: ProjectJson,
    settings: Settings,
    config: &CargoConfig,
    ask: &Ask<'_, R, T>,
    progress: &mut P,
) -> Result<ProjectWorkspace, WorkspaceError>
    requires { settings ≡ record {
      cfg_overrides = config.now.cfg_overrides;
      extra_includes = config.now.extra_includes;
      set_test = config.now.set_test;
    } }
    ensures project { reading.Gives result
        (spec.inline_project project config.now (means_of R.answers T.files ask.now)) }
    ensures lines { TakesLines (IsErrOf result WorkspaceError.OutOfMemory)
        (P.lines progress.old) (P.lines progress.new) (sysroot_line ∷ metadata_line ∷ []) }
{
    let (sysroot, answers) = ask_stated(alloc, &project, config, ask, progress)?;
    let kind = ProjectWorkspaceKind::Json(project);
    Ok(project_of(sysroot, settings, answers, kind))
}

/// The project of a document's path.
#[tactic(auto, unfolding(crate::specs::JsonProject::json_project))]
pub(crate) fn json_project<R: Runner, T: Tree, P: Progress>(
    alloc: Global,
    path: &ManifestPath,
    config: &CargoConfig,
    limits: &Limits,
    ask: &Ask<'_, R, T>,
    progress: &mut P,
) -> Result<ProjectWorkspace, LoadError>
    ensures project { Gives result (spec.json_project path.now config.now limits.now
        (means_of R.answers T.files ask.now)) }
    ensures lines { TakesLines (IsErrOf result LoadError.OutOfMemory)
        (P.lines progress.old) (P.lines progress.new)
        (lines_of_document (stated.json_content path.now limits.now (T.files ask.now.tree.now))) }
{
    let settings = settings_of(alloc, config)?;
    let project = json_content(alloc, path, limits, ask.tree)?;
    Ok(inline_project(alloc, project, settings, config, ask, progress)?)
}
