//! The graph of a project's crates.

ghost use Rattle.std.specs.Prelude.{◌≡◌, length, IfOk};
ghost use Rattle.pm_lower.specs.ToCrateGraph.{IsGraphOf, facts_with, kind_in_sysroot, kind_rows, macros_given, project_lowering, shared_of};
ghost use Rattle.pm_lower.specs.ToRoots.{HasNoRustc};
ghost use Rattle.pm_lower_crates.specs.Facts.{facts_of};
ghost use Rattle.pm_lower_crates.specs.Lowering.{IsLowered, IsLoweredBehind, LacksCyclesAlone, lowered, lowered_behind, no_project_part, wanted_edges};
ghost use Rattle.pm_lower_crates.specs.WantedEdges.{no_public};
ghost use Rattle.pm_tools_ask.specs.Ask.{means_of};

use crate::project_workspace::{ProjectWorkspace, ProjectWorkspaceKind, script_workspace};
use base_text::{Items, Limits, Runner, Tree, TryClone};
use crate_graph::CrateGraphBuilder;
use crate_graph_values::{CrateWorkspaceData, ProcMacroPaths};
use pm_cargo::BuildOutputs;
use pm_cargo_config::CfgOverrides;
use pm_lower_crates::{
    CrateFacts, Front, Loader, LowerError, lower_cargo, lower_detached, lower_json,
};
use pm_lower_load::tool_answers::copy_target;
use pm_tools::WorkspaceBuildScripts;
use pm_tools_ask::Ask;
use std::alloc::{AllocError, Global};
use std::collections::BTreeMap;
use std::rc::Rc;

// What all crates of a project share.
fn shared_of(alloc: Global, project: &ProjectWorkspace) -> Result<CrateWorkspaceData, AllocError>
    ensures { IfOk result (λ shared. shared ≡ shared_of project.now) }
{
    Ok(CrateWorkspaceData {
        target: copy_target(alloc, &project.target)?,
        toolchain: project.toolchain.try_clone(alloc)?,
    })
}

// Whether a kind of project is a toolchain's libraries.
fn in_sysroot(kind: &ProjectWorkspaceKind) -> bool
    ensures { result ≡ kind_in_sysroot kind.now }
{
    match kind {
        ProjectWorkspaceKind::Cargo { cargo, .. } => cargo.is_sysroot(),
        ProjectWorkspaceKind::Json(_) => false,
        ProjectWorkspaceKind::DetachedFile { cargo, .. } => match script_workspace(cargo) {
            Some(cargo) => cargo.is_sysroot(),
            None => false,
        },
    }
}

// The graph of a front, and behind it the crates of a kind of project by what is known of them.
fn kind_graph<L: Loader, O: BuildOutputs>(
    alloc: Global,
    front: Front,
    kind: &ProjectWorkspaceKind,
    facts: &CrateFacts<'_, O>,
    loader: &mut L,
) -> Result<CrateGraphBuilder, LowerError>
    ensures lowers { IsLoweredBehind front.graph result (lowered_behind
        front.graph.limit (length front.graph.crates) (kind_rows (L.files loader.old)
        (facts_of O.output_at O.is_failed facts.now) front.public
        (length front.graph.crates) kind.now)) }
    ensures missing { IfOk result (λ graph. LacksCyclesAlone (wanted_edges
        (kind_rows (L.files loader.old) (facts_of O.output_at O.is_failed facts.now)
        front.public (length front.graph.crates) kind.now)) graph.crates) }
    ensures loader { L.files loader.new ≡ L.files loader.old }
{
    match kind {
        ProjectWorkspaceKind::Cargo { cargo, .. } => {
            lower_cargo(alloc, front, cargo, facts, loader)
        }
        ProjectWorkspaceKind::Json(project) => lower_json(alloc, front, project, facts, loader),
        ProjectWorkspaceKind::DetachedFile { file, cargo } => {
            lower_detached(alloc, front, file, script_workspace(cargo), facts, loader)
        }
    }
}

impl ProjectWorkspace {
    /// The graph of the project's crates whose root files the loader has. A project of cargo has one for each target, unless
    /// it is a program, a test, an example, a benchmark or a build script of a package that is no member; a JSON project one
    /// for each of its crates; and a detached file those of the project that cargo reads it as, or else itself. No crate has
    /// a library of procedural macros. What is known of a toolchain by its answers stays empty, whatever is answered.
    pub fn to_crate_graph<L: Loader, R: Runner, T: Tree>(
        &self,
        alloc: Global,
        loader: &mut L,
        limits: &Limits,
        _ask: &Ask<'_, R, T>,
    ) -> Result<(CrateGraphBuilder, ProcMacroPaths), LowerError>
        requires { HasNoRustc self.now }
        ensures lowers { IsGraphOf limits.now.crates result (project_lowering
            (L.files loader.old) limits.now.crates (means_of R.answers T.files _ask.now)
            self.now).crates }
        ensures missing { IfOk result (λ found. LacksCyclesAlone (project_lowering
            (L.files loader.old) limits.now.crates (means_of R.answers T.files _ask.now)
            self.now).wants found.0.crates) }
        ensures macros { IfOk result (λ found. macros_given found.1 ≡ (project_lowering
            (L.files loader.old) limits.now.crates (means_of R.answers T.files _ask.now)
            self.now).macros) }
        ensures loader { L.files loader.new ≡ L.files loader.old }
    {
        let shared = Rc::new(alloc, shared_of(alloc, self)?)?;
        let graph = project_graph(alloc, &self.kind, &shared, loader, limits)?;
        Ok((graph, BTreeMap::new(alloc)))
    }
}

// The graph of the crates of a kind of project, which share what is known of the machine and the toolchain. Nothing else
// is known of them yet.
fn project_graph<L: Loader>(
    alloc: Global,
    kind: &ProjectWorkspaceKind,
    shared: &Rc<CrateWorkspaceData>,
    loader: &mut L,
    limits: &Limits,
) -> Result<CrateGraphBuilder, LowerError>
    ensures lowers { IsLowered limits.now.crates result (lowered limits.now.crates no_project_part 0
        (kind_rows (L.files loader.old) (facts_with shared.now.value kind.now)
        no_public 0 kind.now)) }
    ensures missing { IfOk result (λ graph. LacksCyclesAlone (wanted_edges
        (kind_rows (L.files loader.old) (facts_with shared.now.value kind.now)
        no_public 0 kind.now)) graph.crates) }
    ensures loader { L.files loader.new ≡ L.files loader.old }
{
    let atoms = Items::empty(alloc);
    let overrides = CfgOverrides::new(alloc);
    let outputs = WorkspaceBuildScripts::new(alloc);
    let facts = CrateFacts {
        atoms: &atoms,
        overrides: &overrides,
        set_test: false,
        cargo: "",
        outputs: &outputs,
        shared,
        in_sysroot: in_sysroot(kind),
    };
    let front = Front::empty(alloc, limits.crates);
    kind_graph(alloc, front, kind, &facts, loader)
}
