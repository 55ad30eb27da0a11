//! A detached file as the crates of a graph.

ghost use Rattle.std.specs.Prelude.{◌≡◌, IfErr, IfOk, OnOk, length, map, ◌++◌, ◌∷◌, []};
ghost use Rattle.std.specs.Option.{option_copied, option_map};
ghost use Rattle.crate_graph_values.specs.Names.{shown_as};
ghost use Rattle.pm_lower_crates.specs.DetachedLowering.{detached_rows, file_crate, file_part, name_of_file};
ghost use Rattle.pm_lower_crates.specs.Facts.{facts_of};
ghost use Rattle.pm_lower_crates.specs.Lowering.{IsLoweredBehind, LacksCyclesAlone, crate_seen, lowered_behind, wanted_edges};
ghost use Rattle.pm_lower_crates.specs.Refusal.{IfTooMany};

use crate::columns::cfgs_of;
use crate::facts::CrateFacts;
use crate::front::Front;
use crate::keeping::keep_edges;
use crate::loader::Loader;
use crate::lower_error::LowerError;
use crate::lowering::lower_cargo;
use crate::public_edges::add_public;
use base_text_paths::{Edition, FileId, ManifestPath, Symbol};
use crate_graph::CrateGraphBuilder;
use crate_graph_values::{CrateDisplayName, CrateOrigin, Env, TargetKind};
use pm_cargo::{BuildOutputs, CargoWorkspace};
use std::alloc::{AllocError, Global};

/// The graph of a front, and behind it a file's crates by what is known of them. Where Cargo reads the file as a
/// project they are those of that project alone, and else the one of the file, where it is live.
pub fn lower_detached<L: Loader, O: BuildOutputs>(
    alloc: Global,
    front: Front,
    file: &ManifestPath,
    cargo: Option<&CargoWorkspace>,
    facts: &CrateFacts<'_, O>,
    loader: &mut L,
) -> Result<CrateGraphBuilder, LowerError>
    ensures lowers { IsLoweredBehind front.graph result (lowered_behind
        front.graph.limit (length front.graph.crates) (detached_rows (L.files loader.old)
        (facts_of O.output_at O.is_failed facts.now) front.public
        (length front.graph.crates) file.now (option_copied cargo.entry))) }
    ensures missing { IfOk result (λ graph. LacksCyclesAlone (wanted_edges
        (detached_rows (L.files loader.old) (facts_of O.output_at O.is_failed facts.now)
        front.public (length front.graph.crates) file.now (option_copied cargo.entry)))
        graph.crates) }
    ensures loader { L.files loader.new ≡ L.files loader.old }
{
    match cargo {
        Some(cargo) => lower_cargo(alloc, front, cargo, facts, loader),
        None => {
            let number = loader.load(alloc, file.as_path())?;
            graph_of(alloc, front, file, number, facts)
        }
    }
}

// The same of a file alone, which is live under a number, if it has one.
fn graph_of<O: BuildOutputs>(
    alloc: Global,
    front: Front,
    file: &ManifestPath,
    number: Option<FileId>,
    facts: &CrateFacts<'_, O>,
) -> Result<CrateGraphBuilder, LowerError>
    ensures lowers { IsLoweredBehind front.graph result (lowered_behind
        front.graph.limit (length front.graph.crates) (file_part
        (facts_of O.output_at O.is_failed facts.now) front.public
        (length front.graph.crates) file.now number)) }
    ensures missing { IfOk result (λ graph. LacksCyclesAlone (wanted_edges
        (file_part (facts_of O.output_at O.is_failed facts.now) front.public
        (length front.graph.crates) file.now number)) graph.crates) }
{
    let source = front.size();
    let (mut graph, public) = front.into_parts();
    let mut edges = Vec::new(alloc);
    if let Some(number) = number {
        add_crate(alloc, &mut graph, file, number, facts)?;
        add_public(alloc, &public, source, &mut edges)?;
    }
    keep_edges(&mut graph, edges)?;
    Ok(graph)
}

// The name of the crate of a file: the file's name but for its extension.
fn name_of(alloc: Global, file: &ManifestPath) -> Result<Option<Symbol>, AllocError>
    ensures { IfOk result (λ name. name ≡ name_of_file file.now) }
{
    match file.as_path().file_stem() {
        Some(stem) => Ok(Some(Symbol::of_str(alloc, stem)?)),
        None => Ok(None),
    }
}

// Puts the crate of a file into the graph.
#[tactic(auto, unfolding(crate::specs::DetachedLowering::file_columns))]
fn add_crate<O: BuildOutputs>(
    alloc: Global,
    graph: &mut CrateGraphBuilder,
    file: &ManifestPath,
    number: FileId,
    facts: &CrateFacts<'_, O>,
) -> Result<(), LowerError>
    ensures limit { OnOk result (graph.new.limit ≡ graph.old.limit) }
    ensures added { OnOk result (map crate_seen graph.new.crates ≡ map crate_seen graph.old.crates
        ++ file_crate (facts_of O.output_at O.is_failed facts.now) file.now number ∷ []) }
    ensures room { OnOk result (length graph.old.crates ≡ graph.old.limit → ⊥) }
    ensures full { IfErr result (λ e. IfTooMany e
        (length graph.old.crates ≡ graph.old.limit)) }
{
    let name = name_of(alloc, file)?;
    let display_name = display_name_of(alloc, &name)?;
    let directory = file.parent().to_path_buf(alloc)?;
    let shared = facts.shared.clone()?;
    let cfgs = cfgs_of(alloc, facts, "")?;
    graph.add_crate_root(
        number,
        Edition::CURRENT,
        display_name,
        None,
        cfgs,
        None,
        Env::new(alloc),
        CrateOrigin::Local { repo: None, name },
        Vec::new(alloc),
        TargetKind::Lib {
            is_proc_macro: false,
        },
        directory,
        shared,
    )?;
    Ok(())
}

// The names under which a crate of a name is shown.
fn display_name_of(
    alloc: Global,
    name: &Option<Symbol>,
) -> Result<Option<CrateDisplayName>, AllocError>
    ensures { IfOk result (λ shown. shown ≡ option_map shown_as name.now) }
{
    match name {
        Some(name) => Ok(Some(CrateDisplayName::from_canonical_name(alloc, name.as_str())?)),
        None => Ok(None),
    }
}
