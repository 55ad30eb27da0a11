//! A graph of crates, and what is done with it.

use anyhow::{Result, bail};
use base_text_paths::{AbsPathBuf, CfgOptions, Edition, FileId, Text};
use crate_graph::CrateGraphBuilder;
use crate_graph_values::target::TargetLoadError;
use crate_graph_values::{
    CrateBuilderId, CrateName, CrateOrigin, CrateWorkspaceData, Dependency, Env, LangCrateOrigin,
    ProcMacroPaths, TargetKind,
};
use input_db::{CratesIdMap, InputDb, Nonce, set_in_db};
use std::alloc::{AllocError, Global};
use std::rc::Rc;

/// Builds a graph, and counts the crates that its first one reaches, those of the graph that an equal one is merged
/// into, or those of the database that it is set in.
pub fn build(
    alloc: Global,
    step: &str,
    count: u32,
    files: u32,
    pairs: &[[u32; 2]],
) -> Result<usize> {
    let graph = graph_of(alloc, count, files, pairs)?;
    match step {
        "add" => count_reached(alloc, &graph),
        "merge" => merge(alloc, graph, graph_of(alloc, count, files, pairs)?),
        "set" => Ok(set(alloc, graph)?.len()),
        _ => bail!("no such step"),
    }
}

// A graph of so many crates that have so many root files, at least one, each pair a dependency.
fn graph_of(
    alloc: Global,
    count: u32,
    files: u32,
    pairs: &[[u32; 2]],
) -> Result<Box<CrateGraphBuilder>> {
    let mut graph = Box::new(alloc, CrateGraphBuilder::new(alloc, count))?;
    let files = files.clamp(1, 0x7fff_ffff);
    for number in 0..count {
        add_crate(alloc, &mut graph, FileId::from_raw(number % files))?;
    }
    for [from, to] in pairs {
        add_dependency(alloc, &mut graph, *from, *to)?;
    }
    Ok(graph)
}

fn add_crate(alloc: Global, graph: &mut CrateGraphBuilder, file: FileId) -> Result<()> {
    let target = Err(TargetLoadError(Text::of_str(alloc, "no rustc")?));
    let workspace = CrateWorkspaceData {
        target,
        toolchain: None,
    };
    let workspace = Rc::new(alloc, workspace)?;
    let Ok(directory) = AbsPathBuf::new(alloc, "/w") else {
        bail!("no directory");
    };
    graph.add_crate_root(
        file,
        Edition::CURRENT,
        None,
        None,
        CfgOptions::new(alloc),
        None,
        Env::new(alloc),
        CrateOrigin::Lang(LangCrateOrigin::Core),
        Vec::new(alloc),
        TargetKind::Bin,
        directory,
        workspace,
    )?;
    Ok(())
}

fn add_dependency(alloc: Global, graph: &mut CrateGraphBuilder, from: u32, to: u32) -> Result<()> {
    let name = CrateName::normalize_dashes(alloc, "dep")?;
    let (from, to) = (CrateBuilderId::from_raw(from), CrateBuilderId::from_raw(to));
    if !graph.contains(from) || !graph.contains(to) {
        bail!("no such crate");
    }
    graph.add_dep(from, Dependency::new(name, to))?;
    Ok(())
}

fn count_reached(alloc: Global, graph: &CrateGraphBuilder) -> Result<usize> {
    let first = CrateBuilderId::from_raw(0);
    if !graph.contains(first) {
        return Ok(0);
    }
    Ok(graph.transitive_deps(alloc, first)?.len())
}

fn merge(
    alloc: Global,
    mut graph: Box<CrateGraphBuilder>,
    other: Box<CrateGraphBuilder>,
) -> Result<usize> {
    graph.extend(
        alloc,
        Box::into_inner(other),
        &mut ProcMacroPaths::new(alloc),
    )?;
    Ok(graph.len())
}

fn set(alloc: Global, graph: Box<CrateGraphBuilder>) -> Result<CratesIdMap, AllocError> {
    let mut db = InputDb::new(alloc, Nonce::invalid());
    set_in_db(alloc, Box::into_inner(graph), &mut db)
}
