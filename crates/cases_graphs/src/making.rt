//! Graphs of crates as cases give them: puts in the crates and edges of a case.

use base_text::{
    AbsPathBuf, CfgAtom, CfgOptions, Edition, FileId, Symbol, Text, Version as ToolchainVersion,
};
use cases::{Case, Fault, absolute};
use crate_graph::{
    AddDepError, CrateBuilderId, CrateDisplayName, CrateGraphBuilder, CrateName, CrateOrigin,
    CrateWorkspaceData, Dependency, Env, GraphError, LangCrateOrigin, TargetKind,
};
use crate_graph_values::target::TargetLoadError;
use semver::Version;
use serde_json::Value;
use std::alloc::{AllocError, Global};
use std::rc::Rc;

/// What crates of cases differ in, and what their directory and workspace are.
#[derive(Drop)]
struct Parts {
    name: Option<CrateDisplayName>,
    cfgs: CfgOptions,
    env: Env,
    directory: AbsPathBuf,
    workspace: Rc<CrateWorkspaceData>,
}

/// Puts a crate in: its root file, its name, one flag, the value of its variable `K`, and the version of its toolchain.
pub fn add(
    alloc: Global,
    graph: &mut CrateGraphBuilder,
    krate: Case<'_>,
) -> Result<Result<CrateBuilderId, GraphError>, Fault> {
    let Parts {
        name,
        cfgs,
        env,
        directory,
        workspace,
    } = parts_of(alloc, krate)?;
    Ok(graph.add_crate_root(
        FileId::from_raw(krate.of("file").as_file_number()),
        Edition::Edition2021,
        name,
        None,
        cfgs,
        None,
        env,
        CrateOrigin::Lang(LangCrateOrigin::Core),
        Vec::new(alloc),
        TargetKind::Bin,
        directory,
        workspace,
    ))
}

fn parts_of(alloc: Global, krate: Case<'_>) -> Result<Parts, Fault> {
    Ok(Parts {
        directory: absolute(alloc, "/w")?,
        workspace: workspace(alloc, krate.optional_text("toolchain"))?,
        env: env_of(alloc, krate.optional_text("value"))?,
        cfgs: cfgs_of(alloc, krate.optional_text("flag"))?,
        name: name_of(alloc, krate.optional_text("name"))?,
    })
}

fn workspace(alloc: Global, version: Option<&str>) -> Result<Rc<CrateWorkspaceData>, Fault> {
    let toolchain = toolchain(alloc, version)?;
    let target = Err(TargetLoadError(Text::of_str(alloc, "no rustc")?));
    Ok(Rc::new(alloc, CrateWorkspaceData { target, toolchain })?)
}

/// A toolchain of a version, if there is one.
pub fn toolchain(alloc: Global, version: Option<&str>) -> Result<Option<ToolchainVersion>, Fault> {
    let Some(text) = version else {
        return Ok(None);
    };
    match Version::parse(alloc, text) {
        Ok(version) => Ok(Some(ToolchainVersion::new(version))),
        Err(_) => Err(Fault::Member("toolchain")),
    }
}

fn name_of(alloc: Global, name: Option<&str>) -> Result<Option<CrateDisplayName>, AllocError> {
    match name {
        Some(name) => Ok(Some(CrateDisplayName::from_canonical_name(alloc, name)?)),
        None => Ok(None),
    }
}

fn cfgs_of(alloc: Global, flag: Option<&str>) -> Result<CfgOptions, AllocError> {
    let mut cfgs = CfgOptions::new(alloc);
    if let Some(flag) = flag {
        cfgs.insert_atom(CfgAtom::Flag(Symbol::of_str(alloc, flag)?))?;
    }
    Ok(cfgs)
}

fn env_of(alloc: Global, value: Option<&str>) -> Result<Env, AllocError> {
    let mut env = Env::new(alloc);
    if let Some(value) = value {
        let value = String::from_str(alloc, value)?;
        env.set(String::from_str(alloc, "K")?, value)?;
    }
    Ok(env)
}

/// A graph of crates with edges, none of which may be refused. It takes 100 crates where the case gives no limit.
pub fn graph_of(alloc: Global, given: Case<'_>) -> Result<Box<CrateGraphBuilder>, Fault> {
    let limit = given.find("limit").and_then(Value::as_u64).unwrap_or(100);
    let mut graph = Box::new(alloc, CrateGraphBuilder::new(alloc, limit.min(100) as u32))?;
    fill(alloc, &mut graph, given)?;
    Ok(graph)
}

fn fill(alloc: Global, graph: &mut CrateGraphBuilder, given: Case<'_>) -> Result<(), Fault> {
    for krate in given.list("crates") {
        if add(alloc, graph, given.with(krate))?.is_err() {
            return Err(Fault::Condition);
        }
    }
    fill_edges(alloc, graph, given)
}

fn fill_edges(alloc: Global, graph: &mut CrateGraphBuilder, given: Case<'_>) -> Result<(), Fault> {
    for edge in given.list("edges") {
        if depend(alloc, graph, given.with(edge))?.is_err() {
            return Err(Fault::Condition);
        }
    }
    Ok(())
}

/// Adds the edge of a pair of numbers.
pub fn depend(
    alloc: Global,
    graph: &mut CrateGraphBuilder,
    edge: Case<'_>,
) -> Result<Result<(), AddDepError>, Fault> {
    let from = CrateBuilderId::from_raw(edge.at(0).as_u32());
    let to = CrateBuilderId::from_raw(edge.at(1).as_u32());
    depend_on(alloc, graph, from, to)
}

/// Lets a crate depend on another under the name `dep`.
pub fn depend_on(
    alloc: Global,
    graph: &mut CrateGraphBuilder,
    from: CrateBuilderId,
    to: CrateBuilderId,
) -> Result<Result<(), AddDepError>, Fault> {
    let name = CrateName::normalize_dashes(alloc, "dep")?;
    if graph.contains(from) && graph.contains(to) {
        return Ok(graph.add_dep(from, Dependency::new(name, to)));
    }
    Err(Fault::Condition)
}
