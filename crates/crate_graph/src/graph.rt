//! A graph of crates that is being built. No crate depends on itself, over whatever others.

ghost use Rattle.std.specs.Prelude.{◌≡◌, ◌↔◌, ◌+◌, ◌<◌, ◌≤◌, ◌^◌, [], ◌∷◌, ◌++◌, Some, length, map};
ghost use Rattle.std.specs.Prelude.{IfOk, IsErrOf, OnErr, OnOk, IsTrue, slice_get, slice_index, string_bytes};
ghost use Rattle.std.specs.Iterator.{YieldsFirstBy, item_count};
ghost use Rattle.std.specs.List.{range_with_len};
ghost use Rattle.std.specs.Option.{option_map};
ghost use Rattle.base_text_paths.specs.Arena.{number_of};
ghost use Rattle.crate_graph_values.specs.Builder.{crate_of_parts};
ghost use Rattle.crate_graph.specs.Graph.{AddsCrate, IsWellMadeGraph, attribute, edges};
ghost use Rattle.crate_graph.specs.Order.{IsOrderOf, empty_order, with_next_node};
ghost use Rattle.std.specs.Vec.{vec_capacity, vec_len};

mod add_dep;
mod copies;
mod extend;
mod prune;
mod reach;
mod renaming;

use crate::insertion::Marks;
use crate::order::Order;
use base_text_paths::{AbsPathBuf, CfgOptions, Edition, FileId, Items, Shared, Text};
use crate_graph_values::{
    CrateBuilder, CrateBuilderId, CrateData, CrateDisplayName, CrateOrigin, CrateWorkspaceData,
    Env, ExtraCrateData, TargetKind,
};
use graph_base::Graph;
use std::alloc::{AllocError, Global};
use std::error::Error;
use std::fmt;
use std::marker::Model;
use std::ops::Index;
use std::rc::Rc;

/// Why a graph takes no more crates.
#[derive(Clone, Copy, Debug, PartialEq, Eq)]
pub enum GraphError {
    /// The graph has as many crates as its limit.
    TooMany,
    OutOfMemory,
}

impl fmt::Display for GraphError {
    ghost use Rattle.crate_graph.specs.GraphError.{graph_error_text};

    ghost output = { λ error. Some (graph_error_text error) };

    fn fmt<W: fmt::Write>(&self, f: &mut fmt::Formatter<W>) -> fmt::Result {
        match self {
            GraphError::TooMany => f.write_str("TooMany"),
            GraphError::OutOfMemory => f.write_str("OutOfMemory"),
        }
    }
}

impl Error for GraphError {}

impl From<AllocError> for GraphError {
    ghost use Rattle.crate_graph.specs.declared.graph.GraphError.TheVariants.{OutOfMemory};

    ghost from_gives = { λ _ e. e ≡ OutOfMemory };

    fn from(_error: AllocError) -> Self {
        GraphError::OutOfMemory
    }
}

/// The crates of a project, each under its number, and what each depends on.
#[derive(Drop)]
pub struct CrateGraphBuilder {
    crates: Vec<CrateBuilder>,
    order: Order,
    // Of the searches for room, one after the other.
    marks: Marks,
    limit: u32,
}

impl Model for CrateGraphBuilder {
    ghost use Rattle.crate_graph.specs.Graph as seen;

    ghost Value = { seen.Graph };

    ghost view = { λ a. record { limit = a.limit; crates = a.crates.items; order = a.order } };

    ghost invariant = { λ a. seen.IsRanked
        (record { limit = a.limit; crates = a.crates.items; order = a.order }) };
}

impl CrateGraphBuilder {
    /// A graph with no crates, which takes as many as the limit.
    pub fn new(alloc: Global, limit: u32) -> Self
        ensures limit { result.limit ≡ limit }
        ensures crates { result.crates ≡ [] }
        ensures order { result.order ≡ empty_order }
    {
        CrateGraphBuilder {
            crates: Vec::new(alloc),
            order: Order::new(alloc),
            marks: Marks::new(alloc),
            limit,
        }
    }

    /// How many crates there are. Every graph is acyclic and within its limit, and its paths are clean.
    pub fn len(&self) -> usize
        ensures length { result ≡ length self.now.crates }
        ensures well_made { IsWellMadeGraph self.now.crates self.now.limit }
    {
        self.crates.len()
    }

    /// Whether the graph has a crate of a number.
    pub fn contains(&self, id: CrateBuilderId) -> bool
        ensures { IsTrue result ↔ (number_of id < length self.now.crates) }
    {
        (id.into_raw() as usize) < self.crates.len()
    }

    /// The rank of a crate. The ranks are the numbers below the number of crates, each once, and a crate has
    /// a higher rank than each that it depends on.
    pub fn rank(&self, id: CrateBuilderId) -> u32
        requires { number_of id < length self.now.crates }
        ensures rank { result ≡ slice_index self.now.order.ranks (number_of id) }
        ensures order { IsOrderOf self.now.order (edges self.now.crates) }
    {
        self.order.rank(id.into_raw())
    }

    /// The numbers of the crates, in order.
    pub fn iter(&self) -> CrateIds
        ensures { result ≡ range_with_len 0 (length self.now.crates) }
    {
        CrateIds {
            next: 0,
            end: self.crates.len() as u32,
        }
    }

    /// Gives back the memory that is not needed. Nothing else changes.
    pub fn shrink_to_fit(&mut self)
        ensures { self.new ≡ self.old }
    {
        self.crates.shrink_to_fit();
    }

    /// Puts a crate in that depends on nothing yet, under the next number and with the highest rank. Each
    /// attribute is given without its `#![]`.
    pub fn add_crate_root(
        &mut self,
        root_file_id: FileId,
        edition: Edition,
        display_name: Option<CrateDisplayName>,
        version: Option<String>,
        cfg_options: CfgOptions,
        potential_cfg_options: Option<CfgOptions>,
        env: Env,
        origin: CrateOrigin,
        crate_attrs: Vec<String>,
        target_kind: TargetKind,
        proc_macro_cwd: AbsPathBuf,
        ws_data: Rc<CrateWorkspaceData>,
    ) -> Result<CrateBuilderId, GraphError>
        ensures next { IfOk result (λ id. number_of id ≡ length self.old.crates) }
        ensures added { OnOk result (AddsCrate self.old self.new (crate_of_parts (record {
          root_file_id = root_file_id;
          edition = edition;
          dependencies = [];
          origin = origin;
          crate_attrs = map (λ text. attribute (string_bytes text)) crate_attrs.items;
          target_kind = target_kind;
          proc_macro_cwd = proc_macro_cwd;
        }) (record {
          version = option_map string_bytes version;
          display_name = display_name;
          potential_cfg_options = potential_cfg_options;
        }) cfg_options env ws_data.value)) }
        ensures unchanged { OnErr result (self.new ≡ self.old) }
        ensures too_many { IsErrOf result GraphError.TooMany
            ↔ (length self.old.crates ≡ self.old.limit) }
    {
        let crate_attrs = make_room(&mut self.crates, &mut self.order, self.limit, crate_attrs)?;
        let alloc = *self.crates.allocator();
        let basic = CrateData {
            root_file_id,
            edition,
            dependencies: Items::empty(alloc),
            origin,
            crate_attrs,
            target_kind,
            proc_macro_cwd,
        };
        let extra = ExtraCrateData {
            version: version.map(Text::new),
            display_name,
            potential_cfg_options,
        };
        let ws_data = Shared::new(ws_data);
        let krate = CrateBuilder::new(basic, extra, cfg_options, env, ws_data);
        let id = CrateBuilderId::from_raw(self.crates.len() as u32);
        put(&mut self.crates, krate);
        Ok(id)
    }
}

// Makes room for one more crate within the limit, ranks it above the others, and gives its attributes.
fn make_room(
    crates: &mut Vec<CrateBuilder>,
    order: &mut Order,
    limit: u32,
    crate_attrs: Vec<String>,
) -> Result<Items<Text>, GraphError>
    requires { length crates.old.items < limit → length order.old.nodes + 1 < 2 ^ 32 }
    ensures attributes { IfOk result (λ made. made
        ≡ map (λ text. attribute (string_bytes text)) crate_attrs.items) }
    ensures crates { crates.new.items ≡ crates.old.items }
    ensures room { OnOk result ((length crates.old.items < limit)
        × (vec_len crates.new < vec_capacity crates.new)) }
    ensures ok { OnOk result (order.new ≡ with_next_node order.old) }
    ensures err { OnErr result (order.new ≡ order.old) }
    ensures too_many { IsErrOf result GraphError.TooMany ↔ (limit ≤ length crates.old.items) }
{
    if crates.len() >= limit as usize {
        return Err(GraphError::TooMany);
    }
    let alloc = *crates.allocator();
    let crate_attrs = attributes(alloc, crate_attrs)?;
    crates.reserve(1)?;
    order.push()?;
    Ok(crate_attrs)
}

// Puts a crate behind the others, where there is room for it.
fn put(crates: &mut Vec<CrateBuilder>, krate: CrateBuilder)
    requires { vec_len crates.old < vec_capacity crates.old }
    ensures { crates.new.items ≡ crates.old.items ++ krate ∷ [] }
{
    match crates.push(krate) {
        Ok(_) => {}
        Err(_) => unreachable!(),
    }
}

// Each attribute in its `#![]`.
fn attributes(alloc: Global, texts: Vec<String>) -> Result<Items<Text>, AllocError>
    ensures { IfOk result (λ made. made ≡ map (λ text. attribute (string_bytes text)) texts.items) }
{
    let mut made = Vec::new(alloc);
    for text in texts {
        made.push(attribute_of(alloc, text.as_str())?)?;
    }
    Ok(Items::new(made))
}

fn attribute_of(alloc: Global, text: &str) -> Result<Text, AllocError>
    ensures { IfOk result (λ made. made ≡ attribute text.now) }
{
    let mut made = String::from_str(alloc, "#![")?;
    made.push_str(text)?;
    made.push_str("]")?;
    Ok(Text::new(made))
}

impl Index<CrateBuilderId> for CrateGraphBuilder {
    type Output = CrateBuilder;

    ghost can_index = { λ graph id. number_of id < length graph.crates };

    ghost index_gives = { λ graph id krate. slice_get graph.crates (number_of id) ≡ Some krate };

    fn index(&self, id: CrateBuilderId) -> &CrateBuilder {
        &self.crates[id.into_raw() as usize]
    }
}

// A search goes over crates by their raw numbers.
impl Graph for CrateGraphBuilder {
    ghost rows = { λ graph. edges graph.crates };

    fn count(&self) -> u32 {
        self.crates.len() as u32
    }

    fn degree(&self, node: u32) -> usize {
        self.crates[node as usize].basic.dependencies.len()
    }

    fn target(&self, node: u32, place: usize) -> u32 {
        let krate = &self.crates[node as usize];
        krate.basic.dependencies.as_slice()[place]
            .crate_id
            .into_raw()
    }
}

/// The numbers of a graph's crates that are left, in order.
#[derive(Drop)]
pub struct CrateIds {
    next: u32,
    end: u32,
}

impl Model for CrateIds {
    ghost use Rattle.std.specs.Prelude.{ℕ, List, ◌-◌};
    ghost use Rattle.std.specs.List.{range_with_len};

    ghost Value = { List ℕ };

    ghost view = { λ it. range_with_len it.next (it.end - it.next) };
}

impl Iterator for CrateIds {
    type Item = CrateBuilderId;

    ghost next_gives = { YieldsFirstBy number_of (λ left. left) };

    ghost remaining = { item_count (λ left. left) };

    fn next(&mut self) -> Option<CrateBuilderId> {
        if self.next >= self.end {
            return None;
        }
        let id = CrateBuilderId::from_raw(self.next);
        self.next += 1;
        Some(id)
    }
}
